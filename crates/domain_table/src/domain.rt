//! What is inside a domain.

ghost use Rattle.domain_table.specs.Tables.{domain_called, domain_labels, has_end, has_leaf};
ghost use Rattle.std.specs.Prelude.{◌≡◌, ◌<◌, length, IfOk, IfSome};

use adl_meaning::Flat;
use cam_base::{List, Made, Text};
use cspace_layout::end_of;
use std::alloc::Global;
use system_spec::MapNames;

/// A domain of a system by its number, and what gives names to what is in it.
#[derive(Drop)]
pub(crate) struct NamedDomain<'a> {
    pub alloc: Global,
    pub names: MapNames<'a>,
    pub number: u32,
}

impl<'a> NamedDomain<'a> {
    /// Whether the domain has the leaf.
    pub fn has_leaf(&self, leaf: u32) -> bool
        ensures { result ≡ has_leaf self.now.names.flat.now self.now.number leaf }
    {
        match self.names.flat.leaves.as_slice().get(leaf as usize) {
            Some(leaf) => leaf.domain == Some(self.number),
            None => false,
        }
    }

    /// Whether the domain has the leaf at which the end stands.
    pub fn has_end(&self, connection: u32, end: u32) -> bool
        ensures { result ≡ has_end self.now.names.flat.now self.now.number connection end }
    {
        match end_of(self.names.flat, connection, end) {
            Some((_, end)) => self.has_leaf(end.leaf),
            None => false,
        }
    }
}

/// The texts of the labels of all domains.
pub fn domain_labels(alloc: Global, flat: &Flat) -> Made<List<Text>>
    ensures { IfOk result (λ labels. labels ≡ domain_labels flat.now) }
{
    let mut labels = List::new(alloc);
    for domain in flat.domains.as_slice() {
        labels.push(domain.path.text(alloc)?)?;
    }
    Ok(labels)
}

/// The number of the domain with this label, `None` exactly where no domain has it.
pub fn domain_called(alloc: Global, flat: &Flat, label: &[u8]) -> Made<Option<usize>>
    ensures called { IfOk result (λ domain. domain ≡ domain_called flat.now label.now) }
    ensures below { IfOk result (λ domain. IfSome domain (λ number. number < length flat.now.domains)) }
{
    let labels = domain_labels(alloc, flat)?;
    Ok(
        labels
            .as_slice()
            .iter()
            .position(|text| text.as_bytes() == label),
    )
}
