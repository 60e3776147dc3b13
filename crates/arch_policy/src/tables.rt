ghost use Rattle.arch_policy.specs.Owners.{leaf_owner};
ghost use Rattle.arch_policy.specs.Tables.{connection_label, domain_label, leaf_label, number_of, told};
ghost use Rattle.std.specs.Prelude.{◌≡◌, slice_index};

use crate::{LabelNumbers, Owner};
use adl_ast::Source;
use adl_meaning::{Flat, Settled};

/// What a policy is made from: the source, its flat, settled system, and the numbers of labels.
#[derive(Clone, Copy)]
pub struct Tables<'a> {
    pub source: &'a Source,
    pub flat: &'a Flat,
    pub settled: &'a Settled,
    pub numbers: &'a LabelNumbers,
}

/// The number at a place, 0 where there is none. Takes no memory.
pub fn number_at(numbers: &[u32], place: u32) -> u32
    ensures { result ≡ slice_index numbers.now place }
{
    match numbers.get(place as usize) {
        Some(number) => *number,
        None => 0,
    }
}

impl LabelNumbers {
    /// The number of a label.
    pub fn of(&self, owner: Owner) -> u32
        ensures { result ≡ number_of self.now owner }
    {
        match owner {
            Owner::OfDomain(domain) => number_at(self.domains.as_slice(), domain),
            Owner::OfConnection(connection) => number_at(self.connections.as_slice(), connection),
            Owner::OfLeaf(leaf) => number_at(self.devices.as_slice(), leaf),
        }
    }
}

/// Whose a leaf is: its domain's, or as a device its own.
pub fn leaf_owner(flat: &Flat, leaf: u32) -> Owner
    ensures { result ≡ leaf_owner flat.now leaf }
{
    match flat.leaves.as_slice().get(leaf as usize) {
        Some(found) => match found.domain {
            Some(domain) => Owner::OfDomain(domain),
            None => Owner::OfLeaf(leaf),
        },
        None => Owner::OfLeaf(leaf),
    }
}

/// The label of a leaf's domain, or of a device.
pub fn leaf_label(tables: &Tables<'_>, leaf: u32) -> u32
    ensures { result ≡ leaf_label (told tables.now) leaf }
{
    tables.numbers.of(leaf_owner(tables.flat, leaf))
}

/// The label of a connection.
pub fn connection_label(tables: &Tables<'_>, connection: u32) -> u32
    ensures { result ≡ connection_label (told tables.now) connection }
{
    tables.numbers.of(Owner::OfConnection(connection))
}

/// The label of a domain.
pub fn domain_label(tables: &Tables<'_>, domain: u32) -> u32
    ensures { result ≡ domain_label (told tables.now) domain }
{
    tables.numbers.of(Owner::OfDomain(domain))
}
