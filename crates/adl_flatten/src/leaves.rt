//! The leaves and the domains of a flat system.

ghost use Rattle.adl_meaning.specs.Prelude.{domains, top_number};
ghost use Rattle.adl_flatten.specs.Homes.{filled, home, leaf_in, leaf_with, put_into};
ghost use Rattle.adl_items.specs.Pointed.{pointed};
ghost use Rattle.adl_flatten.specs.Templates.{template_leaves};
ghost use Rattle.std.specs.Prelude.{IfOk, OnOk, [], length, map, option_map, ◌<◌, ◌^◌, ◌≡◌};

use crate::PlacedLeaf;
use adl_meaning::{Domain, ItemAt, Leaf};
use adl_program::Program;
use cam_base::{List, Made, Name, Path};
use indexmap::IndexSet;
use std::alloc::Global;

/// The path of a leaf's domain; a device has none.
fn home<'a>(program: &Program<'_>, leaf: &'a PlacedLeaf<'_>) -> Option<&'a [Name]>
    ensures { option_map (λ p. p.now) result ≡ home program.now leaf.entry.now }
{
    if program.body(leaf.kind).is_hardware() {
        return None;
    }
    Some(leaf.home.as_ref().unwrap_or(&leaf.path).as_slice())
}

/// A leaf in the domain of the number; a device has none.
fn flat_leaf(
    alloc: Global,
    program: &Program<'_>,
    leaf: &PlacedLeaf<'_>,
    domain: Option<u32>,
) -> Made<Leaf>
    ensures { IfOk result (λ l. l ≡ leaf_with program.now domain leaf.now) }
{
    let body = program.body(leaf.kind);
    let nowhere = ItemAt { file: 0, item: 0 };
    Ok(Leaf {
        path: Path::of(alloc, leaf.path.as_slice(), &[])?,
        component: body.item().unwrap_or(nowhere),
        place: leaf.instance.component.place(),
        hardware: body.is_hardware(),
        domain,
    })
}

/// The leaves of a flat system, and the paths of its domains in the order of their first leaves.
pub fn flat_leaves<'a>(
    alloc: Global,
    program: &Program<'_>,
    leaves: &'a [PlacedLeaf<'_>],
) -> Made<(List<Leaf>, IndexSet<&'a [Name]>)>
    requires are { leaves.now ≡ template_leaves program.now (top_number program.now) }
    requires few { length leaves.now < 2 ^ 32 }
    ensures leaves { IfOk result (λ x. x.0 ≡ map (leaf_in program.now (domains program.now)) leaves.entry.now) }
    ensures paths { IfOk result (λ x. pointed x.1.keys ≡ domains program.now) }
{
    let mut flat = List::from_vec(Vec::with_capacity(alloc, leaves.len())?);
    let mut paths = IndexSet::with_capacity(alloc, leaves.len())?;
    for leaf in leaves {
        let domain = match home(program, leaf) {
            None => None,
            Some(path) => {
                let (number, _is_new) = paths.insert_full(path)?;
                Some(number as u32)
            }
        };
        flat.push(flat_leaf(alloc, program, leaf, domain)?)?;
    }
    Ok((flat, paths))
}

/// Puts a leaf into the domain of the number, if there is one.
#[tactic(auto, using(crate::proofs::Homes::set_beyond))]
fn put_into(domain: Option<u32>, leaf: u32, domains: &mut Vec<Domain>) -> Made<()>
    ensures { OnOk result (domains.new.items ≡ put_into domain leaf domains.old.items) }
{
    if let Some(number) = domain {
        if let Some(domain) = domains.get_mut(number as usize) {
            domain.leaves.push(leaf)?;
        }
    }
    Ok(())
}

/// The domains of a flat system, which have these paths, each with its leaves.
pub fn flat_domains(alloc: Global, paths: &[&[Name]], leaves: &[Leaf]) -> Made<List<Domain>>
    requires { length leaves.now < 2 ^ 32 }
    ensures { IfOk result (λ ds. ds ≡ filled 0 leaves.now (map (λ p. record { path = p.now; leaves = [] }) paths.now)) }
{
    let mut domains = Vec::with_capacity(alloc, paths.len())?;
    for path in paths {
        domains.push(Domain {
            path: Path::of(alloc, path, &[])?,
            leaves: List::new(alloc),
        })?;
    }
    for (number, leaf) in leaves.iter().enumerate() {
        put_into(leaf.domain, number as u32, &mut domains)?;
    }
    Ok(List::from_vec(domains))
}
