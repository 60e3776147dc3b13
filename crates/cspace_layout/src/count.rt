//! How many slots are needed, counted before any is laid.

ghost use Rattle.cspace_layout.specs.Counted.{capped};
ghost use Rattle.cspace_layout.specs.Uses.{uses_at, uses_of, domain_uses};
ghost use Rattle.cspace_layout.specs.SlotFaults.{first_slot_fault};
ghost use Rattle.std.specs.List.{flat_map};
ghost use Rattle.std.specs.Prelude.{◌≡◌, length, IfOk};

use crate::{EndAt, Wiring, is_lock, limit_fault};
use adl_ast::Role;
use adl_meaning::Connector;
use cam_base::{Fault, Made};
use std::alloc::Global;

fn count_end(wiring: &Wiring<'_>, at: EndAt) -> u64
    ensures { result ≡ length (uses_at wiring.now.flat at) }
{
    match wiring.end(at) {
        Some((Connector::Rpc | Connector::Notification, _)) => 1,
        Some((Connector::Interrupt, end)) => match end.role {
            Role::To => 2,
            Role::From => 0,
        },
        _ => 0,
    }
}

fn count_ends(wiring: &Wiring<'_>, ends: &[EndAt]) -> u64
    ensures { result ≡ capped (length (flat_map (uses_at wiring.now.flat) ends.now)) }
{
    let mut count: u64 = 0;
    for at in ends {
        count = count.saturating_add(count_end(wiring, *at));
    }
    count
}

/// The number of uses of a leaf.
#[tactic(auto, using(crate::proofs::Counting::leaf_counted))]
fn count_leaf(wiring: &Wiring<'_>, leaf: u32) -> u64
    ensures { result ≡ capped (length (uses_of wiring.now leaf)) }
{
    let locks = wiring
        .members(leaf)
        .iter()
        .filter(|member| is_lock(member))
        .count();
    count_ends(wiring, wiring.ends(leaf)).saturating_add(locks as u64)
}

/// The number of uses of a domain with these leaves.
fn count_domain(wiring: &Wiring<'_>, listed: &[u32]) -> u64
    ensures { result ≡ capped (length (domain_uses wiring.now.source wiring.now.flat listed.now)) }
{
    let mut count: u64 = 0;
    for leaf in listed {
        count = count.saturating_add(count_leaf(wiring, *leaf));
    }
    count
}

/// The first limit on slots that is passed, as a fault.
pub fn slot_limit(alloc: Global, wiring: &Wiring<'_>) -> Made<Option<Fault>>
    ensures { IfOk result (λ fault. fault ≡ first_slot_fault wiring.now.source wiring.now.flat) }
{
    let source = wiring.source();
    let mut all: u64 = 0;
    for domain in wiring.domains() {
        let count = count_domain(wiring, domain.leaves.as_slice());
        if count > 4095 {
            return limit_fault(alloc, source, b"slots");
        }
        all = all.saturating_add(count);
    }
    if all > 65536 {
        return limit_fault(alloc, source, b"all slots");
    }
    Ok(None)
}
