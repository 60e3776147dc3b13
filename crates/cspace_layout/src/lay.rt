//! The uses of slots, laid out by domain, leaf and member.

ghost use Rattle.adl_meaning.specs.Faults.{Refuses};
ghost use Rattle.cspace_layout.specs.Uses.{uses_at, uses_of, lock_uses, domain_uses, slots_of};
ghost use Rattle.cspace_layout.specs.SlotFaults.{first_slot_fault};
ghost use Rattle.cspace_layout.specs.Within.{IsWithin};
ghost use Rattle.cam_base.specs.Gather.{gather};
ghost use Rattle.std.specs.List.{flat_map};
ghost use Rattle.std.specs.Prelude.{◌≡◌, ◌<◌, ◌^◌, ◌++◌, length, IfOk, OnOk};

use crate::count::slot_limit;
use crate::{EndAt, SlotPlan, SlotUse, Slots, Wiring, is_lock};
use adl_ast::{Member, Role, Source};
use adl_meaning::{Connector, Flat, Settled};
use cam_base::{Fault, List, Made, Refused};
use std::alloc::Global;

fn add_end(wiring: &Wiring<'_>, at: EndAt, uses: &mut List<SlotUse>) -> Made<()>
    ensures { OnOk result (uses.new ≡ uses.old ++ uses_at wiring.now.flat at) }
{
    let first = SlotUse::OfEnd(at.connection, at.end);
    let second = SlotUse::Handler(at.connection, at.end);
    match wiring.end(at) {
        Some((Connector::Rpc | Connector::Notification, _)) => uses.push(first),
        Some((Connector::Interrupt, end)) => match end.role {
            Role::To => {
                uses.push(first)?;
                uses.push(second)
            }
            Role::From => Ok(()),
        },
        _ => Ok(()),
    }
}

fn add_ends(wiring: &Wiring<'_>, ends: &[EndAt], uses: &mut List<SlotUse>) -> Made<()>
    ensures { OnOk result (uses.new ≡ uses.old ++ flat_map (uses_at wiring.now.flat) ends.now) }
{
    for at in ends {
        add_end(wiring, *at, uses)?;
    }
    Ok(())
}

fn add_lock(leaf: u32, place: u32, member: &Member, uses: &mut List<SlotUse>) -> Made<()>
    ensures { OnOk result (uses.new ≡ uses.old ++ lock_uses leaf place member.now) }
{
    if is_lock(member) {
        uses.push(SlotUse::OwnLock(leaf, place))?;
    }
    Ok(())
}

fn add_locks(leaf: u32, members: &[Member], uses: &mut List<SlotUse>) -> Made<()>
    requires { length members.now < 2 ^ 32 }
    ensures { OnOk result (uses.new ≡ uses.old ++ gather (λ m member. lock_uses leaf m member) members.now) }
{
    for (place, member) in members.iter().enumerate() {
        add_lock(leaf, place as u32, member, uses)?;
    }
    Ok(())
}

fn add_leaf(wiring: &Wiring<'_>, leaf: u32, uses: &mut List<SlotUse>) -> Made<()>
    ensures { OnOk result (uses.new ≡ uses.old ++ uses_of wiring.now leaf) }
{
    add_ends(wiring, wiring.ends(leaf), uses)?;
    add_locks(leaf, wiring.members(leaf), uses)
}

fn lay_domain(alloc: Global, wiring: &Wiring<'_>, listed: &[u32]) -> Made<List<SlotUse>>
    ensures { IfOk result (λ uses. uses ≡ domain_uses wiring.now.source wiring.now.flat listed.now) }
{
    let mut uses = List::new(alloc);
    for leaf in listed {
        add_leaf(wiring, *leaf, &mut uses)?;
    }
    Ok(uses)
}

fn lay_domains(alloc: Global, wiring: &Wiring<'_>) -> Made<Slots>
    ensures { IfOk result (λ slots. slots ≡ slots_of wiring.now.source wiring.now.flat) }
{
    let mut domains = List::new(alloc);
    for domain in wiring.domains() {
        let uses = lay_domain(alloc, wiring, domain.leaves.as_slice())?;
        domains.push(SlotPlan { uses })?;
    }
    Ok(Slots { domains })
}

/// The slots of each domain's CNode.
///
/// # Errors
///
/// The first limit on slots that is passed: `specs/SlotFaults.antt`. Want of memory.
pub fn lay_slots(alloc: Global, wiring: &Wiring<'_>) -> Result<Slots, Refused<Fault>>
    ensures limits { Refuses result (first_slot_fault wiring.now.source wiring.now.flat) }
    ensures slots { IfOk result (λ slots. slots ≡ slots_of wiring.now.source wiring.now.flat) }
{
    match slot_limit(alloc, wiring)? {
        Some(fault) => Err(Refused::Fault(fault)),
        None => Ok(lay_domains(alloc, wiring)?),
    }
}

/// The slots of each domain's CNode, as `lay_slots` lays them. What is settled changes none of them.
///
/// # Errors
///
/// Those of `lay_slots`.
pub fn lay_caps(
    alloc: Global,
    source: &Source,
    flat: &Flat,
    settled: &Settled,
) -> Result<Slots, Refused<Fault>>
    requires { IsWithin source.now flat.now }
    ensures limits { Refuses result (first_slot_fault source.now flat.now) }
    ensures slots { IfOk result (λ slots. slots ≡ slots_of source.now flat.now) }
{
    let wiring = Wiring::new(alloc, source, flat, settled)?;
    lay_slots(alloc, &wiring)
}
