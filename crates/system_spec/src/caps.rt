//! The capabilities of CNodes.

ghost use Rattle.conn_rules.specs.Row.{RW};
ghost use Rattle.cam_base.specs.Gather.{gather};
ghost use Rattle.std.specs.Prelude.{◌≡◌, ◌+◌, ◌<◌, ◌^◌, length, IfOk};
ghost use Rattle.system_spec.specs.Objects.{joint, slots_at, use_cap_at};
ghost use Rattle.system_spec.specs.Parts.{lock, place};
ghost use Rattle.system_spec.specs.Landmarks.{ArePlaces, holds_lock, one};
ghost use Rattle.system_spec.specs.Buildable.{AreNamed, NamesOneOf};
ghost use Rattle.system_spec.specs.Tables.{uses_at, told};
ghost use Rattle.system_spec.specs.declared.part.What.TheVariants.{LockOf};

use crate::ends::{badge_at, rights_at};
use crate::places::Places;
use crate::tables::Tables;
use adl_meaning::Connector;
use arch_policy::number_at;
use cam_base::{List, Made};
use cap_model::{Cap, Rights};
use cspace_layout::SlotUse;
use std::alloc::Global;

/// The rights on a lock.
pub fn lock_rights() -> Rights
    ensures { result ≡ RW }
{
    Rights {
        read: true,
        write: true,
        ..Rights::none()
    }
}

/// The place of what the capability of an end of a connection leads to.
fn joint_place(tables: &Tables<'_>, places: &Places, connection: u32) -> u32
    requires places { ArePlaces (told tables.now) places.now }
    requires named { connection < length tables.now.flat.now.connections }
    ensures { result ≡ place (told tables.now) (joint (told tables.now) connection) }
{
    match tables.flat.connections.as_slice()[connection as usize].connector {
        Connector::Rpc => number_at(places.endpoints.as_slice(), connection),
        _ => number_at(places.notifications.as_slice(), connection),
    }
}

/// The place of what the capability of a use leads to, where its lock would stand at this place.
pub fn use_object(tables: &Tables<'_>, places: &Places, lock: u32, used: SlotUse) -> u32
    requires places { ArePlaces (told tables.now) places.now }
    requires named { NamesOneOf (length tables.now.flat.now.connections) used }
    ensures { result ≡ (use_cap_at (told tables.now) lock used).object }
{
    match used {
        SlotUse::OfEnd(connection, _) => joint_place(tables, places, connection),
        SlotUse::Handler(connection, _) => number_at(places.irqs.as_slice(), connection),
        SlotUse::OwnLock(_, _) => lock,
    }
}

/// The capability of a use, where its lock would stand at this place.
pub fn use_cap(tables: &Tables<'_>, places: &Places, lock: u32, used: SlotUse) -> Cap
    requires places { ArePlaces (told tables.now) places.now }
    requires named { NamesOneOf (length tables.now.flat.now.connections) used }
    ensures { result ≡ use_cap_at (told tables.now) lock used }
{
    let object = use_object(tables, places, lock, used);
    match used {
        SlotUse::OfEnd(connection, number) => Cap {
            object,
            rights: rights_at(tables, connection, number),
            badge: badge_at(tables, connection, number),
        },
        SlotUse::Handler(_, _) => Cap {
            object,
            rights: Rights::none(),
            badge: 0,
        },
        SlotUse::OwnLock(_, _) => Cap {
            object,
            rights: lock_rights(),
            badge: 0,
        },
    }
}

/// How many locks a use is.
pub fn lock_number(used: SlotUse) -> u32
    ensures { result ≡ one (holds_lock used) }
{
    match used {
        SlotUse::OwnLock(_, _) => 1,
        _ => 0,
    }
}

/// The capabilities of a domain with these uses, by slot, whose first lock stands at this place.
pub fn caps_of(
    alloc: Global,
    tables: &Tables<'_>,
    places: &Places,
    domain: u32,
    first_lock: u32,
    uses: &[SlotUse],
) -> Made<List<(u64, Cap)>>
    requires places { ArePlaces (told tables.now) places.now }
    requires uses { uses.now ≡ uses_at (told tables.now) domain }
    requires named { AreNamed (length tables.now.flat.now.connections) uses.now }
    requires first { first_lock ≡ place (told tables.now) (LockOf domain 0) }
    requires few { first_lock + length (gather (lock domain) uses.now) < 2 ^ 32 }
    ensures { IfOk result (λ caps. caps ≡ slots_at (told tables.now) domain) }
{
    let mut caps = List::from_vec(Vec::with_capacity(alloc, uses.len())?);
    let mut lock = first_lock;
    for (n, used) in uses.iter().enumerate() {
        caps.push((n as u64 + 1, use_cap(tables, places, lock, *used)))?;
        lock += lock_number(*used);
    }
    Ok(caps)
}
