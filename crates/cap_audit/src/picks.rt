//! The capabilities of one CNode that a kind of step takes.

ghost use Rattle.cap_audit.specs.Picks.{is_wanted, pick_of, place_in, place_of};
ghost use Rattle.cap_audit.specs.Search.{held_by};
ghost use Rattle.std.specs.List.{filter_map};
ghost use Rattle.std.specs.Prelude.{◌≡◌, IfOk};

use crate::gates::Place;
use crate::{Findings, Held, is_kind};
use cam_base::Made;
use cap_model::{Cap, Kind, Spec, is_root};
use std::alloc::Global;

/// What a CNode is looked through for.
#[derive(Clone, Copy)]
pub enum Wanted {
    Frame,
    Space,
    Irq,
    Bound,
    Caller,
    Listener,
}

/// A capability, and the number at which it stands.
#[derive(Clone, Copy)]
pub struct Pick {
    pub number: u64,
    pub cap: Cap,
}

impl Wanted {
    /// Whether this capability is one of them.
    pub fn is(self, spec: &Spec, cap: Cap) -> bool
        ensures { result ≡ is_wanted spec.now self cap }
    {
        match self {
            Wanted::Frame => is_kind(spec, cap.object, Kind::Frame),
            Wanted::Space => {
                (cap.object as usize) < spec.entries.len() && is_root(spec, cap.object)
            }
            Wanted::Irq => is_kind(spec, cap.object, Kind::Irq),
            Wanted::Bound => is_kind(spec, cap.object, Kind::Notification) && cap.rights.write,
            Wanted::Caller => {
                is_kind(spec, cap.object, Kind::Endpoint)
                    && (cap.rights.write && (cap.rights.grant || cap.rights.reply))
            }
            Wanted::Listener => is_kind(spec, cap.object, Kind::Endpoint) && cap.rights.read,
        }
    }
}

/// The value as a pick, where it is one of those.
pub fn picked(spec: &Spec, findings: &Findings, wanted: Wanted, held: Held) -> Option<Pick>
    ensures { result ≡ pick_of spec.now findings.now wanted held }
{
    match findings.value(held.value) {
        Some(cap) => {
            if wanted.is(spec, cap) {
                Some(Pick {
                    number: held.number,
                    cap,
                })
            } else {
                None
            }
        }
        None => None,
    }
}

/// Those of a CNode's capabilities.
pub fn picks(
    alloc: Global,
    spec: &Spec,
    findings: &Findings,
    node: u32,
    wanted: Wanted,
) -> Made<Vec<Pick>>
    ensures { IfOk result (λ picks. picks.items ≡ filter_map (pick_of spec.now findings.now wanted) (held_by findings.now node)) }
{
    let picks = findings
        .holdings(node)
        .iter()
        .filter_map(|held| picked(spec, findings, wanted, *held))
        .collect(alloc)?;
    Ok(picks)
}

/// Where a CNode has the value, by what it holds.
fn place_in(node: u32, helds: &[Held], value: usize) -> Option<Place>
    ensures { result ≡ place_in node value helds.now }
{
    for held in helds {
        if held.value == value {
            return Some(Place {
                node,
                number: held.number,
            });
        }
    }
    None
}

/// Where each of these CNodes that has the value has it.
pub fn places(alloc: Global, findings: &Findings, nodes: &[u32], value: usize) -> Made<Vec<Place>>
    ensures { IfOk result (λ places. places.items ≡ filter_map (place_of findings.now value) nodes.now) }
{
    let places = nodes
        .iter()
        .filter_map(|node| place_in(*node, findings.holdings(*node), value))
        .collect(alloc)?;
    Ok(places)
}
