//! What an audit refuses: a CNode that holds a capability to a thread.

ghost use Rattle.cap_audit.specs.Refusals.{HasNoThread, IsFirstThread, IsThreadSlot};
ghost use Rattle.cap_audit.specs.Spread.{HoldsNoThread};
ghost use Rattle.cap_model.specs.Kept.{IsKept};
ghost use Rattle.std.specs.Prelude.{IfNone, IfSome};

use crate::begin::slots_of;
use crate::search::is_kind;
use cap_model::{Cap, Kind, Spec};

/// The first slot with a capability to a thread.
fn thread_slot(spec: &Spec, slots: &[(u64, Cap)]) -> Option<u64>
    ensures some { IfSome result (λ i. IsThreadSlot spec.now slots.now i) }
    ensures none { IfNone result (HasNoThread spec.now slots.now) }
{
    for slot in slots {
        if is_kind(spec, slot.1.object, Kind::Thread) {
            return Some(slot.0);
        }
    }
    None
}

/// The first CNode that holds a capability to a thread, and its least such slot. Takes no memory.
pub fn first_thread(spec: &Spec) -> Option<(u32, u64)>
    requires { IsKept spec.now }
    ensures some { IfSome result (λ at. IsFirstThread spec.now at.0 at.1) }
    ensures none { IfNone result (HoldsNoThread spec.now) }
{
    let entries = spec.entries.as_slice();
    for c in 0..entries.len() {
        match thread_slot(spec, slots_of(&entries[c].object)) {
            Some(slot) => return Some((c as u32, slot)),
            None => {}
        }
    }
    None
}
