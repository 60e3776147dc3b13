//! Objects and capabilities past the limits.

ghost use Rattle.capdl_text.specs.Faults.{noted};
ghost use Rattle.capdl_text.specs.Limits.{limits, most_caps, most_objects, past};
ghost use Rattle.std.specs.List.{flat_map};
ghost use Rattle.std.specs.Prelude.{◌≡◌, ◌∷◌, [], map, OnOk};

use crate::first::First;
use cam_base::{Made, TextCode};
use capdl_text::{Holder, Id, ObjectLine, SlotLine, SpecTree};

/// The most objects of a text.
const MAX_OBJECTS: u64 = 262_144;

/// The most capabilities of a text.
const MAX_CAPS: u64 = 524_288;

/// Notes a name where there is room for no more.
#[tactic(auto, using(crate::proofs::Limits::past_one, crate::proofs::Limits::past_zero))]
fn note_name(room: u64, id: &Id, first: &mut First) -> Made<()>
    ensures { OnOk result (first.new ≡ noted first.old (past room (id.now ∷ []))) }
{
    if room > 0 {
        return Ok(());
    }
    first.note(TextCode::CapdlLimit, id.place, id.name.as_bytes())
}

fn note_objects(objects: &[ObjectLine], first: &mut First) -> Made<()>
    ensures { OnOk result (first.new ≡ noted first.old (past most_objects (map (λ o. o.id) objects.now))) }
{
    let mut room = MAX_OBJECTS;
    for object in objects {
        note_name(room, &object.id, first)?;
        room = room.saturating_sub(1);
    }
    Ok(())
}

fn note_slots(most: u64, slots: &[SlotLine], first: &mut First) -> Made<()>
    ensures { OnOk result (first.new ≡ noted first.old (past most (map (λ s. s.object) slots.now))) }
{
    let mut room = most;
    for slot in slots {
        note_name(room, &slot.object, first)?;
        room = room.saturating_sub(1);
    }
    Ok(())
}

fn note_holders(holders: &[Holder], first: &mut First) -> Made<()>
    ensures { OnOk result
        (first.new ≡ noted first.old (past most_caps (flat_map (λ h. map (λ s. s.object) h.slots) holders.now))) }
{
    let mut room = MAX_CAPS;
    for holder in holders {
        note_slots(room, holder.slots.as_slice(), first)?;
        room = room.saturating_sub(holder.slots.len() as u64);
    }
    Ok(())
}

/// Notes each object and each capability past the limits.
#[tactic(auto, using(capdl_text::proofs::Noting::noting))]
pub(crate) fn note_limits(tree: &SpecTree, first: &mut First) -> Made<()>
    ensures { OnOk result (first.new ≡ noted first.old (limits tree.now)) }
{
    note_objects(tree.objects.as_slice(), first)?;
    note_holders(tree.holders.as_slice(), first)
}
