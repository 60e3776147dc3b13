//! What stands a second time.

ghost use Rattle.capdl_text.specs.Faults.{at_id, fault, noted, where_true};
ghost use Rattle.capdl_text.specs.Twice.{fields_twice, keys_twice, names_twice, params_twice, twice_in, twices};
ghost use Rattle.cam_base.specs.declared.text_fault.TextCode.TheVariants as code;
ghost use Rattle.name_tables.specs.ByName.{found};
ghost use Rattle.name_tables.specs.Keys.{Key as Pair, has_key, same_key};
ghost use Rattle.name_tables.specs.Naming.{spread_found};
ghost use Rattle.std.specs.List.{flat_map};
ghost use Rattle.std.specs.Option.{option_or};
ghost use Rattle.std.specs.Prelude.{◌≡◌, ◌||◌, ◌∷◌, ℕ, [], None, List as Seq, is_some, map, OnOk};

use crate::first::First;
use crate::keyed::{Keyed, rise};
use cam_base::{Made, TextCode};
use capdl_text::{Holder, Id, IrqLine, KindLine, ObjectLine, SlotLine, Span, SpecTree};
use name_tables::{KeySet, SpreadNames};

/// Takes the next name with its value, or notes that it was met before.
pub(crate) fn meet_name<'x, V: Drop>(
    id: &Id<'x>,
    value: V,
    met: &mut SpreadNames<'x, V>,
    first: &mut First,
) -> Made<()>
    ensures first { OnOk result (first.new ≡ noted first.old (where_true (is_some (spread_found met.old id.now.name))
        (at_id code.CapdlTwice id.now))) }
    ensures met { OnOk result ((n : Seq ℕ) → spread_found met.new n
        ≡ option_or (spread_found met.old n) (found ((id.now.name, value) ∷ []) n)) }
{
    let name = id.name.as_bytes();
    if met.add(name, value)? {
        first.note(TextCode::CapdlTwice, id.place, name)?;
    }
    Ok(())
}

fn note_irq_objects(lines: &[IrqLine], first: &mut First) -> Made<()>
    ensures { OnOk result (first.new ≡ noted first.old (names_twice (map (λ l. l.object) lines.now))) }
{
    let mut met = SpreadNames::with_room(first.alloc(), lines.len())?;
    for line in lines {
        meet_name(&line.object, (), &mut met, first)?;
    }
    Ok(())
}

/// Takes the next key, or notes that it was met before.
fn meet_key(keyed: ((u8, u64), Span), name: &[u8], met: &mut KeySet, first: &mut First) -> Made<()>
    ensures first { OnOk result
        (first.new ≡ noted first.old (where_true (has_key met.old keyed.0) (fault code.CapdlTwice keyed.1 name.now))) }
    ensures met { OnOk result ((k : Pair) → has_key met.new k ≡ (has_key met.old k || same_key k keyed.0)) }
{
    if met.contains(keyed.0) {
        first.note(TextCode::CapdlTwice, keyed.1, name)?;
    }
    met.insert(keyed.0)
}

/// Notes what an earlier one is equal to, under this name. Most texts have their keys in rising order, where none is.
fn note_keys<K: Keyed>(name: &[u8], items: &[K], first: &mut First) -> Made<()>
    ensures { OnOk result (first.new ≡ noted first.old (keys_twice name.now (map K.keyed_as items.now))) }
{
    if rise(items) {
        return Ok(());
    }
    let mut met = KeySet::new(first.alloc());
    for item in items {
        meet_key(item.keyed(), name, &mut met, first)?;
    }
    Ok(())
}

fn note_fields(kind: &KindLine, first: &mut First) -> Made<()>
    ensures { OnOk result (first.new ≡ noted first.old (fields_twice kind.now)) }
{
    match kind {
        KindLine::Thread(fields) => note_keys(b"", fields.as_slice(), first),
        KindLine::Frame(fields) => note_keys(b"", fields.as_slice(), first),
        _ => Ok(()),
    }
}

fn note_all_fields(objects: &[ObjectLine], first: &mut First) -> Made<()>
    ensures { OnOk result (first.new ≡ noted first.old (flat_map (λ o. fields_twice o.kind) objects.now)) }
{
    for object in objects {
        note_fields(&object.kind, first)?;
    }
    Ok(())
}

fn note_all_params(slots: &[SlotLine], first: &mut First) -> Made<()>
    ensures { OnOk result (first.new ≡ noted first.old (flat_map params_twice slots.now)) }
{
    for slot in slots {
        note_keys(b"", slot.params.as_slice(), first)?;
    }
    Ok(())
}

#[tactic(auto, using(capdl_text::proofs::Noting::noting))]
fn note_holder(holder: &Holder, first: &mut First) -> Made<()>
    ensures { OnOk result (first.new ≡ noted first.old (twice_in holder.now)) }
{
    let name = holder.id.name.as_bytes();
    note_keys(name, holder.slots.as_slice(), first)?;
    note_all_params(holder.slots.as_slice(), first)
}

fn note_all_slots(holders: &[Holder], first: &mut First) -> Made<()>
    ensures { OnOk result (first.new ≡ noted first.old (flat_map twice_in holders.now)) }
{
    for holder in holders {
        note_holder(holder, first)?;
    }
    Ok(())
}

/// Notes what stands a second time, where the names of objects and of holders that do are noted by themselves.
#[tactic(auto, using(capdl_text::proofs::Noting::noting, crate::proofs::Checked::merged))]
pub(crate) fn note_twices(
    tree: &SpecTree,
    objects: First,
    holders: First,
    first: &mut First,
) -> Made<()>
    requires objects { objects ≡ noted None (names_twice (map (λ o. o.id) tree.now.objects)) }
    requires holders { holders ≡ noted None (names_twice (map (λ h. h.id) tree.now.holders)) }
    ensures { OnOk result (first.new ≡ noted first.old (twices tree.now)) }
{
    first.merge(objects);
    note_all_fields(tree.objects.as_slice(), first)?;
    first.merge(holders);
    note_all_slots(tree.holders.as_slice(), first)?;
    note_keys(b"", tree.irqs.as_slice(), first)?;
    note_irq_objects(tree.irqs.as_slice(), first)
}
