//! What the slots of holders and the interrupt lines hold. Each of their names is looked up once, for its faults and for
//! what it holds.

ghost use Rattle.capdl_read.specs.Building.{slot_said, slots_or, slots_told};
ghost use Rattle.name_tables.specs.Naming.{spread_found};
ghost use Rattle.capdl_text.specs.Faults.{noted};
ghost use Rattle.capdl_text.specs.KindField.{irq_off, kind_fields, off_in, slot_off};
ghost use Rattle.capdl_text.specs.Meaning.{badge_said, cap_said, held, lines_from, place_or, rights_said};
ghost use Rattle.capdl_text.specs.Twice.{names_twice};
ghost use Rattle.capdl_text.specs.Unknown.{unknown, unknown_in, unknowns};
ghost use Rattle.std.specs.List.{flat_map};
ghost use Rattle.std.specs.Prelude.{◌≡◌, ◌<◌, ◌^◌, ℕ, [], List as Seq, map, IfOk, OnOk};

use crate::first::First;
use crate::kind::{Named, note_holder_kind, note_irq, note_objects, note_slot};
use crate::known::{find, note_unknown};
use crate::twice::meet_name;
use cam_base::{List, Made};
use cap_model::{Arch, Cap, Rights};
use capdl_text::{Holder, Id, IrqLine, Known, Param, SlotKey, SlotLine, SpecTree};
use name_tables::SpreadNames;
use std::collections::BTreeMap;

/// A slot with its capability.
#[derive(Clone, Copy)]
pub(crate) struct Slot {
    pub(crate) key: SlotKey,
    pub(crate) cap: Cap,
}

/// What is noted where a name is looked up: that it stands for nothing, or what doesn't suit the kind of its object.
#[derive(Drop)]
pub(crate) struct Faults {
    pub(crate) unknown: First,
    pub(crate) kind: First,
}

/// What is held: the slots of each holder, by its name, and the interrupt lines, sorted by number.
#[derive(Drop)]
pub(crate) struct Held<'x> {
    pub(crate) slots: SpreadNames<'x, List<Slot>>,
    pub(crate) irqs: List<(u64, u32)>,
}

/// The place of an object, 0 where there is none.
fn place_of(object: Option<Known>) -> u32
    requires { place_or object < 2 ^ 32 }
    ensures { result ≡ place_or object }
{
    match object {
        None => 0,
        Some(object) => object.place as u32,
    }
}

fn rights_said(params: &[Param]) -> Rights
    ensures { result ≡ rights_said params.now }
{
    for param in params {
        if let Param::Rights(rights, _) = param {
            return *rights;
        }
    }
    Rights::none()
}

fn badge_said(params: &[Param]) -> u64
    ensures { result ≡ badge_said params.now }
{
    for param in params {
        if let Param::Badge(_, number) = param {
            return number.value;
        }
    }
    0
}

/// What a slot holds.
fn slot_held<'x>(
    arch: Arch,
    known: &SpreadNames<'x, Known>,
    holder: Named,
    slot: &SlotLine<'x>,
    faults: &mut Faults,
) -> Made<Slot>
    requires few { (n : Seq ℕ) → place_or (spread_found known.now n) < 2 ^ 32 }
    ensures unknown { OnOk result
        (faults.new.unknown ≡ noted faults.old.unknown (unknown (spread_found known.now) slot.now.object)) }
    ensures kind { OnOk result
        (faults.new.kind ≡ noted faults.old.kind
        (slot_off arch (spread_found known.now) holder.entry.id.now holder.entry.known slot.now)) }
    ensures slot { IfOk result (λ s. s ≡ slot_said (spread_found known.now) slot.now) }
{
    let object = find(known, &slot.object.name);
    note_unknown(object, &slot.object, &mut faults.unknown)?;
    note_slot(arch, holder, slot, object, &mut faults.kind)?;
    Ok(Slot {
        key: slot.key,
        cap: Cap {
            object: place_of(object),
            rights: rights_said(slot.params.as_slice()),
            badge: badge_said(slot.params.as_slice()),
        },
    })
}

fn slots_held<'x>(
    arch: Arch,
    known: &SpreadNames<'x, Known>,
    holder: Named,
    slots: &[SlotLine<'x>],
    faults: &mut Faults,
) -> Made<List<Slot>>
    requires few { (n : Seq ℕ) → place_or (spread_found known.now n) < 2 ^ 32 }
    ensures unknown { OnOk result
        (faults.new.unknown ≡ noted faults.old.unknown (flat_map (λ s. unknown (spread_found known.now) s.object) slots.now)) }
    ensures kind { OnOk result
        (faults.new.kind ≡ noted faults.old.kind
        (flat_map (slot_off arch (spread_found known.now) holder.entry.id.now holder.entry.known) slots.now)) }
    ensures held { IfOk result (λ held. held ≡ map (slot_said (spread_found known.now)) slots.now) }
{
    let mut held = List::from_vec(Vec::with_capacity(faults.kind.alloc(), slots.len())?);
    for slot in slots {
        held.push(slot_held(arch, known, holder, slot, faults)?)?;
    }
    Ok(held)
}

/// What the slots of a holder hold.
#[tactic(auto, using(capdl_text::proofs::Noting::noting))]
fn holder_held<'x>(
    arch: Arch,
    known: &SpreadNames<'x, Known>,
    line: &Holder<'x>,
    faults: &mut Faults,
) -> Made<List<Slot>>
    requires few { (n : Seq ℕ) → place_or (spread_found known.now n) < 2 ^ 32 }
    ensures unknown { OnOk result (faults.new.unknown ≡ noted faults.old.unknown (unknown_in (spread_found known.now) line.now)) }
    ensures kind { OnOk result (faults.new.kind ≡ noted faults.old.kind (off_in arch (spread_found known.now) line.now)) }
    ensures held { IfOk result (λ held. held ≡ map (slot_said (spread_found known.now)) line.now.slots) }
{
    let holder = Named {
        id: &line.id,
        known: find(known, &line.id.name),
    };
    note_unknown(holder.known, holder.id, &mut faults.unknown)?;
    note_holder_kind(holder, &mut faults.kind)?;
    slots_held(arch, known, holder, line.slots.as_slice(), faults)
}

/// The slots of holders by name: of the first holder of each. Notes the names of holders that stand a second time.
fn holders_held<'x>(
    arch: Arch,
    known: &SpreadNames<'x, Known>,
    holders: &[Holder<'x>],
    faults: &mut Faults,
    twice: &mut First,
) -> Made<SpreadNames<'x, List<Slot>>>
    requires few { (n : Seq ℕ) → place_or (spread_found known.now n) < 2 ^ 32 }
    ensures unknown { OnOk result
        (faults.new.unknown ≡ noted faults.old.unknown (flat_map (unknown_in (spread_found known.now)) holders.now)) }
    ensures kind { OnOk result
        (faults.new.kind ≡ noted faults.old.kind (flat_map (off_in arch (spread_found known.now)) holders.now)) }
    ensures twice { OnOk result (twice.new ≡ noted twice.old (names_twice (map (λ h. h.id) holders.now))) }
    ensures held { IfOk result
        (λ t. (n : Seq ℕ) → slots_told (spread_found t n) ≡ map (slot_said (spread_found known.now)) (held holders.now n)) }
{
    let mut table = SpreadNames::with_room(twice.alloc(), holders.len())?;
    for holder in holders {
        let slots = holder_held(arch, known, holder, faults)?;
        meet_name(&holder.id, slots, &mut table, twice)?;
    }
    Ok(table)
}

/// What an interrupt line holds.
fn line_held<'x>(known: &SpreadNames<'x, Known>, id: &Id<'x>, faults: &mut Faults) -> Made<u32>
    requires few { (n : Seq ℕ) → place_or (spread_found known.now n) < 2 ^ 32 }
    ensures unknown { OnOk result (faults.new.unknown ≡ noted faults.old.unknown (unknown (spread_found known.now) id.now)) }
    ensures kind { OnOk result
        (faults.new.kind ≡ noted faults.old.kind (irq_off id.now (spread_found known.now id.now.name))) }
    ensures place { IfOk result (λ place. place ≡ place_or (spread_found known.now id.now.name)) }
{
    let object = find(known, &id.name);
    note_unknown(object, id, &mut faults.unknown)?;
    note_irq(id, object, &mut faults.kind)?;
    Ok(place_of(object))
}

/// The interrupt lines, sorted by number.
fn lines_held<'x>(
    known: &SpreadNames<'x, Known>,
    lines: &[IrqLine<'x>],
    faults: &mut Faults,
) -> Made<List<(u64, u32)>>
    requires few { (n : Seq ℕ) → place_or (spread_found known.now n) < 2 ^ 32 }
    ensures unknown { OnOk result
        (faults.new.unknown ≡ noted faults.old.unknown (flat_map (λ l. unknown (spread_found known.now) l.object) lines.now)) }
    ensures kind { OnOk result
        (faults.new.kind ≡ noted faults.old.kind
        (flat_map (λ l. irq_off l.object (spread_found known.now l.object.name)) lines.now)) }
    ensures lines { IfOk result (λ said. said ≡ lines_from (spread_found known.now) [] lines.now) }
{
    let alloc = faults.kind.alloc();
    let mut said = BTreeMap::new(alloc);
    for line in lines {
        let place = line_held(known, &line.object, faults)?;
        said.insert(line.number.value, place)?;
    }
    let items: Vec<(u64, u32)> = said.into_iter().collect(alloc)?;
    Ok(List::from_vec(items))
}

/// What is held in a tree. Notes the names that stand for nothing, what doesn't suit a kind of object, and the names of
/// holders that stand a second time.
#[tactic(auto, using(capdl_text::proofs::Noting::noting))]
pub(crate) fn look_up<'x>(
    known: &SpreadNames<'x, Known>,
    tree: &SpecTree<'x>,
    faults: &mut Faults,
    twice: &mut First,
) -> Made<Held<'x>>
    requires few { (n : Seq ℕ) → place_or (spread_found known.now n) < 2 ^ 32 }
    ensures unknown { OnOk result (faults.new.unknown ≡ noted faults.old.unknown (unknowns (spread_found known.now) tree.now)) }
    ensures kind { OnOk result (faults.new.kind ≡ noted faults.old.kind (kind_fields (spread_found known.now) tree.now)) }
    ensures twice { OnOk result (twice.new ≡ noted twice.old (names_twice (map (λ h. h.id) tree.now.holders))) }
    ensures slots { IfOk result (λ held_now. (n : Seq ℕ) → slots_told (spread_found held_now.slots n)
        ≡ map (slot_said (spread_found known.now)) (held tree.now.holders n)) }
    ensures irqs { IfOk result (λ held_now. held_now.irqs ≡ lines_from (spread_found known.now) [] tree.now.irqs) }
{
    note_objects(tree.arch, tree.objects.as_slice(), &mut faults.kind)?;
    let slots = holders_held(tree.arch, known, tree.holders.as_slice(), faults, twice)?;
    let irqs = lines_held(known, tree.irqs.as_slice(), faults)?;
    Ok(Held { slots, irqs })
}
