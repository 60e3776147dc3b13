//! What doesn't suit a kind of object.

ghost use Rattle.cam_base.specs.declared.text_fault.TextCode.TheVariants as code;
ghost use Rattle.capdl_text.specs.Faults.{at_id, at_place, fault, noted, where_false};
ghost use Rattle.capdl_text.specs.KindField.{cap_off, frame_value_off, has_key, holder_off, holder_takes, holds, irq_off, is_fill, is_space_root, key_off, kind_off, kind_takes, no_params, param_off, params_off, takes, thread_value_off};
ghost use Rattle.cap_model.specs.Kept.{within};
ghost use Rattle.std.specs.List.{flat_map};
ghost use Rattle.std.specs.Prelude.{◌≡◌, ◌++◌, OnOk};

use crate::first::First;
use crate::known::are_bits;
use cam_base::{Made, TextCode};
use cap_model::{Arch, Kind, Rights};
use capdl_text::{
    FrameField, FrameValue, Id, KindLine, Known, ObjectLine, Param, SlotKey, SlotLine, Span,
    ThreadField, ThreadValue,
};

fn note_place(suits: bool, place: Span, first: &mut First) -> Made<()>
    ensures { OnOk result (first.new ≡ noted first.old (where_false suits (at_place code.CapdlKindField place))) }
{
    if suits {
        return Ok(());
    }
    first.note(TextCode::CapdlKindField, place, b"")
}

fn note_name(suits: bool, place: Span, name: &[u8], first: &mut First) -> Made<()>
    ensures { OnOk result (first.new ≡ noted first.old (where_false suits (fault code.CapdlKindField place name.now))) }
{
    if suits {
        return Ok(());
    }
    first.note(TextCode::CapdlKindField, place, name)
}

fn note_id(suits: bool, id: &Id, first: &mut First) -> Made<()>
    ensures { OnOk result (first.new ≡ noted first.old (where_false suits (at_id code.CapdlKindField id.now))) }
{
    note_name(suits, id.place, id.name.as_bytes(), first)
}

fn note_thread_value(value: &ThreadValue, first: &mut First) -> Made<()>
    ensures { OnOk result (first.new ≡ noted first.old (thread_value_off value.now)) }
{
    match value {
        ThreadValue::Prio(n) => note_place(n.value <= 255, n.place, first),
        _ => Ok(()),
    }
}

fn note_thread_fields(fields: &[ThreadField], first: &mut First) -> Made<()>
    ensures { OnOk result (first.new ≡ noted first.old (flat_map (λ f. thread_value_off f.value) fields.now)) }
{
    for field in fields {
        note_thread_value(&field.value, first)?;
    }
    Ok(())
}

fn is_fill(offset: u64, length: u64) -> bool
    ensures { result ≡ is_fill offset length }
{
    0 < length && length <= 4096 && offset <= 4096 - length
}

fn note_frame_value(value: &FrameValue, first: &mut First) -> Made<()>
    ensures { OnOk result (first.new ≡ noted first.old (frame_value_off value.now)) }
{
    match value {
        FrameValue::Paddr(n) => note_place(n.value % 4096 == 0, n.place, first),
        FrameValue::Fill(None) => Ok(()),
        FrameValue::Fill(Some(fill)) => {
            let suits = is_fill(fill.offset.value, fill.length.value);
            note_place(suits, fill.length.place, first)
        }
    }
}

fn note_frame_fields(fields: &[FrameField], first: &mut First) -> Made<()>
    ensures { OnOk result (first.new ≡ noted first.old (flat_map (λ f. frame_value_off f.value) fields.now)) }
{
    for field in fields {
        note_frame_value(&field.value, first)?;
    }
    Ok(())
}

fn note_kind(arch: Arch, kind: &KindLine, first: &mut First) -> Made<()>
    ensures { OnOk result (first.new ≡ noted first.old (kind_off arch kind.now)) }
{
    match kind {
        KindLine::Endpoint | KindLine::Notification | KindLine::Irq => Ok(()),
        KindLine::CNode(bits) => note_place(are_bits(bits.value), bits.place, first),
        KindLine::Thread(fields) => note_thread_fields(fields.as_slice(), first),
        KindLine::Frame(fields) => note_frame_fields(fields.as_slice(), first),
        KindLine::Pages(level, place) => { note_place(arch.size(*level).is_some(), *place, first) }
    }
}

/// Notes what doesn't suit the kinds of objects that are said.
pub(crate) fn note_objects(arch: Arch, objects: &[ObjectLine], first: &mut First) -> Made<()>
    ensures { OnOk result (first.new ≡ noted first.old (flat_map (λ o. kind_off arch o.kind) objects.now)) }
{
    for object in objects {
        note_kind(arch, &object.kind, first)?;
    }
    Ok(())
}

fn holds(kind: Kind) -> bool
    ensures { result ≡ holds kind }
{
    match kind {
        Kind::Endpoint | Kind::Notification | Kind::Frame => false,
        Kind::CNode | Kind::Thread | Kind::Pages(_) | Kind::Irq => true,
    }
}

/// The name of a holder, and what it stands for.
#[derive(Clone, Copy)]
pub(crate) struct Named<'h, 'x> {
    pub(crate) id: &'h Id<'x>,
    pub(crate) known: Option<Known>,
}

/// Notes a holder of a kind without slots.
pub(crate) fn note_holder_kind(holder: Named, first: &mut First) -> Made<()>
    ensures { OnOk result (first.new ≡ noted first.old (holder_off holder.entry.id.now holder.entry.known)) }
{
    match holder.known {
        None => Ok(()),
        Some(known) => note_id(holds(known.kind), holder.id, first),
    }
}

fn has_key(kind: Kind, key: SlotKey) -> bool
    ensures { result ≡ has_key kind key }
{
    match key {
        SlotKey::Number(_) => !kind.is(Kind::Thread),
        SlotKey::Cspace | SlotKey::Vspace | SlotKey::Buffer => kind.is(Kind::Thread),
    }
}

fn note_key(holder: Named, slot: &SlotLine, first: &mut First) -> Made<()>
    ensures { OnOk result (first.new ≡ noted first.old (key_off holder.entry.id.now holder.entry.known slot.now)) }
{
    match holder.known {
        None => Ok(()),
        Some(known) => note_name(
            has_key(known.kind, slot.key),
            slot.place,
            holder.id.name.as_bytes(),
            first,
        ),
    }
}

fn is_space_root(arch: Arch, kind: Kind) -> bool
    ensures { result ≡ is_space_root arch kind }
{
    match kind {
        Kind::Pages(level) => arch.is_root(level),
        _ => false,
    }
}

fn no_params(params: &[Param]) -> bool
    ensures { result ≡ no_params params.now }
{
    match params {
        [] => true,
        [_, ..] => false,
    }
}

fn kind_takes(holder: Kind, kind: Kind, params: &[Param]) -> bool
    ensures { result ≡ kind_takes holder kind params.now }
{
    match holder {
        Kind::Pages(level) => kind.is(level.child()),
        Kind::Irq => kind.is(Kind::Notification) && no_params(params),
        Kind::Endpoint | Kind::Notification | Kind::CNode | Kind::Thread | Kind::Frame => true,
    }
}

fn holder_takes(holder: Option<Known>, kind: Kind, params: &[Param]) -> bool
    ensures { result ≡ holder_takes holder kind params.now }
{
    match holder {
        None => true,
        Some(known) => kind_takes(known.kind, kind, params),
    }
}

fn takes(arch: Arch, holder: Option<Known>, key: SlotKey, kind: Kind, params: &[Param]) -> bool
    ensures { result ≡ takes arch holder key kind params.now }
{
    match key {
        SlotKey::Number(_) => holder_takes(holder, kind, params),
        SlotKey::Cspace => kind.is(Kind::CNode),
        SlotKey::Vspace => is_space_root(arch, kind),
        SlotKey::Buffer => kind.is(Kind::Frame),
    }
}

fn note_cap(
    arch: Arch,
    holder: Option<Known>,
    slot: &SlotLine,
    object: Option<Known>,
    first: &mut First,
) -> Made<()>
    ensures { OnOk result (first.new ≡ noted first.old (cap_off arch holder slot.now object)) }
{
    match object {
        None => Ok(()),
        Some(known) => note_id(
            takes(arch, holder, slot.key, known.kind, slot.params.as_slice()),
            &slot.object,
            first,
        ),
    }
}

fn within(rights: Rights, most: Rights) -> bool
    ensures { result ≡ within rights most }
{
    (!rights.read || most.read)
        && (!rights.write || most.write)
        && ((!rights.grant || most.grant) && (!rights.reply || most.reply))
}

fn note_param(kind: Kind, param: Param, first: &mut First) -> Made<()>
    ensures { OnOk result (first.new ≡ noted first.old (param_off kind param)) }
{
    match param {
        Param::Rights(rights, place) => { note_place(within(rights, kind.rights()), place, first) }
        Param::Badge(_, number) => note_place(kind.has_badge(), number.place, first),
    }
}

fn note_params(kind: Kind, params: &[Param], first: &mut First) -> Made<()>
    ensures { OnOk result (first.new ≡ noted first.old (flat_map (param_off kind) params.now)) }
{
    for param in params {
        note_param(kind, *param, first)?;
    }
    Ok(())
}

fn note_slot_params(slot: &SlotLine, object: Option<Known>, first: &mut First) -> Made<()>
    ensures { OnOk result (first.new ≡ noted first.old (params_off slot.now object)) }
{
    match object {
        None => Ok(()),
        Some(known) => note_params(known.kind, slot.params.as_slice(), first),
    }
}

/// Notes what doesn't suit a slot of a holder, where its name stands for this object.
#[tactic(auto, using(capdl_text::proofs::Noting::noting))]
pub(crate) fn note_slot(
    arch: Arch,
    holder: Named,
    slot: &SlotLine,
    object: Option<Known>,
    first: &mut First,
) -> Made<()>
    ensures { OnOk result (first.new ≡ noted first.old (key_off holder.entry.id.now holder.entry.known slot.now
        ++ cap_off arch holder.entry.known slot.now object ++ params_off slot.now object)) }
{
    note_key(holder, slot, first)?;
    note_cap(arch, holder.known, slot, object, first)?;
    note_slot_params(slot, object, first)
}

/// Notes the object of an interrupt line that is no interrupt.
pub(crate) fn note_irq(id: &Id, object: Option<Known>, first: &mut First) -> Made<()>
    ensures { OnOk result (first.new ≡ noted first.old (irq_off id.now object)) }
{
    match object {
        None => Ok(()),
        Some(known) => note_id(known.kind.is(Kind::Irq), id, first),
    }
}
