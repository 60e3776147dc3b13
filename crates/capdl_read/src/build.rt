//! The spec of a tree without faults.

ghost use Rattle.capdl_read.specs.Building.{AreBitsFew, all_named, entry_of, first_numbered, numbered_from, object_of, slots_told};
ghost use Rattle.capdl_text.specs.Meaning.{fields_from, fill_of, fill_or, fill_said, no_tcb, numbered_or, paddr_or, paddr_said, put_field, put_named, put_slot};
ghost use Rattle.capdl_text.specs.declared.tree.ObjectLine.{ObjectLine as ObjectTree};
ghost use Rattle.name_tables.specs.Naming.{spread_found};
ghost use Rattle.std.specs.Option.{option_copied, option_map};
ghost use Rattle.std.specs.Prelude.{◌≡◌, ℕ, [], map, slice_get, Some as Present, OnOk, IfOk, IfSome};

use crate::held::Slot;
use crate::keyed::is_above;
use cam_base::{Boxed, List, Made, Name, Text};
use cap_model::{Cap, Entry, Fill, Object, Tcb};
use capdl_text::{
    FillLine, FrameField, FrameValue, KindLine, ObjectLine, SlotKey, ThreadField, ThreadValue,
};
use name_tables::SpreadNames;
use std::alloc::Global;
use std::collections::BTreeMap;

/// Puts a capability into numbered slots.
fn put_slot(key: SlotKey, cap: Cap, slots: &mut BTreeMap<u64, Cap>) -> Made<()>
    ensures { OnOk result (slots.new.entries ≡ put_slot key cap slots.old.entries) }
{
    match key {
        SlotKey::Number(n) => {
            slots.insert(n, cap)?;
            Ok(())
        }
        SlotKey::Cspace | SlotKey::Vspace | SlotKey::Buffer => Ok(()),
    }
}

/// The numbered slots as they stand, where each stands above the one before it, as in most texts; else nothing.
fn rising(alloc: Global, slots: &[Slot]) -> Made<Option<List<(u64, Cap)>>>
    ensures { IfOk result (λ said. IfSome said (λ rising. rising ≡ numbered_from [] slots.now)) }
{
    let mut rising = List::from_vec(Vec::with_capacity(alloc, slots.len())?);
    let mut last = None;
    for slot in slots {
        let SlotKey::Number(n) = slot.key else {
            return Ok(None);
        };
        if is_above(last, (0, n)) {
            rising.push((n, slot.cap))?;
            last = Some((0, n));
        } else {
            return Ok(None);
        }
    }
    Ok(Some(rising))
}

/// The numbered slots, put into their order one by one.
fn sorted(alloc: Global, slots: &[Slot]) -> Made<List<(u64, Cap)>>
    ensures { IfOk result (λ sorted. sorted ≡ numbered_from [] slots.now) }
{
    let mut sorted = BTreeMap::new(alloc);
    for slot in slots {
        put_slot(slot.key, slot.cap, &mut sorted)?;
    }
    let items: Vec<(u64, Cap)> = sorted.into_iter().collect(alloc)?;
    Ok(List::from_vec(items))
}

/// The numbered slots, sorted by number.
fn numbered(alloc: Global, slots: &[Slot]) -> Made<List<(u64, Cap)>>
    ensures { IfOk result (λ sorted. sorted ≡ numbered_from [] slots.now) }
{
    match rising(alloc, slots)? {
        Some(slots) => Ok(slots),
        None => sorted(alloc, slots),
    }
}

/// Puts a field into a thread.
fn put_field(alloc: Global, value: &ThreadValue, tcb: &mut Tcb) -> Made<()>
    ensures { OnOk result (tcb.new ≡ put_field value.now tcb.old) }
{
    match value {
        ThreadValue::Addr(n) => tcb.addr = n.value,
        ThreadValue::Ip(n) => tcb.ip = n.value,
        ThreadValue::Sp(n) => tcb.sp = n.value,
        ThreadValue::Prio(n) => tcb.prio = n.value,
        ThreadValue::Elf(text) => tcb.elf = Some(Text::new(alloc, text.as_bytes())?),
    }
    Ok(())
}

/// Puts each field into a thread.
fn put_fields(alloc: Global, fields: &[ThreadField], tcb: &mut Tcb) -> Made<()>
    ensures { OnOk result (tcb.new ≡ fields_from tcb.old fields.now) }
{
    for field in fields {
        put_field(alloc, &field.value, tcb)?;
    }
    Ok(())
}

/// Puts a capability into a thread's named slot.
fn put_named(key: SlotKey, cap: Cap, tcb: &mut Tcb)
    ensures { tcb.new ≡ put_named key cap tcb.old }
{
    match key {
        SlotKey::Number(_) => {}
        SlotKey::Cspace => tcb.cspace = Some(cap.object),
        SlotKey::Vspace => tcb.vspace = Some(cap.object),
        SlotKey::Buffer => tcb.buffer = Some(cap),
    }
}

/// Puts each capability into a thread's named slot.
fn put_all_named(slots: &[Slot], tcb: &mut Tcb)
    ensures { tcb.new ≡ all_named tcb.old slots.now }
{
    for slot in slots {
        put_named(slot.key, slot.cap, tcb);
    }
}

fn thread_of(alloc: Global, fields: &[ThreadField], slots: &[Slot]) -> Made<Tcb>
    ensures { IfOk result (λ tcb. tcb ≡ all_named (fields_from no_tcb fields.now) slots.now) }
{
    let mut tcb = Tcb {
        addr: 0,
        ip: 0,
        sp: 0,
        prio: 0,
        elf: None,
        cspace: None,
        vspace: None,
        buffer: None,
    };
    put_fields(alloc, fields, &mut tcb)?;
    put_all_named(slots, &mut tcb);
    Ok(tcb)
}

fn paddr_said(fields: &[FrameField]) -> Option<u64>
    ensures { result ≡ paddr_said fields.now }
{
    for field in fields {
        if let FrameValue::Paddr(number) = &field.value {
            return Some(number.value);
        }
    }
    None
}

fn maybe_fill(alloc: Global, fill: Option<&FillLine>) -> Made<Option<Boxed<Fill>>>
    ensures { IfOk result (λ made. made ≡ option_map fill_of (option_copied fill.entry)) }
{
    let Some(fill) = fill else {
        return Ok(None);
    };
    let made = Fill {
        offset: fill.offset.value,
        length: fill.length.value,
        file: Text::new(alloc, fill.file.as_bytes())?,
        at: fill.at.value,
    };
    Ok(Some(Boxed::new(alloc, made)?))
}

fn fill_said(alloc: Global, fields: &[FrameField]) -> Made<Option<Boxed<Fill>>>
    ensures { IfOk result (λ made. made ≡ fill_said fields.now) }
{
    for field in fields {
        if let FrameValue::Fill(fill) = &field.value {
            return maybe_fill(alloc, fill.as_ref());
        }
    }
    Ok(None)
}

/// What the first numbered slot holds.
fn first_numbered(slots: &[Slot]) -> Option<u32>
    ensures { result ≡ first_numbered slots.now }
{
    for slot in slots {
        if let SlotKey::Number(_) = slot.key {
            return Some(slot.cap.object);
        }
    }
    None
}

fn object_of(alloc: Global, kind: &KindLine, slots: &[Slot]) -> Made<Object>
    requires { AreBitsFew kind.now }
    ensures { IfOk result (λ object. object ≡ object_of kind.now slots.now) }
{
    match kind {
        KindLine::Endpoint => Ok(Object::Endpoint),
        KindLine::Notification => Ok(Object::Notification),
        KindLine::CNode(bits) => {
            let slots = numbered(alloc, slots)?;
            Ok(Object::CNode {
                bits: bits.value as u8,
                slots,
            })
        }
        KindLine::Thread(fields) => {
            let thread = thread_of(alloc, fields.as_slice(), slots)?;
            Ok(Object::Thread(Boxed::new(alloc, thread)?))
        }
        KindLine::Frame(fields) => {
            let fill = fill_said(alloc, fields.as_slice())?;
            Ok(Object::Frame {
                paddr: paddr_said(fields.as_slice()),
                fill,
            })
        }
        KindLine::Pages(level, _) => {
            let slots = numbered(alloc, slots)?;
            Ok(Object::Pages {
                level: *level,
                slots,
            })
        }
        KindLine::Irq => Ok(Object::Irq {
            notification: first_numbered(slots),
        }),
    }
}

/// What the table has for a name, nothing where it has none.
fn slots_told<'h, 'x>(table: &'h SpreadNames<'x, List<Slot>>, object: &ObjectLine<'x>) -> &'h [Slot]
    ensures { result.now ≡ slots_told (spread_found table.now object.now.id.name) }
{
    match table.get(object.id.name.as_bytes()) {
        None => &[],
        Some(slots) => slots.as_slice(),
    }
}

/// The entry of an object, with the slots that its name has.
fn entry_of<'x>(
    alloc: Global,
    table: &SpreadNames<'x, List<Slot>>,
    object: &ObjectLine<'x>,
) -> Made<Entry>
    requires { AreBitsFew object.now.kind }
    ensures { IfOk result (λ entry. entry ≡ entry_of (λ n. slots_told (spread_found table.now n)) object.now) }
{
    Ok(Entry {
        name: Name::of_identifier(alloc, object.id.name.as_bytes())?,
        object: object_of(alloc, &object.kind, slots_told(table, object))?,
    })
}

/// The entries of objects without faults, with the slots that their names have.
pub(crate) fn entries_of<'x>(
    alloc: Global,
    table: &SpreadNames<'x, List<Slot>>,
    objects: &[ObjectLine<'x>],
) -> Made<List<Entry>>
    requires { (i : ℕ) (o : ObjectTree) → slice_get objects.now i ≡ Present o → AreBitsFew o.kind }
    ensures { IfOk result (λ entries. entries ≡ map (entry_of (λ n. slots_told (spread_found table.now n))) objects.now) }
{
    let mut entries = List::from_vec(Vec::with_capacity(alloc, objects.len())?);
    for object in objects {
        entries.push(entry_of(alloc, table, object)?)?;
    }
    Ok(entries)
}
