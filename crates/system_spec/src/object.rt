//! The object of each part that is no page table.

ghost use Rattle.std.specs.Prelude.{◌≡◌, ◌<◌, length, IfOk};
ghost use Rattle.system_spec.specs.Buildable.{IsBuildable};
ghost use Rattle.system_spec.specs.Landmarks.{AreLandmarks, IsThere};
ghost use Rattle.system_spec.specs.Objects.{object};
ghost use Rattle.system_spec.specs.Tables.{told};
ghost use Rattle.system_spec.specs.declared.part.What.TheVariants.{CNodeOf, FrameOf};

use crate::What;
use crate::bits::bits_for;
use crate::caps::caps_of;
use crate::landmarks::Landmarks;
use crate::tables::{Tables, uses_at};
use crate::tcbs::thread_object;
use arch_policy::number_at;
use cam_base::{Boxed, Made};
use cap_model::{Fill, Object};
use std::alloc::Global;

fn cnode(alloc: Global, tables: &Tables<'_>, marks: &Landmarks, domain: u32) -> Made<Object>
    requires buildable { IsBuildable (told tables.now) }
    requires marks { AreLandmarks (told tables.now) marks.now }
    requires there { domain < length tables.now.flat.now.domains }
    ensures { IfOk result (λ made. made ≡ object (told tables.now) (CNodeOf domain)) }
{
    let uses = uses_at(tables, domain);
    let first_lock = number_at(marks.locks.as_slice(), domain);
    let slots = caps_of(alloc, tables, &marks.connections, domain, first_lock, uses)?;
    Ok(Object::CNode {
        bits: bits_for(uses.len()),
        slots,
    })
}

fn copied_fill(alloc: Global, fill: &Option<Boxed<Fill>>) -> Made<Option<Boxed<Fill>>>
    ensures { IfOk result (λ made. made ≡ fill.now) }
{
    let Some(fill) = fill else {
        return Ok(None);
    };
    let fill = fill.get();
    let copy = Fill {
        offset: fill.offset,
        length: fill.length,
        file: fill.file.copy(alloc)?,
        at: fill.at,
    };
    Ok(Some(Boxed::new(alloc, copy)?))
}

fn frame_at(alloc: Global, tables: &Tables<'_>, number: u32) -> Made<Object>
    ensures { IfOk result (λ made. made ≡ object (told tables.now) (FrameOf number)) }
{
    match tables.spaces.frames.as_slice().get(number as usize) {
        Some(frame) => Ok(Object::Frame {
            paddr: frame.paddr,
            fill: copied_fill(alloc, &frame.fill)?,
        }),
        None => Ok(Object::Endpoint),
    }
}

/// The object of a part that is no page table: `specs/Objects.antt`.
pub fn object(alloc: Global, tables: &Tables<'_>, marks: &Landmarks, what: What) -> Made<Object>
    requires buildable { IsBuildable (told tables.now) }
    requires marks { AreLandmarks (told tables.now) marks.now }
    requires there { IsThere (told tables.now) what }
    ensures { IfOk result (λ made. made ≡ object (told tables.now) what) }
{
    match what {
        What::CNodeOf(domain) => cnode(alloc, tables, marks, domain),
        What::ThreadOf(domain, number) => thread_object(alloc, tables, marks, domain, number),
        What::EndpointOf(_) => Ok(Object::Endpoint),
        What::NotificationOf(_) | What::LockOf(_, _) => Ok(Object::Notification),
        What::IrqOf(connection) => Ok(Object::Irq {
            notification: Some(number_at(marks.connections.notifications.as_slice(), connection)),
        }),
        What::TableOf(_, _) => unreachable!(),
        What::FrameOf(number) => frame_at(alloc, tables, number),
    }
}
