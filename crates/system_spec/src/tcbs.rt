//! The threads.

ghost use Rattle.conn_rules.specs.Row.{RW};
ghost use Rattle.cam_base.specs.Gather.{IsIn};
ghost use Rattle.page_tables.specs.Runs.{Rises};
ghost use Rattle.std.specs.Option.{option_map};
ghost use Rattle.std.specs.Prelude.{◌≡◌, ◌<◌, ◌+◌, ◌^◌, length, map, IfOk};
ghost use Rattle.system_spec.specs.Buildable.{IsBuildable};
ghost use Rattle.system_spec.specs.Landmarks.{AreLandmarks};
ghost use Rattle.system_spec.specs.Objects.{cap, frame_at, object, tcb};
ghost use Rattle.system_spec.specs.Tables.{told};
ghost use Rattle.system_spec.specs.declared.part.What.TheVariants.{ThreadOf};
ghost use Rattle.vspace_layout.specs.declared.spaces.Page.{Page};

use crate::caps::lock_rights;
use crate::landmarks::Landmarks;
use crate::tables::{Tables, leaf_entry, leaf_name, pages_at, priority, threads_at};
use arch_policy::number_at;
use cam_base::{Boxed, Made, Text};
use cap_model::{Cap, Object, Tcb};
use std::alloc::Global;
use vspace_layout::{Page, ThreadPlace};

/// The frame that is mapped at an address. Takes no memory, and time logarithmic in the pages.
fn frame_at(pages: &[Page], at: u64) -> Option<u32>
    requires { Rises (map (λ p. p.vaddr) pages.now) }
    ensures { result ≡ frame_at pages.now at }
{
    let place = pages.partition_point(|page| page.vaddr < at);
    let page = pages.get(place)?;
    if page.vaddr == at {
        Some(page.frame)
    } else {
        None
    }
}

/// The capability to the frame that is mapped at an address, where frame 0 stands at this place.
fn buffer_cap(pages: &[Page], frames: u32, at: u64) -> Option<Cap>
    requires rise { Rises (map (λ p. p.vaddr) pages.now) }
    requires shown { (p : Page) → IsIn p pages.now → frames + p.frame < 2 ^ 32 }
    ensures { result ≡ option_map (λ f. cap (frames + f) RW 0) (frame_at pages.now at) }
{
    let frame = frame_at(pages, at)?;
    Some(Cap {
        object: frames + frame,
        rights: lock_rights(),
        badge: 0,
    })
}

fn tcb(
    alloc: Global,
    tables: &Tables<'_>,
    marks: &Landmarks,
    domain: u32,
    thread: &ThreadPlace,
) -> Made<Tcb>
    requires buildable { IsBuildable (told tables.now) }
    requires marks { AreLandmarks (told tables.now) marks.now }
    requires there { domain < length tables.now.flat.now.domains }
    ensures { IfOk result (λ made. made ≡ tcb (told tables.now) domain thread.now) }
{
    Ok(Tcb {
        addr: thread.buffer,
        ip: leaf_entry(tables, thread.leaf),
        sp: thread.sp,
        prio: priority(tables, thread.leaf),
        elf: Some(Text::new(alloc, leaf_name(tables, thread.leaf))?),
        cspace: Some(domain),
        vspace: Some(number_at(marks.roots.as_slice(), domain)),
        buffer: buffer_cap(pages_at(tables, domain), marks.first_frame, thread.buffer),
    })
}

/// Thread `number` of a domain.
pub fn thread_object(
    alloc: Global,
    tables: &Tables<'_>,
    marks: &Landmarks,
    domain: u32,
    number: u32,
) -> Made<Object>
    requires buildable { IsBuildable (told tables.now) }
    requires marks { AreLandmarks (told tables.now) marks.now }
    requires there { domain < length tables.now.flat.now.domains }
    ensures { IfOk result (λ made. made ≡ object (told tables.now) (ThreadOf domain number)) }
{
    match threads_at(tables, domain).get(number as usize) {
        Some(thread) => {
            let tcb = tcb(alloc, tables, marks, domain, thread)?;
            Ok(Object::Thread(Boxed::new(alloc, tcb)?))
        }
        None => Ok(Object::Endpoint),
    }
}
