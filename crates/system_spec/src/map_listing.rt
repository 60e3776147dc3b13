//! The lines of the map.

ghost use Rattle.cam_base.specs.Gather.{gather};
ghost use Rattle.std.specs.Prelude.{◌≡◌, ◌+◌, ◌<◌, ◌^◌, ◌++◌, ◌∷◌, [], length, IfOk, OnOk};
ghost use Rattle.system_spec.specs.Buildable.{IsBuildable, AreFew, AreSized, IsWindowed};
ghost use Rattle.system_spec.specs.Landmarks.{IsPlan, ArePlaces};
ghost use Rattle.system_spec.specs.MapLines.{domain_lines, domain_slots, map_lines, slot_line, slot_lines, thread_lines, thread_lines_from, window_line, window_lines};
ghost use Rattle.system_spec.specs.Parts.{first_of, lock, place};
ghost use Rattle.system_spec.specs.Tables.{uses_at, told};
ghost use Rattle.system_spec.specs.declared.part.What.TheVariants.{LockOf};

use crate::MapLine;
use crate::caps::{lock_number, use_object};
use crate::landmarks::Plan;
use crate::places::Places;
use crate::tables::{Tables, threads_at, uses_at, windows_at};
use cam_base::{List, Made};
use cspace_layout::SlotUse;
use std::alloc::Global;
use vspace_layout::{ThreadPlace, Window};

/// Puts the lines of domains behind the others.
fn push_domains(tables: &Tables<'_>, lines: &mut List<MapLine>) -> Made<()>
    requires { AreFew (told tables.now) }
    ensures { OnOk result (lines.new ≡ lines.old ++ domain_lines (told tables.now)) }
{
    for number in 0..tables.flat.domains.len() as u32 {
        lines.push(MapLine::DomainLine(number))?;
    }
    Ok(())
}

/// Puts the lines of threads behind the others, where the first of these threads stands at this place.
fn push_threads_from(first: u32, threads: &[ThreadPlace], lines: &mut List<MapLine>) -> Made<()>
    requires { first + length threads.now < 2 ^ 32 }
    ensures { OnOk result (lines.new ≡ lines.old ++ thread_lines_from first threads.now) }
{
    for (number, thread) in threads.iter().enumerate() {
        lines.push(MapLine::ThreadLine {
            tcb: first + number as u32,
            leaf: thread.leaf,
            end: thread.end,
        })?;
    }
    Ok(())
}

/// Puts the lines of all threads behind the others, where the first thread stands at this place.
fn push_threads(tables: &Tables<'_>, first: u32, lines: &mut List<MapLine>) -> Made<()>
    requires few { AreFew (told tables.now) }
    requires first { first ≡ first_of (told tables.now) 1 }
    ensures { OnOk result (lines.new ≡ lines.old ++ thread_lines (told tables.now)) }
{
    let mut next = first;
    for number in 0..tables.flat.domains.len() as u32 {
        let threads = threads_at(tables, number);
        push_threads_from(next, threads, lines)?;
        next += threads.len() as u32;
    }
    Ok(())
}

/// The line of a slot.
fn slot_line(object: u32, number: u32, used: SlotUse) -> MapLine
    ensures { result ≡ slot_line object number used }
{
    let slot = number as u64 + 1;
    match used {
        SlotUse::OfEnd(connection, end) | SlotUse::Handler(connection, end) => MapLine::SlotLine {
            connection,
            end,
            slot,
            object,
        },
        SlotUse::OwnLock(leaf, member) => MapLine::OwnLine {
            leaf,
            member,
            slot,
            object,
        },
    }
}

/// Puts the lines of the slots of a domain with these uses, whose first lock stands at this place, behind the others.
/// Answers where the lock behind its locks stands.
fn push_slots_of(
    tables: &Tables<'_>,
    places: &Places,
    domain: u32,
    first_lock: u32,
    uses: &[SlotUse],
    lines: &mut List<MapLine>,
) -> Made<u32>
    requires buildable { IsBuildable (told tables.now) }
    requires places { ArePlaces (told tables.now) places.now }
    requires uses { uses.now ≡ uses_at (told tables.now) domain }
    requires first { first_lock ≡ place (told tables.now) (LockOf domain 0) }
    requires few { first_lock + length (gather (lock domain) uses.now) < 2 ^ 32 }
    ensures lines { OnOk result (lines.new ≡ lines.old ++ domain_slots (told tables.now) domain) }
    ensures next { IfOk result (λ next. next ≡ first_lock + length (gather (lock domain) uses.now)) }
{
    let mut next = first_lock;
    for (number, used) in uses.iter().enumerate() {
        let object = use_object(tables, places, next, *used);
        lines.push(slot_line(object, number as u32, *used))?;
        next += lock_number(*used);
    }
    Ok(next)
}

/// Puts the lines of all slots behind the others, where the first lock stands at this place.
fn push_slots(
    tables: &Tables<'_>,
    places: &Places,
    first_lock: u32,
    lines: &mut List<MapLine>,
) -> Made<()>
    requires buildable { IsBuildable (told tables.now) }
    requires places { ArePlaces (told tables.now) places.now }
    requires first { first_lock ≡ first_of (told tables.now) 4 }
    ensures { OnOk result (lines.new ≡ lines.old ++ slot_lines (told tables.now)) }
{
    let mut next = first_lock;
    for number in 0..tables.flat.domains.len() as u32 {
        let uses = uses_at(tables, number);
        next = push_slots_of(tables, places, number, next, uses, lines)?;
    }
    Ok(())
}

/// Puts the lines of windows behind the others.
fn push_windows_of(windows: &[Window], lines: &mut List<MapLine>) -> Made<()>
    requires { AreSized windows.now }
    ensures { OnOk result (lines.new ≡ lines.old ++ gather (λ j w. window_line w ∷ []) windows.now) }
{
    for window in windows {
        let bytes = 4096 * window.pages;
        lines.push(MapLine::WindowLine {
            connection: window.end.connection,
            end: window.end.end,
            vaddr: window.vaddr,
            bytes,
        })?;
    }
    Ok(())
}

/// Puts the lines of all windows behind the others.
fn push_windows(tables: &Tables<'_>, lines: &mut List<MapLine>) -> Made<()>
    requires few { AreFew (told tables.now) }
    requires windows { IsWindowed (told tables.now) }
    ensures { OnOk result (lines.new ≡ lines.old ++ window_lines (told tables.now)) }
{
    for number in 0..tables.flat.domains.len() as u32 {
        push_windows_of(windows_at(tables, number), lines)?;
    }
    Ok(())
}

/// The lines of the map of a system with this plan.
pub fn lines_of(alloc: Global, tables: &Tables<'_>, plan: &Plan) -> Made<List<MapLine>>
    requires buildable { IsBuildable (told tables.now) }
    requires windows { IsWindowed (told tables.now) }
    requires plan { IsPlan (told tables.now) plan.now }
    ensures { IfOk result (λ lines. lines ≡ map_lines (told tables.now)) }
{
    let marks = &plan.marks;
    let mut lines = List::new(alloc);
    push_domains(tables, &mut lines)?;
    push_threads(tables, marks.first_thread, &mut lines)?;
    push_slots(tables, &marks.connections, marks.first_lock, &mut lines)?;
    push_windows(tables, &mut lines)?;
    Ok(lines)
}
