//! Where the objects stand that others name.

ghost use Rattle.cam_base.specs.Gather.{gather};
ghost use Rattle.std.specs.Prelude.{◌≡◌, ◌<◌, ◌^◌, length, IfOk};
ghost use Rattle.system_spec.specs.Buildable.{IsBuildable};
ghost use Rattle.system_spec.specs.Landmarks.{AreLandmarks, IsPlan, all_spaces, first_locks, roots as roots_of};
ghost use Rattle.system_spec.specs.Parts.{but_frames, first_of, lock};
ghost use Rattle.system_spec.specs.Tables.{told};

use crate::Part;
use crate::caps::lock_number;
use crate::levels::push_tables_at;
use crate::listing::{first_of, sections};
use crate::places::{Places, places_of};
use crate::tables::{Tables, uses_at};
use cam_base::{List, Made};
use cap_model::Object;
use cspace_layout::SlotUse;
use std::alloc::Global;

/// The place of the root of each domain's space, and the page tables of all domains.
#[derive(Drop)]
pub struct SpaceTables {
    pub roots: List<u32>,
    pub objects: List<Object>,
}

/// The places of the objects of connections, of the first lock and the space root of each domain, and of the first thread, lock,
/// interrupt and frame of all.
#[derive(Drop)]
pub struct Landmarks {
    pub connections: Places,
    pub locks: List<u32>,
    pub roots: List<u32>,
    pub first_thread: u32,
    pub first_lock: u32,
    pub first_irq: u32,
    pub first_frame: u32,
}

/// The parts of a system by section, but for frames, where the objects stand that others name, and the page tables.
#[derive(Drop)]
pub struct Plan {
    pub sections: List<List<Part>>,
    pub marks: Landmarks,
    pub tables: List<Object>,
}

/// How many of these uses are locks.
fn lock_count(uses: &[SlotUse]) -> u32
    requires { length uses.now < 2 ^ 32 }
    ensures { result ≡ length (gather (lock 0) uses.now) }
{
    let mut count = 0;
    for used in uses {
        count += lock_number(*used);
    }
    count
}

/// The place of the first lock of each domain, where the first of all stands at this place.
fn first_locks(alloc: Global, tables: &Tables<'_>, first: u32) -> Made<List<u32>>
    requires buildable { IsBuildable (told tables.now) }
    requires first { first ≡ first_of (told tables.now) 4 }
    ensures { IfOk result (λ places. places ≡ first_locks (told tables.now)) }
{
    let mut places = List::new(alloc);
    let mut next = first;
    for number in 0..tables.flat.domains.len() as u32 {
        places.push(next)?;
        next += lock_count(uses_at(tables, number));
    }
    Ok(places)
}

/// The page tables of all domains, where the first of them and frame 0 stand at these places.
fn all_spaces(alloc: Global, tables: &Tables<'_>, first: u32, frames: u32) -> Made<SpaceTables>
    requires buildable { IsBuildable (told tables.now) }
    requires first { first ≡ first_of (told tables.now) 6 }
    requires frames { frames ≡ first_of (told tables.now) 7 }
    ensures roots { IfOk result (λ spaces. spaces.roots ≡ roots_of (told tables.now)) }
    ensures objects { IfOk result (λ spaces. spaces.objects ≡ all_spaces (told tables.now)) }
{
    let mut roots = List::from_vec(Vec::with_capacity(alloc, tables.flat.domains.len())?);
    let room = frames.saturating_sub(first) as usize;
    let mut objects = List::from_vec(Vec::with_capacity(alloc, room)?);
    for number in 0..tables.flat.domains.len() as u32 {
        let count = objects.len() as u32;
        let next = first + count;
        roots.push(next)?;
        push_tables_at(alloc, tables, next, frames, number, &mut objects)?;
    }
    Ok(SpaceTables { roots, objects })
}

/// Where the objects of a system with these sections stand, and its page tables.
fn landmarks_of(
    alloc: Global,
    tables: &Tables<'_>,
    sections: &[List<Part>],
) -> Made<(Landmarks, List<Object>)>
    requires buildable { IsBuildable (told tables.now) }
    requires sections { sections.now ≡ but_frames (told tables.now) }
    ensures marks { IfOk result (λ made. AreLandmarks (told tables.now) made.0) }
    ensures tables { IfOk result (λ made. made.1 ≡ all_spaces (told tables.now)) }
{
    let first_lock = first_of(sections, 4);
    let first_irq = first_of(sections, 5);
    let first_frame = first_of(sections, 7);
    let spaces = all_spaces(alloc, tables, first_of(sections, 6), first_frame)?;
    let endpoint = first_of(sections, 2);
    let notification = first_of(sections, 3);
    let marks = Landmarks {
        connections: places_of(alloc, tables, endpoint, notification, first_irq)?,
        locks: first_locks(alloc, tables, first_lock)?,
        roots: spaces.roots,
        first_thread: first_of(sections, 1),
        first_lock,
        first_irq,
        first_frame,
    };
    Ok((marks, spaces.objects))
}

/// The plan of a system, of which its spec, its labels and its map are made.
pub fn plan_of(alloc: Global, tables: &Tables<'_>) -> Made<Plan>
    requires { IsBuildable (told tables.now) }
    ensures { IfOk result (λ plan. IsPlan (told tables.now) plan) }
{
    let sections = sections(alloc, tables)?;
    let (marks, tables) = landmarks_of(alloc, tables, sections.as_slice())?;
    Ok(Plan {
        sections,
        marks,
        tables,
    })
}
