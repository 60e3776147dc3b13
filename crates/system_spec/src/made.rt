//! The spec of a system, the labels of its objects, and its map.

ghost use Rattle.std.specs.Prelude.{◌≡◌, ◌++◌, ◌∷◌, [], map, IfOk, OnOk};
ghost use Rattle.system_spec.specs.Buildable.{IsBuildable, IsWindowed};
ghost use Rattle.system_spec.specs.Landmarks.{AreLandmarks, AreThere, IsPlan, IsThere};
ghost use Rattle.system_spec.specs.Made.{entry, entry_with, labels_of, part_label, spec_of};
ghost use Rattle.system_spec.specs.MapLines.{map_lines};
ghost use Rattle.system_spec.specs.Objects.{object};
ghost use Rattle.system_spec.specs.Parts.{frame_parts, numbered};
ghost use Rattle.system_spec.specs.Tables.{told};
ghost use Rattle.system_spec.specs.declared.series.Series.TheVariants.{Frame};

use crate::irq_lines::irq_lines;
use crate::landmarks::{Landmarks, Plan, plan_of};
use crate::listing::frame_part;
use crate::map_listing::lines_of;
use crate::object::object;
use crate::{MapLine, Part, Tables};
use cam_base::{List, Made};
use cap_model::{Entry, Labels, Object, Spec};
use std::alloc::Global;

/// The spec of a system and the labels of its objects.
#[derive(Drop)]
pub struct System {
    pub spec: Spec,
    pub labels: Labels,
}

/// Puts an object under the name of its part behind the others, and its label.
fn push_entry(
    alloc: Global,
    tables: &Tables<'_>,
    part: Part,
    object: Object,
    entries: &mut List<Entry>,
    labels: &mut List<u32>,
) -> Made<()>
    ensures entries { OnOk result (entries.new ≡ entries.old ++ entry_with part object ∷ []) }
    ensures labels { OnOk result (labels.new ≡ labels.old ++ part_label (told tables.now) part ∷ []) }
{
    entries.push(Entry {
        name: part.series.name(alloc, part.number as u64)?,
        object,
    })?;
    labels.push(tables.numbers.of(part.owner))
}

/// Puts the object of a part under its name behind the others, and its label.
fn push_object(
    alloc: Global,
    tables: &Tables<'_>,
    marks: &Landmarks,
    part: Part,
    entries: &mut List<Entry>,
    labels: &mut List<u32>,
) -> Made<()>
    requires buildable { IsBuildable (told tables.now) }
    requires marks { AreLandmarks (told tables.now) marks.now }
    requires there { IsThere (told tables.now) part.what }
    ensures entries { OnOk result (entries.new ≡ entries.old ++ entry (told tables.now) part ∷ []) }
    ensures labels { OnOk result (labels.new ≡ labels.old ++ part_label (told tables.now) part ∷ []) }
{
    let object = object(alloc, tables, marks, part.what)?;
    push_entry(alloc, tables, part, object, entries, labels)
}

/// Puts the objects of parts under their names behind the others, and their labels.
fn push_objects(
    alloc: Global,
    tables: &Tables<'_>,
    marks: &Landmarks,
    parts: &[Part],
    entries: &mut List<Entry>,
    labels: &mut List<u32>,
) -> Made<()>
    requires buildable { IsBuildable (told tables.now) }
    requires marks { AreLandmarks (told tables.now) marks.now }
    requires there { AreThere (told tables.now) parts.now }
    ensures entries { OnOk result (entries.new ≡ entries.old ++ map (entry (told tables.now)) parts.now) }
    ensures labels { OnOk result (labels.new ≡ labels.old ++ map (part_label (told tables.now)) parts.now) }
{
    for part in parts {
        push_object(alloc, tables, marks, *part, entries, labels)?;
    }
    Ok(())
}

/// Puts page tables, whose parts these are, under their names behind the others, and their labels.
fn push_tables(
    alloc: Global,
    tables: &Tables<'_>,
    parts: &[Part],
    objects: List<Object>,
    entries: &mut List<Entry>,
    labels: &mut List<u32>,
) -> Made<()>
    requires { objects ≡ map (λ p. object (told tables.now) p.what) parts.now }
    ensures entries { OnOk result (entries.new ≡ entries.old ++ map (entry (told tables.now)) parts.now) }
    ensures labels { OnOk result (labels.new ≡ labels.old ++ map (part_label (told tables.now)) parts.now) }
{
    let mut place: usize = 0;
    for object in objects.into_vec() {
        let part = parts[place];
        push_entry(alloc, tables, part, object, entries, labels)?;
        place += 1;
    }
    Ok(())
}

/// Puts the frames under their names behind the others, and their labels.
fn push_frames(
    alloc: Global,
    tables: &Tables<'_>,
    marks: &Landmarks,
    entries: &mut List<Entry>,
    labels: &mut List<u32>,
) -> Made<()>
    requires buildable { IsBuildable (told tables.now) }
    requires marks { AreLandmarks (told tables.now) marks.now }
    ensures entries { OnOk result (entries.new
        ≡ entries.old ++ map (entry (told tables.now)) (numbered Frame (frame_parts tables.now.spaces.now.frames))) }
    ensures labels { OnOk result (labels.new
        ≡ labels.old ++ map (part_label (told tables.now)) (numbered Frame (frame_parts tables.now.spaces.now.frames))) }
{
    for (number, frame) in tables.spaces.frames.as_slice().iter().enumerate() {
        let part = frame_part(number as u32, frame);
        push_object(alloc, tables, marks, part, entries, labels)?;
    }
    Ok(())
}

/// The spec of a system with this plan, and the labels of its objects.
fn system_of(alloc: Global, tables: &Tables<'_>, plan: Plan) -> Made<System>
    requires buildable { IsBuildable (told tables.now) }
    requires plan { IsPlan (told tables.now) plan }
    ensures spec { IfOk result (λ system. system.spec ≡ spec_of (told tables.now)) }
    ensures labels { IfOk result (λ system. system.labels ≡ labels_of (told tables.now)) }
{
    let Plan {
        sections,
        marks,
        tables: objects,
    } = plan;
    let sections = sections.as_slice();
    let count = marks.first_frame as usize + tables.spaces.frames.len();
    let mut entries = List::from_vec(Vec::with_capacity(alloc, count)?);
    let mut by_object = List::from_vec(Vec::with_capacity(alloc, count)?);
    let others = &sections[..6];
    for section in others {
        let parts = section.as_slice();
        push_objects(alloc, tables, &marks, parts, &mut entries, &mut by_object)?;
    }
    let parts = sections[6].as_slice();
    push_tables(alloc, tables, parts, objects, &mut entries, &mut by_object)?;
    push_frames(alloc, tables, &marks, &mut entries, &mut by_object)?;
    let irqs = irq_lines(alloc, tables, marks.first_irq)?;
    Ok(System {
        spec: Spec {
            arch: tables.images.arch(),
            entries,
            irqs,
        },
        labels: Labels { by_object },
    })
}

/// The spec of a system with its address spaces, and the labels of its objects: `specs/Made.antt`. Takes time linear in what
/// the tables list, but for the buffer of each thread and the interrupts, which take a logarithm more.
///
/// # Errors
///
/// Want of memory.
pub fn build(alloc: Global, tables: &Tables<'_>) -> Made<System>
    requires { IsBuildable (told tables.now) }
    ensures spec { IfOk result (λ system. system.spec ≡ spec_of (told tables.now)) }
    ensures labels { IfOk result (λ system. system.labels ≡ labels_of (told tables.now)) }
{
    let plan = plan_of(alloc, tables)?;
    system_of(alloc, tables, plan)
}

/// The lines of the map: `specs/MapLines.antt`. Takes time linear in what the tables list.
///
/// # Errors
///
/// Want of memory.
pub fn map_lines(alloc: Global, tables: &Tables<'_>) -> Made<List<MapLine>>
    requires buildable { IsBuildable (told tables.now) }
    requires windows { IsWindowed (told tables.now) }
    ensures { IfOk result (λ lines. lines ≡ map_lines (told tables.now)) }
{
    let plan = plan_of(alloc, tables)?;
    lines_of(alloc, tables, &plan)
}

/// What `build` and `map_lines` answer, both of one plan.
///
/// # Errors
///
/// Want of memory.
pub fn build_with_map(alloc: Global, tables: &Tables<'_>) -> Made<(System, List<MapLine>)>
    requires buildable { IsBuildable (told tables.now) }
    requires windows { IsWindowed (told tables.now) }
    ensures spec { IfOk result (λ made. made.0.spec ≡ spec_of (told tables.now)) }
    ensures labels { IfOk result (λ made. made.0.labels ≡ labels_of (told tables.now)) }
    ensures lines { IfOk result (λ made. made.1 ≡ map_lines (told tables.now)) }
{
    let plan = plan_of(alloc, tables)?;
    let lines = lines_of(alloc, tables, &plan)?;
    Ok((system_of(alloc, tables, plan)?, lines))
}
