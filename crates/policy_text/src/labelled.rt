//! The labels of a spec's objects.

ghost use Rattle.policy_text.specs.Labelled.{first_unlabelled, object_label, unlabelled, IsLabelOf, IsLabelling};
ghost use Rattle.policy_text.specs.PolicyTexts.{IsFault};
ghost use Rattle.name_tables.specs.Naming.{spread_found};
ghost use Rattle.std.specs.Prelude.{◌≡◌, List as Items, ℕ, Some, length, map, IfErr, IfOk};

use crate::head::Read;
use cam_base::{List, Made, Name, NoMemory, Refused, Text, TextCode, TextFault};
use cap_model::{Entry, Labels, Policy, Spec};
use name_tables::SpreadNames;
use std::alloc::Global;

/// The labels of objects, by name.
type Table<'a> = SpreadNames<'a, u32>;

/// The labels that object lines give, by name. The first line of an object counts.
fn labels_of(alloc: Global, objects: &[(Name, u32)]) -> Made<Table<'_>>
    ensures { IfOk result (λ table. (name : Items ℕ) → spread_found table name ≡ object_label objects.now name) }
{
    let mut table = SpreadNames::with_room(alloc, objects.len())?;
    for object in objects {
        table.add(object.0.as_bytes(), object.1)?;
    }
    Ok(table)
}

/// The label of an object of a spec, or the fault that it has none.
fn label_of<'a>(alloc: Global, table: &Table<'a>, entry: &'a Entry) -> Read<u32>
    ensures { IsLabelOf (spread_found table.now entry.now.name) entry.now result }
{
    match table.get(entry.name.as_bytes()) {
        Some(label) => Ok(*label),
        None => Err(refuse(alloc, entry)),
    }
}

/// The fault of an object without a label, unless memory runs out.
fn refuse(alloc: Global, entry: &Entry) -> Refused<TextFault>
    ensures { IsFault (Some (unlabelled entry.now)) result }
{
    match Text::new(alloc, entry.name.as_bytes()) {
        Ok(name) => Refused::Fault(TextFault {
            code: TextCode::Unlabelled,
            first: 0,
            end: 0,
            name,
        }),
        Err(NoMemory) => Refused::NoMemory,
    }
}

/// The labels of these objects, or the fault of the first that has none.
fn label_all<'a>(alloc: Global, table: &Table<'a>, entries: &'a [Entry]) -> Read<List<u32>>
    ensures labels { IfOk result (λ labels. map (λ n. Some n) labels ≡ map (λ e. spread_found table.now e.name) entries.now) }
    ensures fault { IfErr result (IsFault (first_unlabelled (spread_found table.now) entries.now)) }
{
    let mut labels = List::from_vec(Vec::with_capacity(alloc, entries.len())?);
    for entry in entries {
        let label = label_of(alloc, table, entry)?;
        labels.push(label)?;
    }
    Ok(labels)
}

/// The label of each object of the spec, or the fault Q6 of the first object without one: `specs/Labelled.antt`.
pub fn label_objects<'a>(alloc: Global, spec: &'a Spec, policy: &'a Policy) -> Read<Labels>
    ensures labels { IsLabelling spec.now policy.now result }
    ensures each { IfOk result (λ labels. length labels.by_object ≡ length spec.now.entries) }
{
    let table = labels_of(alloc, policy.objects.as_slice())?;
    let by_object = label_all(alloc, &table, spec.entries.as_slice())?;
    Ok(Labels { by_object })
}
