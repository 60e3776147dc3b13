//! Instances whose type is the component that they stand in, or holds it.

ghost use Rattle.adl_meaning.specs.Prelude.{composition_of, graph_of, instances_of, list_all, noted, recursive_types};
ghost use Rattle.adl_names.specs.Words.{found, pointed, trees};
ghost use Rattle.std.specs.Prelude.{IfOk, OnOk, is_none, ◌≡◌};

use adl_ast::{Component, Instance, Member};
use adl_hierarchy::Cycles;
use adl_items::{Located, SourceItems, component_numbers, composition_of, instances_by};
use adl_meaning::Earliest;
use cam_base::{Code, List, Made};
use name_tables::NameTable;
use std::alloc::Global;

/// The instances of a component, in each of its compositions.
fn instances<'a>(alloc: Global, component: &'a Component) -> Made<Vec<&'a Instance>>
    ensures { IfOk result (λ v. pointed v.items ≡ instances_of component.now) }
{
    let mut found = Vec::new(alloc);
    for member in component.members.as_slice() {
        if let Member::Composition(composition) = member {
            for line in composition.lines.as_slice() {
                for instance in instances_by(line) {
                    found.push(instance)?;
                }
            }
        }
    }
    Ok(found)
}

/// Whether no component has a composition.
fn are_leaves(components: &[Located<'_, Component>]) -> bool
    ensures { result ≡ list_all (λ x. is_none (composition_of x.item.now)) components.now }
{
    components.iter().all(|x| composition_of(x.item).is_none())
}

/// The components by number, with the types of their instances.
fn graph_of(
    alloc: Global,
    numbers: &NameTable<'_, u32>,
    components: &[Located<'_, Component>],
) -> Made<List<List<u32>>>
    ensures { IfOk result (λ g. g ≡ graph_of (found numbers.now) (trees components.now)) }
{
    let mut graph = List::new(alloc);
    for x in components {
        let instances = instances(alloc, x.item)?;
        let mut types = List::new(alloc);
        for instance in instances.as_slice() {
            if let Some(number) = numbers.get(&instance.component.name) {
                types.push(*number)?;
            }
        }
        graph.push(types)?;
    }
    Ok(graph)
}

/// Notes each instance whose type is the component that it stands in, or holds it. The components that hold each other
/// are found once, so that this takes time along the size of the source. Where all are leaves none is numbered.
pub fn note_recursive<'a>(
    alloc: Global,
    items: &SourceItems<'a>,
    first: &mut Earliest<'a>,
) -> Made<()>
    ensures { OnOk result (first.new ≡ noted first.old (recursive_types items.now)) }
{
    let components = items.components();
    if are_leaves(components) {
        return Ok(());
    }
    let numbers = &component_numbers(alloc, components)?;
    let graph = graph_of(alloc, numbers, components)?;
    let cycles = &Cycles::of(alloc, graph)?;
    for (i, x) in components.iter().enumerate() {
        let instances = instances(alloc, x.item)?;
        for instance in instances.as_slice() {
            let word = &instance.component;
            if let Some(inner) = numbers.get(&word.name) {
                let held = cycles.holds_back(alloc, i as u32, *inner)?;
                first.note(held, Code::Recursive, word.place(), word.name.as_bytes());
            }
        }
    }
    Ok(())
}
