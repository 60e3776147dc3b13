//! The edges that the boot state asks for.

ghost use Rattle.cap_model.specs.Adds.{Adds};
ghost use Rattle.least_cert.specs.BootEdges.{OfHolder, OfHolders, OfOther, OfOthers, between_labels};
ghost use Rattle.std.specs.List.{filter_map};
ghost use Rattle.std.specs.Prelude.{◌≡◌, [], IfOk, length};

use cam_base::Made;
use cap_machine::{with_each_slot, with_object};
use cap_model::{Edge, Labels, Object, Spec};
use std::alloc::Global;

/// The edges of the boot state by what they come from: CNodes, and other objects.
#[derive(Drop)]
pub struct Sources {
    pub nodes: Vec<Edge>,
    pub others: Vec<Edge>,
}

/// The edges of the boot state, object by object; an edge may stand several times.
pub fn gathered(alloc: Global, spec: &Spec, labels: &Labels) -> Made<Sources>
    requires { length labels.now.by_object ≡ length spec.now.entries }
    ensures nodes { IfOk result (λ new. Adds (OfHolders spec.now labels.now.by_object) [] new.nodes.items) }
    ensures others { IfOk result (λ new. Adds (OfOthers spec.now labels.now.by_object) [] new.others.items) }
{
    let mut sources = Sources {
        nodes: Vec::new(alloc),
        others: Vec::new(alloc),
    };
    let entries = spec.entries.as_slice();
    let from = labels.by_object.as_slice();
    for place in 0..entries.len() {
        sources = with_source(sources, spec, labels, from[place], &entries[place].object)?;
    }
    Ok(sources)
}

fn with_source(
    sources: Sources,
    spec: &Spec,
    labels: &Labels,
    from: u32,
    object: &Object,
) -> Made<Sources>
    ensures nodes { IfOk result (λ new.
        Adds (OfHolder spec.now labels.now.by_object from object.now) sources.nodes.items new.nodes.items) }
    ensures others { IfOk result (λ new.
        Adds (OfOther spec.now labels.now.by_object from object.now) sources.others.items new.others.items) }
{
    let Sources { nodes, others } = sources;
    match object {
        Object::CNode { slots, .. } => Ok(Sources {
            nodes: with_each_slot(nodes, spec, labels, from, slots.as_slice())?,
            others,
        }),
        _ => Ok(Sources {
            nodes,
            others: with_object(others, spec, labels, from, object)?,
        }),
    }
}

/// The edge, where it lies between different labels.
fn between_labels(edge: Edge) -> Option<Edge>
    ensures { result ≡ between_labels edge }
{
    if edge.from == edge.to {
        return None;
    }
    Some(edge)
}

/// Those of the edges that lie between different labels.
pub fn links_of(alloc: Global, edges: &[Edge]) -> Made<Vec<Edge>>
    ensures { IfOk result (λ links. links.items ≡ filter_map between_labels edges.now) }
{
    let links = edges
        .iter()
        .filter_map(|edge| between_labels(*edge))
        .collect(alloc)?;
    Ok(links)
}
