//! Edges collected into a list, source by source. Each call gives the list back with the edges of its source.

ghost use Rattle.cap_machine.specs.Sources.{OfCap, OfLink, OfOption, OfSlots};
ghost use Rattle.cap_model.specs.Adds.{Adds};
ghost use Rattle.authorities.specs.declared.authority.Authority.{Authority};
ghost use Rattle.std.specs.List.{All};
ghost use Rattle.std.specs.Prelude.{◌<◌, length, IfOk};

use cam_base::Made;
use cap_model::{Authority, Cap, Edge, Kind, Labels, Spec, conferred, with_edge, with_set};

/// The edges and one more, with this authority, from the label to that of the object.
pub fn with_link(
    edges: Vec<Edge>,
    labels: &Labels,
    from: u32,
    authority: Authority,
    object: u32,
) -> Made<Vec<Edge>>
    ensures { IfOk result (λ new. Adds (OfLink labels.now.by_object from authority object) edges.items new.items) }
{
    with_edge(
        edges,
        Edge {
            from,
            authority,
            to: labels.of(object),
        },
    )
}

/// The edges and one more where there is an object.
pub fn with_optional_link(
    edges: Vec<Edge>,
    labels: &Labels,
    from: u32,
    authority: Authority,
    object: Option<u32>,
) -> Made<Vec<Edge>>
    ensures { IfOk result (λ new. Adds (OfOption (OfLink labels.now.by_object from authority) object) edges.items new.items) }
{
    match object {
        Some(object) => with_link(edges, labels, from, authority, object),
        None => Ok(edges),
    }
}

/// The edges and what a capability confers, from the label to that of its object.
pub fn with_cap(
    edges: Vec<Edge>,
    spec: &Spec,
    labels: &Labels,
    from: u32,
    cap: &Cap,
) -> Made<Vec<Edge>>
    ensures { IfOk result (λ new. Adds (OfCap spec.now labels.now.by_object from cap.now) edges.items new.items) }
{
    if cap.object as usize >= spec.entries.len() {
        return Ok(edges);
    }
    let to = labels.of(cap.object);
    with_set(edges, from, conferred(spec, cap), to)
}

/// The edges and what a capability confers, where there is one.
pub fn with_optional_cap(
    edges: Vec<Edge>,
    spec: &Spec,
    labels: &Labels,
    from: u32,
    cap: &Option<Cap>,
) -> Made<Vec<Edge>>
    ensures { IfOk result (λ new. Adds (OfOption (OfCap spec.now labels.now.by_object from) cap.now) edges.items new.items) }
{
    match cap {
        Some(cap) => with_cap(edges, spec, labels, from, cap),
        None => Ok(edges),
    }
}

/// The edges and what the capabilities of slots confer.
pub fn with_each_slot(
    edges: Vec<Edge>,
    spec: &Spec,
    labels: &Labels,
    from: u32,
    slots: &[(u64, Cap)],
) -> Made<Vec<Edge>>
    ensures { IfOk result (λ new. Adds (OfSlots spec.now labels.now.by_object from slots.now) edges.items new.items) }
{
    let mut edges = edges;
    for slot in slots {
        edges = with_cap(edges, spec, labels, from, &slot.1)?;
    }
    Ok(edges)
}
