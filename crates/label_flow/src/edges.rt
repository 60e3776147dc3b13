//! The edges of a table as a list, as they are or turned, and the labels that they join.

ghost use Rattle.label_flow.specs.Edges.{AreBelow, turned};
ghost use Rattle.std.specs.Prelude.{◌≡◌, ◌<◌, ◌≤◌, map, IfOk};

use cam_base::Made;
use cap_model::{Edge, EdgeTable};
use std::alloc::Global;

/// The edges of a table, in order.
pub fn listed(alloc: Global, table: &EdgeTable) -> Made<Vec<Edge>>
    ensures { IfOk result (λ edges. edges.items ≡ table.now) }
{
    let mut edges = Vec::new(alloc);
    for edge in table.iter() {
        edges.push(edge)?;
    }
    Ok(edges)
}

/// The edges of a table, each from the label that it goes to.
pub fn all_turned(alloc: Global, table: &EdgeTable) -> Made<Vec<Edge>>
    ensures { IfOk result (λ edges. edges.items ≡ map turned table.now) }
{
    let mut edges = Vec::new(alloc);
    for edge in table.iter() {
        edges.push(Edge {
            from: edge.to,
            authority: edge.authority,
            to: edge.from,
        })?;
    }
    Ok(edges)
}

fn greater(count: usize, label: u32) -> usize
    ensures more { label < result }
    ensures kept { count ≤ result }
{
    let past = label as usize + 1;
    if count < past { past } else { count }
}

/// A number past the labels of all edges, and past another one.
pub fn count_of(edges: &[Edge], least: u32) -> usize
    ensures edges { AreBelow result edges.now }
    ensures least { least < result }
{
    let mut count = least as usize + 1;
    for edge in edges {
        count = greater(greater(count, edge.from), edge.to);
    }
    count
}
