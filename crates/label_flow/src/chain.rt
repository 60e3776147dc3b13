//! Shortest chains of edges.

ghost use Rattle.label_flow.specs.Chain.{Chain, IsFlow};
ghost use Rattle.label_flow.specs.Edges.{AreBelow};
ghost use Rattle.label_flow.specs.Search.{IsSearch};
ghost use Rattle.std.specs.List.{Contains};
ghost use Rattle.std.specs.Prelude.{◌≡◌, ◌<◌, length, IfOk};

use crate::edges::{count_of, listed};
use crate::exits::all_exits;
use crate::search::{Found, Search, find_all};
use cam_base::{List, Made};
use cap_model::{Edge, EdgeTable};
use std::alloc::Global;

/// The chain by which a label was found.
fn chain_to(alloc: Global, edges: &[Edge], search: &Search, last: Found) -> Made<List<Edge>>
    requires search { IsSearch edges.now search.now.from search.now.found.items search.now.places.items
        (length search.now.found.items) }
    requires found { Contains search.now.found.items last }
    ensures leads { IfOk result (λ chain. Chain edges.now search.now.from chain last.label) }
    ensures long { IfOk result (λ chain. length chain ≡ last.depth) }
{
    let mut back = Vec::new(alloc);
    let mut head = last;
    while head.depth > 0 {
        back.push(edges[head.by])?;
        head = search.found[head.previous];
    }
    back.reverse();
    Ok(List::from_vec(back))
}

/// The same of edges whose labels are below a count.
fn flow_by(
    alloc: Global,
    edges: &[Edge],
    count: usize,
    from: u32,
    to: u32,
) -> Made<Option<List<Edge>>>
    requires edges { AreBelow count edges.now }
    requires from { from < count }
    requires to { to < count }
    ensures { IfOk result (λ found. IsFlow edges.now from to found) }
{
    let exits = all_exits(alloc, edges, count)?;
    let search = find_all(alloc, edges, exits.as_slice(), count, from)?;
    match search.places[to as usize] {
        None => Ok(None),
        Some(place) => {
            let chain = chain_to(alloc, edges, &search, search.found[place])?;
            Ok(Some(chain))
        }
    }
}

/// A shortest chain of edges by which something passes from one label to another, or `None` where there is none: then
/// some set of labels, into which nothing flows, has the second and not the first. Looks at each edge at most twice.
pub fn flow(alloc: Global, edges: &EdgeTable, from: u32, to: u32) -> Made<Option<List<Edge>>>
    ensures { IfOk result (λ found. IsFlow edges.now from to found) }
{
    let edges = listed(alloc, edges)?;
    let edges = edges.as_slice();
    let least = if from < to { to } else { from };
    flow_by(alloc, edges, count_of(edges, least), from, to)
}
