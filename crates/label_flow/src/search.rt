//! A search over labels, nearest first.

ghost use Rattle.label_flow.specs.Edges.{AreBelow};
ghost use Rattle.label_flow.specs.Exits.{AreExits};
ghost use Rattle.label_flow.specs.Search.{blank, met_found, met_places, IsLooking, Looks, Searches};
ghost use Rattle.std.specs.Prelude.{◌≡◌, ◌<◌, ◌+◌, length, slice_get, Some, IfOk, OnOk};

use crate::exits::Exits;
use crate::passing::passed_to;
use cam_base::Made;
use cap_model::Edge;
use std::alloc::Global;

/// A label that was found, by the edge at a place, from what stands at a place before it, and by how many edges in all.
/// Where these are none, it is the label that the search began with, and the places mean nothing.
#[derive(Clone, Copy)]
pub struct Found {
    pub label: u32,
    pub by: usize,
    pub previous: usize,
    pub depth: usize,
}

/// The labels in the order found, and the place of each label among them.
#[derive(Drop)]
pub struct Search {
    pub from: u32,
    pub found: Vec<Found>,
    pub places: Vec<Option<usize>>,
}

impl Search {
    /// Puts a label behind all others, unless it was found before.
    fn meet(&mut self, next: Found) -> Made<()>
        requires { next.label < length self.old.places.items }
        ensures found { OnOk result (self.new.found.items
            ≡ met_found self.old.places.items self.old.found.items next) }
        ensures places { OnOk result (self.new.places.items
            ≡ met_places self.old.places.items self.old.found.items next) }
        ensures from { self.new.from ≡ self.old.from }
    {
        let label = next.label as usize;
        if self.places[label].is_none() {
            self.places[label] = Some(self.found.len());
            self.found.push(next)?;
        }
        Ok(())
    }
}

fn nowhere(alloc: Global, count: usize) -> Made<Vec<Option<usize>>>
    ensures { IfOk result (λ places. places.items ≡ blank count) }
{
    let mut places = Vec::new(alloc);
    for _ in 0..count {
        places.push(None)?;
    }
    Ok(places)
}

/// Only the label that the search begins with is found.
fn begin(alloc: Global, edges: &[Edge], count: usize, from: u32) -> Made<Search>
    requires { from < count }
    ensures { IfOk result (λ s. Searches edges.now from count s 0) }
{
    let mut places = nowhere(alloc, count)?;
    places[from as usize] = Some(0);
    let mut found = Vec::new(alloc);
    found.push(Found {
        label: from,
        by: edges.len(),
        previous: 0,
        depth: 0,
    })?;
    Ok(Search {
        from,
        found,
        places,
    })
}

/// Looks at every edge at the label found at a place.
fn look(edges: &[Edge], exits: &[Exits], search: &mut Search, at: usize) -> Made<()>
    requires search { Searches edges.now search.old.from (length search.old.places.items) search.old at }
    requires below { AreBelow (length search.old.places.items) edges.now }
    requires exits { AreExits edges.now (length search.old.places.items) (length edges.now) exits.now }
    requires inside { at < length search.old.found.items }
    ensures { OnOk result (Searches edges.now search.old.from (length search.old.places.items) search.new (at + 1)) }
{
    let head = search.found[at];
    let row = exits[head.label as usize].as_slice();
    for place in row {
        match passed_to(&edges[*place], head.label) {
            Some(label) => {
                search.meet(Found {
                    label,
                    by: *place,
                    previous: at,
                    depth: head.depth + 1,
                })?;
            }
            None => {}
        }
    }
    Ok(())
}

/// All labels to which something comes from a label. Looks at each edge at most twice.
pub fn find_all(
    alloc: Global,
    edges: &[Edge],
    exits: &[Exits],
    count: usize,
    from: u32,
) -> Made<Search>
    requires below { AreBelow count edges.now }
    requires exits { AreExits edges.now count (length edges.now) exits.now }
    requires from { from < count }
    ensures { IfOk result (λ s. Searches edges.now from count s (length s.found.items)) }
{
    let mut search = begin(alloc, edges, count, from)?;
    let mut at = 0;
    while at < search.found.len() {
        look(edges, exits, &mut search, at)?;
        at += 1;
    }
    Ok(search)
}
