//! The labels that can come to influence a label.

ghost use Rattle.label_flow.specs.Chain.{AreSources};
ghost use Rattle.label_flow.specs.Edges.{turned, AreBelow};
ghost use Rattle.label_flow.specs.Exits.{AreExits};
ghost use Rattle.label_flow.specs.Search.{is_source};
ghost use Rattle.std.specs.Prelude.{◌≡◌, map, length, IfOk};

use crate::edges::{all_turned, count_of};
use crate::exits::{Exits, all_exits};
use crate::search::find_all;
use cam_base::Made;
use cap_model::{Edge, EdgeTable};
use std::alloc::Global;
use std::marker::Model;

/// The labels that can come to influence a label: this label itself, and those that have a place.
#[derive(Drop)]
pub struct Sources {
    pub to: u32,
    pub places: Vec<Option<usize>>,
}

impl Sources {
    /// Whether the label is one of them. Takes no memory.
    pub fn has(&self, label: u32) -> bool
        ensures { result ≡ is_source self.now label }
    {
        if label == self.to {
            return true;
        }
        match self.places.get(label as usize) {
            Some(place) => place.is_some(),
            None => false,
        }
    }
}

/// The edges of a table, made ready for the question what influences a label. Contracts see the edges of the table.
#[derive(Drop)]
pub struct Upstream {
    edges: Vec<Edge>,
    exits: Vec<Exits>,
    count: usize,
}

impl Model for Upstream {
    ghost use Rattle.std.specs.Prelude.{List, length, map};
    ghost use Rattle.cap_model.specs.declared.edge.Edge.{Edge};
    ghost use Rattle.label_flow.specs.Edges.{turned, AreBelow};
    ghost use Rattle.label_flow.specs.Exits.{AreExits};

    ghost Value = { List Edge };

    ghost view = { λ u. map turned u.edges.items };

    ghost invariant = { λ u. AreBelow u.count u.edges.items
        × AreExits u.edges.items u.count (length u.edges.items) u.exits.items };
}

impl Upstream {
    /// The edges of a table.
    pub fn of(alloc: Global, table: &EdgeTable) -> Made<Upstream>
        ensures { IfOk result (λ upstream. upstream ≡ table.now) }
    {
        let edges = all_turned(alloc, table)?;
        let count = count_of(edges.as_slice(), 0);
        let exits = all_exits(alloc, edges.as_slice(), count)?;
        Ok(Upstream {
            edges,
            exits,
            count,
        })
    }

    /// The labels from which something can come to a label, by chains of edges. Looks at each edge at most twice.
    pub fn sources(&self, alloc: Global, to: u32) -> Made<Sources>
        ensures { IfOk result (λ sources. AreSources self.now to (is_source sources)) }
    {
        if to as usize >= self.count {
            return Ok(Sources {
                to,
                places: Vec::new(alloc),
            });
        }
        let search = find_all(
            alloc,
            self.edges.as_slice(),
            self.exits.as_slice(),
            self.count,
            to,
        )?;
        Ok(Sources {
            to,
            places: search.places,
        })
    }
}
