//! A set of edges that grows.

ghost use Rattle.cap_model.specs.Edges.{edge, same_edge, AtMost};
ghost use Rattle.cap_model.specs.Tables.{has, IsSorted};
ghost use Rattle.cap_model.specs.declared.edge.Edge.{Edge};
ghost use Rattle.cap_model.specs.Between.{IsBetween};
ghost use Rattle.std.specs.Prelude.{◌≡◌, ◌↔◌, ◌<◌, ◌^◌, ◌+◌, ◌||◌, ℕ, true, false, [], IfOk, OnOk, length};

use crate::{Authority, Edge, EdgeTable};
use cam_base::Made;
use std::alloc::Global;
use std::collections::BTreeSet;
use std::marker::Model;

/// A set of edges. Contracts see it as the list of its edges, in order.
#[derive(Drop)]
pub struct EdgeSet {
    edges: BTreeSet<Edge>,
}

impl Model for EdgeSet {
    ghost use Rattle.cap_model.specs.declared.edge.Edge.{Edge};
    ghost use Rattle.std.specs.Prelude.{List};

    ghost Value = { List Edge };

    ghost view = { λ s. s.edges.keys };
}

impl EdgeSet {
    /// The set without edges. Takes no memory.
    pub fn new(alloc: Global) -> EdgeSet
        ensures { result ≡ [] }
    {
        EdgeSet {
            edges: BTreeSet::new(alloc),
        }
    }

    /// How many edges there are. Takes no memory.
    pub fn len(&self) -> usize
        ensures len { result ≡ length self.now }
        ensures sorted { IsSorted self.now }
    {
        self.edges.len()
    }

    /// Whether the set has the edge. Takes no memory.
    pub fn contains(&self, edge: &Edge) -> bool
        ensures { result ≡ has self.now edge.now }
    {
        self.edges.contains(edge)
    }

    /// Puts an edge into the set.
    pub fn insert(&mut self, edge: Edge) -> Made<()>
        ensures has { OnOk result ((e : Edge) → has self.new e ≡ (has self.old e || same_edge edge e)) }
        ensures len { OnOk result (has self.old edge ≡ false → length self.new ≡ length self.old + 1) }
    {
        self.edges.insert(edge)?;
        Ok(())
    }

    /// The table of its edges.
    pub fn table(&self, alloc: Global) -> Made<EdgeTable>
        ensures { IfOk result (λ table. table ≡ self.now) }
    {
        let edges = self.listed(alloc)?;
        let table = EdgeTable::from_list(alloc, edges.as_slice())?;
        Ok(table)
    }

    /// Its edges, in order.
    pub fn listed(&self, alloc: Global) -> Made<Vec<Edge>>
        ensures items { IfOk result (λ edges. edges.items ≡ self.now) }
        ensures sorted { IfOk result (λ edges. IsSorted edges.items) }
    {
        let edges = self.edges.iter().copied().collect(alloc)?;
        Ok(edges)
    }

    /// Its edges from one up to another, in order.
    fn between(&self, alloc: Global, first: Edge, last: Edge) -> Made<Vec<Edge>>
        requires { AtMost first last }
        ensures between { IfOk result (λ edges. (e : Edge) → (has edges.items e ≡ true) ↔ IsBetween self.now first last e) }
        ensures sorted { IfOk result (λ edges. IsSorted edges.items) }
    {
        let edges = self.edges.range(first..=last).copied().collect(alloc)?;
        Ok(edges)
    }

    /// Its edges out of a label, in order.
    pub fn out_of(&self, alloc: Global, label: u32) -> Made<Vec<Edge>>
        ensures from { IfOk result (λ edges. (e : Edge) → has edges.items e ≡ true → (has self.now e ≡ true) × (e.from ≡ label)) }
        ensures every { IfOk result (λ edges. (e : Edge) → has self.now e ≡ true → e.from ≡ label → e.to < 2 ^ 32
            → has edges.items e ≡ true) }
        ensures sorted { IfOk result (λ edges. IsSorted edges.items) }
    {
        let first = Edge {
            from: label,
            authority: Authority::Receive,
            to: 0,
        };
        let last = Edge {
            from: label,
            authority: Authority::Handle,
            to: u32::MAX,
        };
        let edges = self.between(alloc, first, last)?;
        Ok(edges)
    }

    /// Its edges out of a label with an authority, in order.
    pub fn out_with(&self, alloc: Global, label: u32, authority: Authority) -> Made<Vec<Edge>>
        ensures from { IfOk result (λ edges. (e : Edge) → has edges.items e ≡ true
            → (has self.now e ≡ true) × (e.from ≡ label) × (e.authority ≡ authority)) }
        ensures every { IfOk result (λ edges. (m : ℕ) → has self.now (edge label authority m) ≡ true → m < 2 ^ 32
            → has edges.items (edge label authority m) ≡ true) }
        ensures sorted { IfOk result (λ edges. IsSorted edges.items) }
    {
        let first = Edge {
            from: label,
            authority,
            to: 0,
        };
        let last = Edge {
            from: label,
            authority,
            to: u32::MAX,
        };
        let edges = self.between(alloc, first, last)?;
        Ok(edges)
    }
}
