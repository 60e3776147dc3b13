ghost use Rattle.std.specs.Prelude.{◌≡◌, ◌≢◌, ◌+◌, ◌*◌, ◌^◌, ◌<◌, ◌≤◌, ◌==◌, [], length, slice_get, All, AllPairs, IfOk};
ghost use Rattle.cap_model.specs.Rows.{table_edges, IsTable};
ghost use Rattle.cap_model.specs.Shared.{shared_edges, PairBefore};
ghost use Rattle.cap_model.specs.declared.edge.Edge.{Edge};
ghost use Rattle.cap_model.specs.Classes.{IsClassOf};
ghost use Rattle.cap_model.specs.Tables.{has, IsSorted, IsFirstFrom};

use crate::hint::Hint;
use crate::making::made_of;
use crate::rows::{
    Class, Row, edge_in, has_edge, row_near, row_of, rows_behind, rows_below, rows_near,
};
use crate::shared::{class_of_pairs, shared_rows};
use crate::walk::Edges;
use crate::{Authority, Edge};
use cam_base::Made;
use std::alloc::Global;
use std::marker::Model;

/// Edges in order, each once. Contracts see it as the list of its edges. Labels out of which the same edges other than
/// Reply go are of one class, and share one list.
#[derive(Drop)]
pub struct EdgeTable {
    rows: Vec<Row>,
    classes: Vec<Class>,
    len: usize,
}

impl Model for EdgeTable {
    ghost use Rattle.std.specs.Prelude.{◌≡◌, List, length};
    ghost use Rattle.cap_model.specs.declared.edge.Edge.{Edge};
    ghost use Rattle.cap_model.specs.Rows.{table_edges, IsTable};

    ghost Value = { List Edge };

    ghost view = { λ t. table_edges t.classes.items t.rows.items };

    ghost invariant = { λ t. IsTable t.classes.items t.rows.items × (t.len ≡ length (table_edges t.classes.items t.rows.items)) };
}

impl EdgeTable {
    ghost use Rattle.cap_model.specs.EdgesLeft.{edges_left};

    /// The table without edges. Takes no memory.
    pub fn empty(alloc: Global) -> EdgeTable
        ensures { result ≡ [] }
    {
        EdgeTable {
            rows: Vec::new(alloc),
            classes: Vec::new(alloc),
            len: 0,
        }
    }

    /// The table of the edges of a slice, in any order; an edge that stands twice counts once.
    pub fn from_list(alloc: Global, edges: &[Edge]) -> Made<EdgeTable>
        ensures sorted { IfOk result IsSorted }
        ensures same { IfOk result (λ table. (e : Edge) → has table e ≡ has edges.now e) }
    {
        let mut sorted = edges.to_vec(alloc)?;
        sorted.sort_unstable();
        sorted.dedup();
        table_of(alloc, sorted.as_slice())
    }

    /// The table in which each of the labels has the edges that the pairs stand for. The labels share one list, so the
    /// table takes memory for the labels and the pairs, and not for each edge.
    pub fn shared(alloc: Global, labels: &[u32], pairs: &[(Authority, u32)]) -> Made<EdgeTable>
        requires labels { AllPairs ◌<◌ labels.now }
        requires pairs { AllPairs PairBefore pairs.now }
        requires others { All (λ p. p.0 ≢ Authority.Reply) pairs.now }
        requires product { length labels.now * length pairs.now ≤ 2 ^ 40 }
        ensures edges { IfOk result (λ table. table ≡ shared_edges labels.now pairs.now) }
        ensures sorted { IfOk result IsSorted }
    {
        if labels.is_empty() {
            return Ok(EdgeTable::empty(alloc));
        }
        let rows = shared_rows(alloc, labels, pairs.len())?;
        let class = class_of_pairs(alloc, labels[0], pairs)?;
        let mut classes = Vec::new(alloc);
        classes.push(class)?;
        Ok(EdgeTable::of_rows(rows, classes, labels.len() * pairs.len()))
    }

    fn of_rows(rows: Vec<Row>, classes: Vec<Class>, len: usize) -> EdgeTable
        requires table { IsTable classes.items rows.items }
        requires len { len ≡ length (table_edges classes.items rows.items) }
        ensures { result ≡ table_edges classes.items rows.items }
    {
        EdgeTable { rows, classes, len }
    }

    /// The number of edges.
    pub fn len(&self) -> usize
        ensures len { result ≡ length self.now }
        ensures sorted { IsSorted self.now }
    {
        self.len
    }

    /// Whether there is no edge.
    pub fn is_empty(&self) -> bool
        ensures { result ≡ (length self.now == 0) }
    {
        self.len == 0
    }

    /// The edge at a place, `None` exactly past the end. Takes no memory.
    pub fn get(&self, at: usize) -> Option<Edge>
        ensures { result ≡ slice_get self.now at }
    {
        self.get_near(at, &mut Hint::first())
    }

    /// The same, with a hint, which from then on is that of this place.
    pub fn get_near(&self, at: usize, hint: &mut Hint) -> Option<Edge>
        ensures { result ≡ slice_get self.now at }
    {
        let rows = self.rows.as_slice();
        hint.past = rows_near(rows, at, hint.past);
        edge_in(rows, self.classes.as_slice(), hint.past, at)
    }

    /// Its edges, in order. Takes no memory.
    pub fn iter(&self) -> Edges<'_>
        ensures edges { edges_left result ≡ self.now }
        ensures sorted { IsSorted self.now }
    {
        Edges::of(self.rows.as_slice(), self.classes.as_slice())
    }

    /// Whether the table has the edge. Takes no memory.
    pub fn contains(&self, edge: &Edge) -> bool
        ensures { result ≡ has self.now edge.now }
    {
        match row_of(self.rows.as_slice(), edge.from) {
            Some(row) => has_edge(&self.classes[row.class], row, edge),
            None => false,
        }
    }

    /// The number of the label's class: the least label out of which the same edges other than Reply go, `None` exactly
    /// where no such edge goes out of the label. Takes no memory.
    pub fn class_of(&self, label: u32) -> Option<u32>
        ensures { IsClassOf self.now label result }
    {
        self.class_near(label, Hint::first())
    }

    /// The same, with the hint of an edge out of the label.
    pub fn class_near(&self, label: u32, hint: Hint) -> Option<u32>
        ensures { IsClassOf self.now label result }
    {
        match row_near(self.rows.as_slice(), hint.past, label) {
            Some(row) => self.classes[row.class].number(),
            None => None,
        }
    }

    /// The place of the first edge from a label, and the place past the last one; where there is none, both are the
    /// number of edges from lesser labels. Takes no memory.
    pub fn out_of(&self, label: u32) -> (usize, usize)
        ensures first { IsFirstFrom self.now label result.0 }
        ensures past { IsFirstFrom self.now (label + 1) result.1 }
        ensures order { result.0 ≤ result.1 }
        ensures sorted { IsSorted self.now }
    {
        (
            self.first_from(label as u64),
            self.first_from(label as u64 + 1),
        )
    }

    /// The place past the edges from a label and lesser ones, with the hint of an edge out of the label. Takes no memory.
    pub fn behind(&self, label: u32, hint: Hint) -> usize
        ensures { IsFirstFrom self.now (label + 1) result }
    {
        match self
            .rows
            .get(rows_behind(self.rows.as_slice(), hint.past, label))
        {
            Some(row) => row.first,
            None => self.len,
        }
    }

    /// The first place at which no edge from a lesser label stands.
    fn first_from(&self, label: u64) -> usize
        ensures first { IsFirstFrom self.now label result }
        ensures sorted { IsSorted self.now }
    {
        match self.rows.get(rows_below(self.rows.as_slice(), label)) {
            Some(row) => row.first,
            None => self.len,
        }
    }
}

/// The table of edges that are in order.
fn table_of(alloc: Global, edges: &[Edge]) -> Made<EdgeTable>
    requires { IsSorted edges.now }
    ensures { IfOk result (λ table. table ≡ edges.now) }
{
    let made = made_of(alloc, edges)?;
    Ok(EdgeTable {
        rows: made.rows,
        classes: made.classes,
        len: edges.len(),
    })
}
