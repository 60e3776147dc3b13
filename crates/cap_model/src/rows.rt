//! What a table keeps: the labels that have edges, and the lists that they share.

ghost use Rattle.cap_model.specs.Rows.{
  edge_to,
  edges_of,
  reply_to,
  table_edges,
  HasRising,
  IsClass,
  IsRowFrom,
  IsRowOf,
  IsRowPast,
  IsTable,
  NoRowOf,
  FirstsRise,
};
ghost use Rattle.cap_model.specs.Tables.{has, IsSorted};
ghost use Rattle.std.specs.Prelude.{◌≡◌, ◌==◌, ◌+◌, if◌then◌else◌, true, length, map, slice_get, None, Some, IfSome, IfNone};

use crate::{Authority, Edge};

/// A label that has edges, the place of its first one, the labels that it may reply to, and the place of its class.
#[derive(Drop)]
pub struct Row {
    pub label: u32,
    pub first: usize,
    pub replies: Vec<u32>,
    pub class: usize,
}

/// Labels that have the same edges other than Reply: the least of them, and where those edges go, in order. The first
/// `before` of the pairs come before Reply in the order of authorities, the others behind it.
#[derive(Drop)]
pub struct Class {
    pub label: u32,
    pub pairs: Vec<(Authority, u32)>,
    pub before: usize,
}

impl Class {
    /// The number of the class, `None` where its labels have no edge other than Reply.
    pub fn number(&self) -> Option<u32>
        ensures { result ≡ (if length self.now.pairs.items == 0 then None else Some self.now.label) }
    {
        if self.pairs.is_empty() {
            None
        } else {
            Some(self.label)
        }
    }
}

/// The edge at a place among those of a label.
pub fn edge_at(class: &Class, row: &Row, at: usize) -> Option<Edge>
    requires { IsClass class.now }
    ensures { result ≡ slice_get (edges_of (Some class.now) row.now) at }
{
    let replies = row.replies.len();
    if at < class.before {
        pair_edge(row.label, class.pairs.as_slice(), at)
    } else if at - class.before < replies {
        reply_edge(row.label, row.replies.as_slice(), at - class.before)
    } else {
        pair_edge(row.label, class.pairs.as_slice(), at - replies)
    }
}

fn pair_edge(from: u32, pairs: &[(Authority, u32)], at: usize) -> Option<Edge>
    ensures { result ≡ slice_get (map (edge_to from) pairs.now) at }
{
    pairs.get(at).map(|(authority, to)| Edge {
        from,
        authority: *authority,
        to: *to,
    })
}

fn reply_edge(from: u32, replies: &[u32], at: usize) -> Option<Edge>
    ensures { result ≡ slice_get (map (reply_to from) replies.now) at }
{
    replies.get(at).map(|to| Edge {
        from,
        authority: Authority::Reply,
        to: *to,
    })
}

/// Whether a label has the edge, which goes out of it.
pub fn has_edge(class: &Class, row: &Row, edge: &Edge) -> bool
    requires class { IsClass class.now }
    requires replies { IsSorted (map (reply_to 0) row.now.replies.items) }
    requires label { row.now.label ≡ edge.now.from }
    ensures { result ≡ has (edges_of (Some class.now) row.now) edge.now }
{
    match edge.authority {
        Authority::Reply => row.replies.binary_search(&edge.to).is_ok(),
        authority => class.pairs.binary_search(&(authority, edge.to)).is_ok(),
    }
}

/// The first place at which no row of a lesser label stands.
pub fn rows_below(rows: &[Row], label: u64) -> usize
    requires { HasRising rows.now }
    ensures { IsRowFrom rows.now label result }
{
    rows.partition_point(|row| u64::from(row.label) < label)
}

/// The place behind the rows whose first edge stands at the place of an edge or before it.
fn rows_up_to(rows: &[Row], place: usize) -> usize
    requires { FirstsRise rows.now }
    ensures { IsRowPast rows.now place result }
{
    rows.partition_point(|row| row.first <= place)
}

/// The same, looked for at what it was for another place, and at what is next to that.
pub fn rows_near(rows: &[Row], place: usize, near: usize) -> usize
    requires { FirstsRise rows.now }
    ensures { IsRowPast rows.now place result }
{
    let next = near.saturating_add(1);
    if is_past(rows, place, near) {
        near
    } else if is_past(rows, place, next) {
        next
    } else {
        rows_up_to(rows, place)
    }
}

/// Whether the last row before `past` begins at the place of an edge or before it, and the next one behind that.
fn is_past(rows: &[Row], place: usize, past: usize) -> bool
    requires { FirstsRise rows.now }
    ensures { result ≡ true → IsRowPast rows.now place past }
{
    if past == 0 || past > rows.len() || rows[past - 1].first > place {
        return false;
    }
    match rows.get(past) {
        Some(row) => place < row.first,
        None => true,
    }
}

/// The edge at a place of a table, of whose rows so many begin there or before.
pub fn edge_in(rows: &[Row], classes: &[Class], past: usize, at: usize) -> Option<Edge>
    requires table { IsTable classes.now rows.now }
    requires past { IsRowPast rows.now at past }
    ensures { result ≡ slice_get (table_edges classes.now rows.now) at }
{
    if past == 0 {
        return None;
    }
    let row = &rows[past - 1];
    edge_at(&classes[row.class], row, at - row.first)
}

/// The row of a label.
pub fn row_of(rows: &[Row], label: u32) -> Option<&Row>
    requires { HasRising rows.now }
    ensures found { IfSome result (λ r. IsRowOf rows.now label r.now) }
    ensures none { IfNone result (NoRowOf rows.now label) }
{
    match rows.get(rows_below(rows, label as u64)) {
        Some(row) if row.label == label => Some(row),
        _ => None,
    }
}

/// The same, looked for at the last row before a place first.
pub fn row_near(rows: &[Row], past: usize, label: u32) -> Option<&Row>
    requires { HasRising rows.now }
    ensures found { IfSome result (λ r. IsRowOf rows.now label r.now) }
    ensures none { IfNone result (NoRowOf rows.now label) }
{
    match rows.get(past.saturating_sub(1)) {
        Some(row) if row.label == label => Some(row),
        _ => row_of(rows, label),
    }
}

/// The first place at which no row of the label or of a lesser one stands, looked for behind the last row before a place
/// first.
pub fn rows_behind(rows: &[Row], past: usize, label: u32) -> usize
    requires { HasRising rows.now }
    ensures { IsRowFrom rows.now (label + 1) result }
{
    let near = past.saturating_sub(1);
    match rows.get(near) {
        Some(row) if row.label == label => near + 1,
        _ => rows_below(rows, u64::from(label) + 1),
    }
}
