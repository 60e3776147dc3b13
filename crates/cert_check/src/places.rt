//! Edges by their authority, and places of a table.

ghost use Rattle.cap_model.specs.Edges.{edge};
ghost use Rattle.cap_model.specs.Tables.{IsSorted};
ghost use Rattle.cert_check.specs.Meetings.{Halved, IsFirstNotBefore};
ghost use Rattle.cert_check.specs.Parts.{AreOthers, IsNextOf};
ghost use Rattle.std.specs.Prelude.{◌≡◌, ◌≢◌, ◌↔◌, ◌<◌, ◌^◌, ◌+◌, length, slice_get, IsTrue, IfSome, IfNone, Some};

use cap_model::{Authority, Edge, EdgeTable, Hint};

/// Whether the edge has this authority.
pub fn is_of(edge: &Edge, authority: Authority) -> bool
    ensures { IsTrue result ↔ (edge.now.authority ≡ authority) }
{
    edge.authority.number() == authority.number()
}

/// The first edge of the authority from a place on, and its place.
pub fn next_of(
    cert: &EdgeTable,
    from: usize,
    authority: Authority,
    hint: &mut Hint,
) -> Option<(usize, Edge)>
    ensures found { IfSome result (IsNextOf cert.now authority from) }
    ensures room { IfSome result (λ found. found.0 + 1 < 2 ^ 64) }
    ensures none { IfNone result (AreOthers cert.now authority from (length cert.now)) }
    ensures sorted { IsSorted cert.now }
{
    let mut at = from;
    while at < cert.len() {
        let edge = cert.get_near(at, hint)?;
        if is_of(&edge, authority) {
            return Some((at, edge));
        }
        at = skip(cert, at, &edge, authority, *hint);
    }
    None
}

/// A place behind an edge of another authority, up to which edges have other authorities: edges out of a label stand by their
/// authorities.
fn skip(cert: &EdgeTable, at: usize, edge: &Edge, authority: Authority, hint: Hint) -> usize
    requires sorted { IsSorted cert.now }
    requires there { slice_get cert.now at ≡ Some edge.now }
    requires other { edge.now.authority ≢ authority }
    ensures on { at < result }
    ensures others { AreOthers cert.now authority at result }
{
    let past = cert.behind(edge.from, hint);
    if edge.authority.number() < authority.number() {
        search(cert, &least_of(edge.from, authority), at, past, hint)
    } else {
        past
    }
}

/// The place of the first edge that isn't less than this one.
pub fn first_not_before(cert: &EdgeTable, edge: &Edge) -> usize
    ensures first { IsFirstNotBefore cert.now edge.now result }
    ensures sorted { IsSorted cert.now }
{
    search(cert, edge, 0, cert.len(), Hint::first())
}

fn search(cert: &EdgeTable, edge: &Edge, low: usize, high: usize, hint: Hint) -> usize
    requires sorted { IsSorted cert.now }
    requires between { Halved cert.now edge.now low high }
    ensures { IsFirstNotBefore cert.now edge.now result }
{
    let mut low = low;
    let mut high = high;
    let mut hint = hint;
    while low < high {
        let middle = low + (high - low) / 2;
        match cert.get_near(middle, &mut hint) {
            Some(other) if other.is_before(edge) => low = middle + 1,
            _ => high = middle,
        }
    }
    low
}

/// The least edge out of a label with an authority.
pub fn least_of(from: u32, authority: Authority) -> Edge
    ensures { result ≡ edge from authority 0 }
{
    Edge {
        from,
        authority,
        to: 0,
    }
}
