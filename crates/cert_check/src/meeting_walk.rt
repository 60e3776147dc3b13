//! A walk through the first edges of a rule, each with the partners that meet it.

ghost use Rattle.cap_model.specs.Tables.{has};
ghost use Rattle.cert_check.specs.Least.{FindsLeast};
ghost use Rattle.cert_check.specs.Meetings.{first_authority, AreMet, Breaks, GoesLike, IsReach, MeetToo, OfPartners};
ghost use Rattle.cert_check.specs.Parts.{FindsLeastAt};
ghost use Rattle.std.specs.List.Sorted.{IsNonDecreasingBy};
ghost use Rattle.std.specs.Prelude.{◌≡◌, true, IfSome};

use crate::meetings::{Meeting, leads, meeting_at};
use crate::partners::{Met, Partners};
use crate::places::next_of;
use crate::violation::{Violation, lesser};
use cap_model::{Edge, EdgeTable, Hint};

/// The least violation of one of the three rules. Each walk takes the first edges past as many partners as there is room
/// for.
pub fn find_meeting(cert: &EdgeTable, rule: Meeting) -> Option<Violation>
    ensures { FindsLeast (Breaks rule cert.now) result }
{
    let mut partners = Partners::none();
    let mut best: Option<Violation> = None;
    let mut next = 0;
    while next < cert.len() {
        next = partners.gather(cert, rule, next);
        best = lesser(best, least_by(cert, rule, &partners));
    }
    best
}

/// The least violation by one of the partners.
fn least_by(cert: &EdgeTable, rule: Meeting, partners: &Partners) -> Option<Violation>
    requires rising { IsNonDecreasingBy (λ p. p.0) partners.now.ends.items }
    requires met { AreMet rule cert.now partners.now.ends.items }
    ensures { FindsLeast (OfPartners rule cert.now partners.now.ends.items) result }
{
    if partners.ends.is_empty() {
        return None;
    }
    let first = rule.first();
    let mut last: Option<Met> = None;
    let mut next = 0;
    let mut hint = Hint::first();
    while let Some((at, edge)) = next_of(cert, next, first, &mut hint) {
        if leads(cert, rule, edge.from, hint) {
            let met = partners.met(edge);
            if !goes_like(partners, last, met) {
                if let Some(found) = least_of(cert, rule, partners, met) {
                    return Some(found);
                }
                last = Some(met);
            }
        }
        next = at + 1;
    }
    None
}

/// Whether two first edges go out of one label, and the same labels meet them.
fn goes_like(partners: &Partners, last: Option<Met>, met: Met) -> bool
    requires last { IfSome last (λ m. IsReach partners.now.ends.items m.edge.to m.low m.high) }
    requires reach { IsReach partners.now.ends.items met.edge.to met.low met.high }
    ensures { result ≡ true → GoesLike partners.now.ends.items last met }
{
    match last {
        Some(last) => last.edge.from == met.edge.from && meet_too(partners, last, met),
        None => false,
    }
}

/// Whether the same labels meet two first edges.
fn meet_too(partners: &Partners, last: Met, met: Met) -> bool
    requires last { IsReach partners.now.ends.items last.edge.to last.low last.high }
    requires reach { IsReach partners.now.ends.items met.edge.to met.low met.high }
    ensures { result ≡ true → MeetToo partners.now.ends.items last met }
{
    let ends = partners.ends.as_slice();
    let count = met.high - met.low;
    if last.high - last.low != count {
        return false;
    }
    for k in 0..count {
        if ends[last.low + k].1 != ends[met.low + k].1 {
            return false;
        }
    }
    true
}

/// The least violation with this first edge by one of the partners.
fn least_of(cert: &EdgeTable, rule: Meeting, partners: &Partners, met: Met) -> Option<Violation>
    requires first { met.edge.authority ≡ first_authority rule }
    requires there { has cert.now met.edge ≡ true }
    requires met { AreMet rule cert.now partners.now.ends.items }
    requires reach { IsReach partners.now.ends.items met.edge.to met.low met.high }
    ensures { FindsLeastAt (OfPartners rule cert.now partners.now.ends.items) met.edge result }
{
    let ends = partners.ends.as_slice();
    let authority = rule.partner();
    let mut best: Option<Violation> = None;
    for place in met.low..met.high {
        let (to, from) = ends[place];
        let other = Edge {
            from,
            authority,
            to,
        };
        best = lesser(best, meeting_at(cert, rule, &met.edge, &other));
    }
    best
}
