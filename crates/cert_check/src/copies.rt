//! The control and the bind rule, edge by edge.

ghost use Rattle.cap_model.specs.Classes.{OutAlike};
ghost use Rattle.cap_model.specs.Tables.{has};
ghost use Rattle.cert_check.specs.Least.{FindsLeast};
ghost use Rattle.cert_check.specs.Parts.{BreaksPair, FindsLeastAt};
ghost use Rattle.cert_check.specs.Violations.{BreaksBind, BreaksControl};
ghost use Rattle.std.specs.Prelude.{◌≡◌, ◌<◌, true};

use crate::missing::missing_copy;
use crate::places::{first_not_before, is_of, least_of, next_of};
use crate::violation::{Violation, uncopied};
use cap_model::{Authority, Edge, EdgeTable, Hint};

/// The least violation of the control rule.
pub fn find_control(cert: &EdgeTable) -> Option<Violation>
    ensures { FindsLeast (BreaksControl cert.now) result }
{
    let mut next = 0;
    let mut hint = Hint::first();
    while let Some((at, edge)) = next_of(cert, next, Authority::Control, &mut hint) {
        if let Some(found) = control_at(cert, &edge, hint) {
            return Some(found);
        }
        next = at + 1;
    }
    None
}

/// The least violation of the bind rule.
pub fn find_bind(cert: &EdgeTable) -> Option<Violation>
    ensures { FindsLeast (BreaksBind cert.now) result }
{
    let mut next = 0;
    let mut hint = Hint::first();
    while let Some((at, edge)) = next_of(cert, next, Authority::Handle, &mut hint) {
        if let Some(found) = bind_at(cert, &edge) {
            return Some(found);
        }
        next = at + 1;
    }
    None
}

fn control_at(cert: &EdgeTable, edge: &Edge, hint: Hint) -> Option<Violation>
    requires { has cert.now edge.now ≡ true }
    ensures { FindsLeastAt (BreaksControl cert.now) edge.now result }
{
    if !is_of(edge, Authority::Control) || edge.from == edge.to {
        None
    } else if edge.from < edge.to {
        pair_at(cert, edge, edge.from, edge.to, hint)
    } else {
        pair_at(cert, edge, edge.to, edge.from, hint)
    }
}

/// The least violation between two labels that are to have the same edges by this one.
fn pair_at(cert: &EdgeTable, edge: &Edge, low: u32, high: u32, hint: Hint) -> Option<Violation>
    requires { low < high }
    ensures { FindsLeast (BreaksPair cert.now edge.now low high) result }
{
    if same_class(cert, low, high, hint) {
        return None;
    }
    if let Some(lack) = missing_copy(cert, high, low) {
        return Some(uncopied(edge, lack, high));
    }
    match missing_copy(cert, low, high) {
        Some(lack) => Some(uncopied(edge, lack, low)),
        None => None,
    }
}

/// Whether the classes of the labels have one number: then the same edges other than Reply go out of both.
fn same_class(cert: &EdgeTable, low: u32, high: u32, hint: Hint) -> bool
    ensures { result ≡ true → OutAlike cert.now low high }
{
    cert.class_near(low, hint) == cert.class_near(high, hint)
}

/// The bind rule at an edge. The AsyncSend edges of a label stand together.
fn bind_at(cert: &EdgeTable, edge: &Edge) -> Option<Violation>
    requires { has cert.now edge.now ≡ true }
    ensures { FindsLeastAt (BreaksBind cert.now) edge.now result }
{
    if !is_of(edge, Authority::Handle) {
        return None;
    }
    let low = first_not_before(cert, &least_of(edge.from, Authority::AsyncSend));
    let high = first_not_before(cert, &least_of(edge.from, Authority::Reset));
    let mut hint = Hint::first();
    for j in low..high {
        if let Some(other) = cert.get_near(j, &mut hint) {
            if is_of(&other, Authority::AsyncSend)
                && other.from == edge.from
                && other.to != edge.to
            {
                let lack = Edge {
                    from: edge.to,
                    authority: Authority::AsyncSend,
                    to: other.to,
                };
                if !cert.contains(&lack) {
                    return Some(Violation {
                        first: *edge,
                        lack,
                        second: other,
                    });
                }
            }
        }
    }
    None
}
