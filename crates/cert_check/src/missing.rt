//! Edges that one label has and another lacks.

ghost use Rattle.cap_model.specs.Tables.{Finds};
ghost use Rattle.cert_check.specs.Violations.{Missing};

use crate::beside::Beside;
use crate::places::is_of;
use cap_model::{Authority, Edge, EdgeTable, Hint};

/// The least edge other than Reply that `to` lacks while `from` has it. The edges of both are walked side by side.
pub fn missing_copy(cert: &EdgeTable, from: u32, to: u32) -> Option<Edge>
    ensures { Finds (Missing cert.now from to) result }
{
    let (low, high) = cert.out_of(from);
    let mut beside = Beside::at(cert.out_of(to).0);
    let mut hint = Hint::first();
    for i in low..high {
        if let Some(edge) = cert.get_near(i, &mut hint) {
            if edge.from == from && !is_of(&edge, Authority::Reply) {
                let lack = Edge {
                    from: to,
                    authority: edge.authority,
                    to: edge.to,
                };
                if !beside.has(cert, &lack) {
                    return Some(lack);
                }
            }
        }
    }
    None
}
