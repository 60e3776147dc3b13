//! The last rule: the certificate's edges between labels are in the policy.

ghost use Rattle.cap_model.specs.Tables.{Finds};
ghost use Rattle.cert_check.specs.Violations.{BreaksPolicy};

use crate::beside::Beside;
use cap_model::{Edge, EdgeTable};

/// The least edge of the certificate between different labels that the policy lacks. The edges of both are walked side by
/// side.
pub fn find_outside(policy: &EdgeTable, cert: &EdgeTable) -> Option<Edge>
    ensures { Finds (BreaksPolicy policy.now cert.now) result }
{
    let mut beside = Beside::at(0);
    for edge in cert.iter() {
        if edge.from != edge.to && !beside.has(policy, &edge) {
            return Some(edge);
        }
    }
    None
}
