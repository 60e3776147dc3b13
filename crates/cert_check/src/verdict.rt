ghost use Rattle.cert_check.specs.Rules.{rule_number};
ghost use Rattle.cert_check.specs.Valid.{Stays};
ghost use Rattle.cert_check.specs.Verdicts.{Judged};
ghost use Rattle.std.specs.Prelude.{◌≡◌, length, [], ◌∷◌, Some, None};

use crate::boot_edges::find_unheld;
use crate::copies::{find_bind, find_control};
use crate::in_policy::find_outside;
use crate::meeting_walk::find_meeting;
use crate::meetings::Meeting;
use crate::rule::Rule;
use crate::violation::Violation;
use cap_model::{Edge, EdgeTable, Labels, Spec};

/// The answer of the checker: the rules hold, or the number of the least rule that fails, the two edges of the
/// certificate that its least violation rests on (none for the first and the last rule), and the edge that is lacking.
#[derive(Clone, Copy)]
pub enum Verdict {
    Yes,
    No {
        rule: u8,
        have: [Option<Edge>; 2],
        lack: Edge,
    },
}

/// Whether the certificate keeps the rules for the spec, its labels and the policy, and else the least violation. Takes
/// no memory. After a Yes every edge that any run of the spec reaches is in the policy or within one label.
pub fn check(spec: &Spec, labels: &Labels, policy: &EdgeTable, cert: &EdgeTable) -> Verdict
    requires { length labels.now.by_object ≡ length spec.now.entries }
    ensures judged { Judged spec.now labels.now.by_object policy.now cert.now result }
    ensures sound { result ≡ Verdict.Yes → Stays spec.now labels.now.by_object policy.now }
{
    if let Some(lack) = find_unheld(spec, labels, cert) {
        return alone(Rule::BootEdges, lack);
    }
    if let Some(found) = find_control(cert) {
        return pair(Rule::Control, found);
    }
    if let Some(found) = find_meeting(cert, Meeting::Grant) {
        return pair(Rule::Grant, found);
    }
    if let Some(found) = find_meeting(cert, Meeting::Call) {
        return pair(Rule::Call, found);
    }
    if let Some(found) = find_meeting(cert, Meeting::GrantBack) {
        return pair(Rule::GrantBack, found);
    }
    if let Some(found) = find_bind(cert) {
        return pair(Rule::Bind, found);
    }
    match find_outside(policy, cert) {
        Some(lack) => alone(Rule::Policy, lack),
        None => Verdict::Yes,
    }
}

fn pair(rule: Rule, found: Violation) -> Verdict
    ensures { result ≡ Verdict.No (rule_number rule) (Some found.first ∷ Some found.second ∷ []) found.lack }
{
    Verdict::No {
        rule: rule.number(),
        have: [Some(found.first), Some(found.second)],
        lack: found.lack,
    }
}

fn alone(rule: Rule, lack: Edge) -> Verdict
    ensures { result ≡ Verdict.No (rule_number rule) (None ∷ None ∷ []) lack }
{
    Verdict::No {
        rule: rule.number(),
        have: [None, None],
        lack,
    }
}
