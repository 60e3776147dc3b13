//! The grant, call and grant back rules: two labels meet at a third.

ghost use Rattle.cap_model.specs.Tables.{has};
ghost use Rattle.cert_check.specs.Least.{FindsLeast};
ghost use Rattle.cert_check.specs.Meetings.{IsLed, With, first_authority, partner_authority};
ghost use Rattle.std.specs.Prelude.{◌≡◌, true, false};

use crate::missing::missing_copy;
use crate::violation::{Violation, uncopied};
use cap_model::{Authority, Edge, EdgeTable, Hint};

/// The three rules over two labels that meet at a third.
#[derive(Clone, Copy)]
pub enum Meeting {
    Grant,
    Call,
    GrantBack,
}

impl Meeting {
    /// The authority of the rule's first edge.
    pub fn first(self) -> Authority
        ensures { result ≡ first_authority self }
    {
        match self {
            Meeting::Grant => Authority::Grant,
            Meeting::Call | Meeting::GrantBack => Authority::Call,
        }
    }

    /// The authority of the partner's edge.
    pub fn partner(self) -> Authority
        ensures { result ≡ partner_authority self }
    {
        match self {
            Meeting::Grant | Meeting::Call => Authority::Receive,
            Meeting::GrantBack => Authority::GrantBack,
        }
    }
}

/// Whether no lesser label stands for this one by the rule: of the call rule none does, of the others the least label
/// that has the same edges other than Reply.
pub fn leads(cert: &EdgeTable, rule: Meeting, label: u32, hint: Hint) -> bool
    ensures { result ≡ false → IsLed rule cert.now label }
{
    match rule {
        Meeting::Call => true,
        Meeting::Grant | Meeting::GrantBack => match cert.class_near(label, hint) {
            Some(least) => least == label,
            None => true,
        },
    }
}

/// The violation by two edges that meet, or none.
pub fn meeting_at(cert: &EdgeTable, rule: Meeting, edge: &Edge, other: &Edge) -> Option<Violation>
    requires first { edge.now.authority ≡ first_authority rule }
    requires partner { other.now.authority ≡ partner_authority rule }
    requires meet { other.now.to ≡ edge.now.to }
    requires has_first { has cert.now edge.now ≡ true }
    requires has_partner { has cert.now other.now ≡ true }
    ensures { FindsLeast (With rule cert.now edge.now.from other.now) result }
{
    match rule {
        Meeting::Grant => match missing_copy(cert, edge.from, other.from) {
            Some(lack) => Some(uncopied(edge, lack, edge.from)),
            None => None,
        },
        Meeting::Call => unanswered(cert, edge, other),
        Meeting::GrantBack => match missing_copy(cert, other.from, edge.from) {
            Some(lack) => Some(uncopied(edge, lack, other.from)),
            None => None,
        },
    }
}

/// The violation of a call and a partner whose Reply edge is lacking.
fn unanswered(cert: &EdgeTable, edge: &Edge, other: &Edge) -> Option<Violation>
    requires first { edge.now.authority ≡ Authority.Call }
    requires partner { other.now.authority ≡ Authority.Receive }
    requires meet { other.now.to ≡ edge.now.to }
    requires has_first { has cert.now edge.now ≡ true }
    requires has_partner { has cert.now other.now ≡ true }
    ensures { FindsLeast (With Meeting.Call cert.now edge.now.from other.now) result }
{
    let lack = Edge {
        from: other.from,
        authority: Authority::Reply,
        to: edge.from,
    };
    if edge.from == other.from || cert.contains(&lack) {
        return None;
    }
    Some(Violation {
        first: *edge,
        lack,
        second: *other,
    })
}
