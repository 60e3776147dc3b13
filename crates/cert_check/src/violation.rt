ghost use Rattle.cert_check.specs.Least.{NotAfter};
ghost use Rattle.cert_check.specs.Parts.{LesserOf};
ghost use Rattle.std.specs.Prelude.{◌≡◌, true, false};

use cap_model::Edge;

/// How a rule fails that rests on two edges of the certificate: these two, and the edge that is lacking.
#[derive(Clone, Copy)]
pub struct Violation {
    pub first: Edge,
    pub lack: Edge,
    pub second: Edge,
}

impl Violation {
    /// Whether this one is less, by its first edge, then by the lacking edge, then by the second edge.
    fn is_before(&self, other: &Violation) -> bool
        ensures yes { result ≡ true → NotAfter self.now other.now }
        ensures no { result ≡ false → NotAfter other.now self.now }
    {
        if self.first.is_before(&other.first) {
            return true;
        }
        if other.first.is_before(&self.first) {
            return false;
        }
        if self.lack.is_before(&other.lack) {
            return true;
        }
        if other.lack.is_before(&self.lack) {
            return false;
        }
        self.second.is_before(&other.second)
    }
}

/// The violation of an edge that is to be copied and isn't: `lack` is the copy, and the original goes out of `from`.
pub fn uncopied(first: &Edge, lack: Edge, from: u32) -> Violation
    ensures { result ≡ record {
      first = first.now;
      lack = lack;
      second = record { from = from; authority = lack.authority; to = lack.to };
    } }
{
    Violation {
        first: *first,
        lack,
        second: Edge {
            from,
            authority: lack.authority,
            to: lack.to,
        },
    }
}

/// The lesser of two violations, the former where neither is less.
pub fn lesser(best: Option<Violation>, found: Option<Violation>) -> Option<Violation>
    ensures { LesserOf best found result }
{
    match (best, found) {
        (None, _) => found,
        (Some(_), None) => best,
        (Some(old), Some(new)) => { if new.is_before(&old) { found } else { best } }
    }
}
