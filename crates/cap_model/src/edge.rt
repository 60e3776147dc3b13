ghost use Rattle.cap_model.specs.Edges.{Before, AtMost};
ghost use Rattle.std.specs.Prelude.{◌≡◌, true, false};

use crate::Authority;

/// One label has an authority over another. Comparisons are by `from`, then by the authority's number, then by `to`.
#[derive(Clone, Copy, PartialEq, Eq, PartialOrd, Ord)]
pub struct Edge {
    pub from: u32,
    pub authority: Authority,
    pub to: u32,
}

impl Edge {
    /// Whether this edge comes before the other one.
    pub fn is_before(&self, other: &Edge) -> bool
        ensures yes { result ≡ true → Before self.now other.now }
        ensures no { result ≡ false → AtMost other.now self.now }
    {
        self < other
    }
}
