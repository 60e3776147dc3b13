//! Edges of partners, by the labels that they go to.

ghost use Rattle.cert_check.specs.Meetings.{HasPartners, IsReach};
ghost use Rattle.std.specs.List.Sorted.{IsNonDecreasingBy};
ghost use Rattle.std.specs.Prelude.{◌≡◌, ◌<◌, [], length};

use crate::meetings::{Meeting, leads};
use crate::places::next_of;
use arrayvec::ArrayVec;
use cap_model::{Edge, EdgeTable, Hint};

/// The most edges that are held at once.
const ROOM: usize = 16_384;

/// Edges of partners, each by the label that it goes to and the label that it goes out of.
#[derive(Drop)]
pub struct Partners {
    pub ends: ArrayVec<(u32, u32), ROOM>,
}

/// A first edge, and where the partners stand that meet it.
#[derive(Clone, Copy)]
pub struct Met {
    pub edge: Edge,
    pub low: usize,
    pub high: usize,
}

impl Partners {
    /// Room for partners. Takes no memory.
    pub fn none() -> Partners
        ensures { result.ends.items ≡ [] }
    {
        Partners {
            ends: ArrayVec::new(),
        }
    }

    /// Takes in the partners among the edges from a place on, as many as there is room for, instead of those before, and
    /// answers the place behind them.
    pub fn gather(&mut self, cert: &EdgeTable, rule: Meeting, from: usize) -> usize
        ensures partners { HasPartners rule cert.now from result self.new.ends.items }
        ensures rising { IsNonDecreasingBy (λ p. p.0) self.new.ends.items }
        ensures on { from < length cert.now → from < result }
    {
        let partner = rule.partner();
        let mut past = from;
        let mut hint = Hint::first();
        self.ends.clear();
        while past < cert.len() && self.ends.len() < ROOM {
            match next_of(cert, past, partner, &mut hint) {
                Some((at, edge)) => {
                    if leads(cert, rule, edge.from, hint) {
                        self.ends.push((edge.to, edge.from));
                    }
                    past = at + 1;
                }
                None => past = cert.len(),
            }
        }
        self.ends.sort_unstable();
        past
    }

    /// Where the partners stand that meet a first edge.
    pub fn met(&self, edge: Edge) -> Met
        requires { IsNonDecreasingBy (λ p. p.0) self.now.ends.items }
        ensures edge { result.edge ≡ edge }
        ensures reach { IsReach self.now.ends.items edge.to result.low result.high }
    {
        let ends = self.ends.as_slice();
        Met {
            edge,
            low: ends.partition_point(|end| end.0 < edge.to),
            high: ends.partition_point(|end| end.0 <= edge.to),
        }
    }
}
