//! A walk through a table beside another one.

ghost use Rattle.cap_model.specs.Tables.{has};
ghost use Rattle.std.specs.Prelude.{◌≡◌};

use cap_model::{Edge, EdgeTable, Hint};

/// Looks for edges that come in order: each where the last one stood and a little behind, before it is searched for.
#[derive(Drop)]
pub struct Beside {
    at: usize,
    hint: Hint,
}

impl Beside {
    /// A walk that begins at a place.
    pub fn at(at: usize) -> Beside {
        Beside {
            at,
            hint: Hint::first(),
        }
    }

    /// Whether the table has the edge.
    pub fn has(&mut self, table: &EdgeTable, edge: &Edge) -> bool
        ensures { result ≡ has table.now edge.now }
    {
        self.draw_near(table, edge);
        match table.get_near(self.at, &mut self.hint) {
            Some(other) if other == *edge => true,
            _ => table.contains(edge),
        }
    }

    /// Goes at most eight places on, up to where the edge would stand.
    fn draw_near(&mut self, table: &EdgeTable, edge: &Edge) {
        for _ in 0..8 {
            match table.get_near(self.at, &mut self.hint) {
                Some(other) if other.is_before(edge) => self.at = self.at.saturating_add(1),
                _ => return,
            }
        }
    }
}
