//! The edges of a table, one after another.

ghost use Rattle.cap_model.specs.declared.rows.Class.{Class};
ghost use Rattle.cap_model.specs.declared.rows.Row.{Row};
ghost use Rattle.std.specs.Iterator.{YieldsFirst, item_count};
ghost use Rattle.std.specs.Prelude.{◌≡◌, ◌<◌, ◌≤◌, ℕ, length, slice_get, Some};

use crate::rows::{Class, Row};
use crate::{Authority, Edge};

/// The edges of a table that are left, in order: those out of a label, then those of the rows behind it. Takes no memory.
#[derive(Drop)]
pub struct Edges<'a> {
    label: u32,
    before: &'a [(Authority, u32)],
    replies: &'a [u32],
    behind: &'a [(Authority, u32)],
    rows: &'a [Row],
    classes: &'a [Class],
    ghost classed: { (i : ℕ) (r : Row) → slice_get rows.now i ≡ Some r → r.class < length classes.now },
    ghost parted: { (k : ℕ) (c : Class) → slice_get classes.now k ≡ Some c → c.before ≤ length c.pairs.items },
}

impl<'a> Edges<'a> {
    ghost use Rattle.cap_model.specs.EdgesLeft.{edges_left};
    ghost use Rattle.cap_model.specs.Rows.{table_edges, IsTable};

    /// All edges of the table of these rows and classes.
    pub fn of(rows: &'a [Row], classes: &'a [Class]) -> Edges<'a>
        requires { IsTable classes.now rows.now }
        ensures { edges_left result ≡ table_edges classes.entry.now rows.entry.now }
    {
        Edges {
            label: 0,
            before: &[],
            replies: &[],
            behind: &[],
            rows,
            classes,
        }
    }
}

fn class_of<'a>(classes: &'a [Class], row: &Row) -> &'a Class
    requires { row.now.class < length classes.now }
    ensures { slice_get classes.entry.now row.now.class ≡ Some result.now }
{
    &classes[row.class]
}

impl<'a> Iterator for Edges<'a> {
    ghost use Rattle.cap_model.specs.EdgesLeft.{edges_left};

    type Item = Edge;

    ghost next_gives = { YieldsFirst edges_left };

    ghost remaining = { item_count edges_left };

    #[inline]
    fn next(&mut self) -> Option<Edge> {
        loop {
            if let [(authority, to), rest @ ..] = self.before {
                self.before = rest;
                return Some(Edge {
                    from: self.label,
                    authority: *authority,
                    to: *to,
                });
            }
            if let [to, rest @ ..] = self.replies {
                self.replies = rest;
                return Some(Edge {
                    from: self.label,
                    authority: Authority::Reply,
                    to: *to,
                });
            }
            if let [(authority, to), rest @ ..] = self.behind {
                self.behind = rest;
                return Some(Edge {
                    from: self.label,
                    authority: *authority,
                    to: *to,
                });
            }
            let [row, rest @ ..] = self.rows else {
                return None;
            };
            let class = class_of(self.classes, row);
            self.label = row.label;
            (self.before, self.behind) = class.pairs.split_at(class.before);
            self.replies = row.replies.as_slice();
            self.rows = rest;
        }
    }
}
