//! The lines of a text.

ghost use Rattle.std.specs.Iterator.{YieldsFirstBy, item_count};
ghost use Rattle.std.specs.Prelude.{◌≡◌, ◌≤◌, ◌<◌, ◌+◌, ◌^◌, length};
ghost use Rattle.cam_base.specs.Lines.{is_silent};

use crate::part::part_from;

/// A line without its line feed, and the place of its first byte.
#[derive(Clone, Copy)]
pub struct Line<'a> {
    pub first: u64,
    pub text: &'a [u8],
    ghost within: { first + length text.now < 2 ^ 64 },
}

/// The lines of a text that say something, from a place on.
#[derive(Drop)]
pub struct Lines<'a> {
    bytes: &'a [u8],
    at: usize,
    ghost within: { at ≤ length bytes.now + 1 },
}

/// Whether a line is passed over: it is empty, or begins with `--`.
fn is_silent(text: &[u8]) -> bool
    ensures { result ≡ is_silent text.now }
{
    match text {
        [] | [b'-', b'-', ..] => true,
        _ => false,
    }
}

impl<'a> Lines<'a> {
    ghost use Rattle.cam_base.specs.Lines.{lines};
    ghost use Rattle.cam_base.specs.LinesLeft.{lines_left};

    /// All lines of the text that say something.
    pub fn of(bytes: &'a [u8]) -> Lines<'a>
        ensures { lines_left result ≡ lines bytes.entry.now }
    {
        Lines { bytes, at: 0 }
    }
}

impl<'a> Iterator for Lines<'a> {
    ghost use Rattle.cam_base.specs.LinesLeft.{lines_left, line_of};

    type Item = Line<'a>;

    ghost next_gives = { YieldsFirstBy line_of lines_left };

    ghost remaining = { item_count lines_left };

    fn next(&mut self) -> Option<Line<'a>> {
        while self.at <= self.bytes.len() {
            let text = part_from(self.bytes, self.at, b'\n');
            let first = self.at as u64;
            self.at += text.len() + 1;
            if !is_silent(text) {
                return Some(Line { first, text });
            }
        }
        None
    }
}
