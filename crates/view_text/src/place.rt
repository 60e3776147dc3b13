ghost use Rattle.std.specs.Prelude.{◌≡◌, ◌≤◌, ◌+◌, ◌<◌, ◌^◌, length};
ghost use Rattle.view_text.specs.Spots.{limit, place_behind};

/// A line and a column, from 1.
#[derive(Clone, Copy)]
pub(crate) struct Place {
    pub(crate) line: usize,
    pub(crate) column: usize,
}

impl Place {
    ghost use Rattle.view_text.specs.Spots.{behind};

    /// The place behind a byte that stands here.
    fn behind(self, byte: u8) -> Place
        requires line { self.line < 2 ^ 32 }
        requires column { self.column < 2 ^ 32 }
        ensures { result ≡ behind self byte }
    {
        if byte == b'\n' {
            Place {
                line: self.line + 1,
                column: 1,
            }
        } else {
            Place {
                line: self.line,
                column: self.column + 1,
            }
        }
    }
}

/// The place behind these bytes of a file's beginning.
pub(crate) fn place_behind(bytes: &[u8]) -> Place
    requires { length bytes.now ≤ limit }
    ensures place { result ≡ place_behind bytes.now }
    ensures line { 1 ≤ result.line }
    ensures column { 1 ≤ result.column }
    ensures within { result.column ≤ length bytes.now + 1 }
{
    let mut place = Place { line: 1, column: 1 };
    for byte in bytes {
        place = place.behind(*byte);
    }
    place
}
