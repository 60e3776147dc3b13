ghost use Rattle.std.specs.Prelude.{◌≡◌, ◌≤◌, IfOk, length};
ghost use Rattle.view_text.specs.Spots.{error_line, limit, lint_line};

use crate::place::{Place, place_behind};
use crate::texts::join;
use crate::view::front;
use cam_base::{List, Made};
use itoa::Buffer;
use std::alloc::Global;

fn error_line(alloc: Global, file: &[u8], place: Place, rest: &[u8]) -> Made<List<u8>>
    ensures { IfOk result (λ text. text ≡ error_line file.now place rest.now) }
{
    let (mut line, mut column) = (Buffer::new(), Buffer::new());
    let line = line.format(place.line).as_bytes();
    let column = column.format(place.column).as_bytes();
    join(
        alloc,
        &[file, b":", line, b":", column, b": error: ", rest, b"\n"],
    )
}

/// The line by which editors find a fault at a byte of a file.
pub fn lint_line(
    alloc: Global,
    file: &[u8],
    first: u64,
    rest: &[u8],
    bytes: &[u8],
) -> Made<List<u8>>
    requires { length bytes.now ≤ limit }
    ensures { IfOk result (λ text. text ≡ lint_line file.now first rest.now bytes.now) }
{
    error_line(alloc, file, place_behind(front(bytes, first)), rest)
}
