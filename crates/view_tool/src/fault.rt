//! A fault's bytes in their file.

ghost use Rattle.cam_io.specs.Reading.{InAll, KeepsFiles};
ghost use Rattle.view_tool.specs.Answers.{FitsFault, Hinders, IsView};
ghost use Rattle.std.specs.Prelude.{◌≤◌, length};
ghost use Rattle.view_text.specs.Spots.{limit, spot_of};

use crate::answer::Answer;
use crate::lines::{read_fault, refuse};
use cam_base::List;
use cam_io::{Files, WholeError, read_whole};
use std::alloc::Global;
use view_text::{LIMIT, Range, read_spot, view_of};

/// What is answered about a file that isn't read whole.
pub fn hindered(alloc: Global, file: &str, error: WholeError) -> Answer
    ensures { Hinders file.now error result }
{
    match error {
        WholeError::Absent => refuse(alloc, file.as_bytes(), b"no such file"),
        WholeError::TooLong => refuse(alloc, file.as_bytes(), b"too long"),
        WholeError::ReadFault => read_fault(alloc, file.as_bytes()),
        WholeError::NoMemory => Answer::NoMemory,
    }
}

/// The bytes at a place of a file, shown.
fn view(alloc: Global, file: &str, range: Range, rest: &str, bytes: &[u8]) -> Answer
    requires { length bytes.now ≤ limit }
    ensures { IsView file.now (range.first, range.end) rest.now bytes.now result }
{
    if range.first <= range.end && range.end <= bytes.len() as u64 {
        Answer::shown(view_of(alloc, file, range, rest, bytes))
    } else {
        refuse(alloc, file.as_bytes(), b"no such place")
    }
}

/// What is answered to the line of a fault.
pub fn view_fault<F: Files>(alloc: Global, line: &str, files: &mut F) -> Answer
    ensures kept { KeepsFiles F.told F.faults files.old files.new }
    ensures fits { InAll (F.told files.new) (λ m. FitsFault m (F.faults files.old) (F.faults files.new) (spot_of line.now)
        result) }
{
    let Some((file, range, rest)) = read_spot(line) else {
        return Answer::refused(List::from_slice(alloc, b"no line of a fault\n"));
    };
    match read_whole(alloc, files, file, LIMIT) {
        Ok(bytes) => view(alloc, file, range, rest, bytes.as_slice()),
        Err(error) => hindered(alloc, file, error),
    }
}
