//! Faults at lines of a text.

ghost use Rattle.cam_base.specs.LineFaults.{IsRefusal};
ghost use Rattle.cam_base.specs.LinesLeft.{line_of};

use crate::{Line, NoMemory, Refused, Text, TextCode, TextFault};
use std::alloc::Global;

/// The fault at a line, unless memory runs out.
pub fn refusal(alloc: Global, line: Line, code: TextCode, name: &[u8]) -> Refused<TextFault>
    ensures { IsRefusal (line_of line.entry) (code, name.now) result }
{
    match Text::new(alloc, name) {
        Ok(name) => Refused::Fault(TextFault {
            code,
            first: line.first,
            end: line.first + line.text.len() as u64,
            name,
        }),
        Err(NoMemory) => Refused::NoMemory,
    }
}
