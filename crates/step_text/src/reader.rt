//! The reader of texts of steps.

ghost use Rattle.std.specs.Prelude.{◌≡◌, ◌<◌, ◌^◌, length};
ghost use Rattle.step_text.specs.Found.{found_in};
ghost use Rattle.cam_base.specs.LinesLeft.{line_of};
ghost use Rattle.step_text.specs.LinesRead.{AreJudged, IsLineRead};
ghost use Rattle.step_text.specs.StepTexts.{IsRead};
ghost use Rattle.cam_base.specs.LineTexts.{texts};

use crate::spelled::{Wrong, misspelled, spelled};
use crate::threads::Threads;
use cam_base::{Line, Lines, List, Refused, Text, TextCode, TextFault, fields, refusal};
use cap_machine::Step;
use cap_model::Spec;
use std::alloc::Global;

/// What is read of a text, or the first fault that stands in it.
pub type Read<T> = Result<T, Refused<TextFault>>;

/// The most steps of a text.
pub const MAX_STEPS: usize = 100_000;

/// The most bytes of a text.
pub const MAX_BYTES: usize = 67_108_864;

/// The steps that a text's lines spell, or the first fault that stands in it. `specs/StepTexts.antt` says which.
pub fn read_steps(alloc: Global, spec: &Spec, bytes: &[u8]) -> Read<List<Step>>
    requires { length spec.now.entries < 2 ^ 32 }
    ensures { IsRead spec.now bytes.now result }
{
    if bytes.len() > MAX_BYTES {
        return Err(Refused::Fault(TextFault {
            code: TextCode::StepLimit,
            first: 0,
            end: 0,
            name: Text::empty(alloc),
        }));
    }
    let threads = Threads::of(alloc, spec)?;
    let mut steps = List::new(alloc);
    for line in Lines::of(bytes) {
        let step = read_line(alloc, &threads, steps.len(), line)?;
        steps.push(step)?;
    }
    Ok(steps)
}

/// The step that a line spells, where so many stand before it.
fn read_line(alloc: Global, threads: &Threads, before: usize, line: Line) -> Read<Step>
    ensures { IsLineRead (found_in threads.now) before (line_of line.entry) result }
{
    let fields = fields(alloc, line.text, 8)?;
    match judge(threads, before, fields.as_slice()) {
        Ok(step) => Ok(step),
        Err((code, name)) => Err(refusal(alloc, line, code, name)),
    }
}

/// The step that fields spell, where so many stand before it, or what is wrong with them.
fn judge<'a>(threads: &Threads, before: usize, fields: &[&'a [u8]]) -> Result<Step, Wrong<'a>>
    ensures { AreJudged (found_in threads.now) before (texts fields.now) result }
{
    match spelled(Some(threads), fields) {
        Some(step) if before < MAX_STEPS => Ok(step),
        Some(_) => Err((TextCode::StepLimit, b"")),
        None => Err(misspelled(threads, fields)),
    }
}
