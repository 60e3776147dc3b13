//! The picture of a policy.

ghost use Rattle.cam_io.specs.Reading.{InAll, KeepsFiles};
ghost use Rattle.view_tool.specs.Answers.{IsDrawn, OfFile};

use crate::answer::Answer;
use crate::fault::hindered;
use crate::lines::text_fault_line;
use cam_base::Refused;
use cam_io::{Files, read_whole};
use policy_text::read_policy;
use std::alloc::Global;
use view_text::{LIMIT, picture_of};

/// The policy of a text, drawn.
fn draw(alloc: Global, file: &str, bytes: &[u8]) -> Answer
    ensures { IsDrawn file.now bytes.now result }
{
    match read_policy(alloc, bytes) {
        Ok(policy) => Answer::shown(picture_of(alloc, &policy, &[])),
        Err(Refused::Fault(fault)) => Answer::refused(text_fault_line(alloc, file, &fault)),
        Err(Refused::NoMemory) => Answer::NoMemory,
    }
}

/// What is answered to the file of a policy.
pub fn view_graph<F: Files>(alloc: Global, file: &str, files: &mut F) -> Answer
    ensures kept { KeepsFiles F.told F.faults files.old files.new }
    ensures fits { InAll (F.told files.new) (λ m. OfFile m (F.faults files.old) (F.faults files.new) file.now (IsDrawn file.now)
        result) }
{
    match read_whole(alloc, files, file, LIMIT) {
        Ok(bytes) => draw(alloc, file, bytes.as_slice()),
        Err(error) => hindered(alloc, file, error),
    }
}
