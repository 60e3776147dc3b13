//! Whether an authority is assigned in a source, and why.

ghost use Rattle.adl_import.specs.Loaded.{AlikeInSource};
ghost use Rattle.cam_io.specs.Reading.{InAll, KeepsFiles, LearnsOnly};
ghost use Rattle.source_commands.specs.Explained.{IsExplained, told};
ghost use Rattle.std.specs.Prelude.{◌≡◌};

use cam_base::{Made, NoMemory, SourceError, Unread};
use cam_io::Files;
use explain::{Answer, Question, answer_of};
use front_end::front;
use std::alloc::Global;

/// Whether the authority is assigned in the root's source, and the first reason.
///
/// # Errors
///
/// The first fault of the phases up to the settings, and where there is none the limit on edges, with the name of its file; a
/// failed read; want of memory.
pub fn explain<F: Files>(
    alloc: Global,
    files: &mut F,
    root: &str,
    question: &Question<'_>,
) -> Result<Answer, SourceError>
    ensures kept { KeepsFiles F.told F.faults files.old files.new }
    ensures learned { LearnsOnly F.told (AlikeInSource root.now) files.old files.new }
    ensures explained { InAll (F.told files.new) (λ m. IsExplained question.now.from.now question.now.authority.now
        question.now.to.now root.now m (F.faults files.old) (F.faults files.new) result) }
{
    match front(alloc, files, root) {
        Ok(front) => {
            told(answer_of(alloc, &front.source, &front.flat, &front.settled, question))
        }
        Err(error) => Err(error),
    }
}

fn told(answer: Made<Answer>) -> Result<Answer, SourceError>
    ensures { result ≡ told answer }
{
    match answer {
        Ok(answer) => Ok(answer),
        Err(NoMemory) => Err(Unread::NoMemory),
    }
}
