//! A refusal as editors read it.

ghost use Rattle.cam_io.specs.Reading.{InAll, KeepsFiles};
ghost use Rattle.std.specs.Prelude.{◌≡◌, ◌≤◌, [], length};
ghost use Rattle.view_text.specs.Spots.{limit, lint_line};
ghost use Rattle.view_tool.specs.Answers.{Lints, LintsFault, LintsFile, LintsUnread};
ghost use Rattle.view_tool.specs.Lines.{fault_words};
ghost use Rattle.view_tool.specs.Words.{Gives};
ghost use Rattle.view_tool.specs.declared.answer.Answer.TheVariants as answers;

use crate::answer::Answer;
use crate::lines::{fault_words, read_fault};
use cam_base::{Fault, NoMemory, SourceError, Unread};
use cam_io::{Files, WholeError, read_whole};
use std::alloc::Global;
use std::str::from_utf8;
use view_text::{LIMIT, lint_line};

/// The line of a fault in a file of these bytes.
fn faulty(alloc: Global, file: &[u8], first: u64, fault: &Fault, bytes: &[u8]) -> Answer
    requires { length bytes.now ≤ limit }
    ensures { Gives (answers.Faulty (lint_line file.now first (fault_words fault.now) bytes.now)) result }
{
    match fault_words(alloc, fault) {
        Ok(words) => Answer::faulty(lint_line(alloc, file, first, words.as_slice(), bytes)),
        Err(NoMemory) => Answer::NoMemory,
    }
}

/// The line of a fault in a file that isn't read whole.
fn unread(alloc: Global, file: &[u8], fault: &Fault, error: WholeError) -> Answer
    ensures { LintsUnread file.now fault.now error result }
{
    match error {
        WholeError::Absent => faulty(alloc, file, 0, fault, b""),
        WholeError::TooLong => faulty(alloc, file, 0, fault, b""),
        WholeError::ReadFault => read_fault(alloc, file),
        WholeError::NoMemory => Answer::NoMemory,
    }
}

fn lint_file<F: Files>(alloc: Global, files: &mut F, file: &str, fault: &Fault) -> Answer
    ensures kept { KeepsFiles F.told F.faults files.old files.new }
    ensures fits { InAll (F.told files.new) (λ m. LintsFile m (F.faults files.old) (F.faults files.new) file.now
        fault.now result) }
{
    match read_whole(alloc, files, file, LIMIT) {
        Ok(bytes) => faulty(
            alloc,
            file.as_bytes(),
            fault.place.first,
            fault,
            bytes.as_slice(),
        ),
        Err(error) => unread(alloc, file.as_bytes(), fault, error),
    }
}

fn lint_fault<F: Files>(alloc: Global, files: &mut F, file: &[u8], fault: &Fault) -> Answer
    ensures kept { KeepsFiles F.told F.faults files.old files.new }
    ensures fits { InAll (F.told files.new) (λ m. LintsFault m (F.faults files.old) (F.faults files.new) file.now
        fault.now result) }
{
    match from_utf8(file) {
        Ok(name) => lint_file(alloc, files, name, fault),
        Err(_) => faulty(alloc, file, 0, fault, b""),
    }
}

/// Why there is nothing of a source, as editors read it.
pub(crate) fn lint_error<F: Files>(alloc: Global, files: &mut F, error: SourceError) -> Answer
    ensures kept { KeepsFiles F.told F.faults files.old files.new }
    ensures fits { InAll (F.told files.new) (λ m. Lints m (F.faults files.old) (F.faults files.new) error result) }
{
    match error {
        Unread::Fault(fault, file) => lint_fault(alloc, files, file.as_bytes(), &fault),
        Unread::ReadFault(file) => read_fault(alloc, file.as_bytes()),
        Unread::NoMemory => Answer::NoMemory,
    }
}
