//! The lines that are printed where nothing is shown.

ghost use Rattle.view_tool.specs.Answers.{Refuses};
ghost use Rattle.view_tool.specs.Lines.{fault_line, fault_words, place_line, read_fault, refusal, space_before, text_fault_line, words};
ghost use Rattle.view_tool.specs.Words.{Gives};
ghost use Rattle.view_tool.specs.declared.answer.Answer.TheVariants as answers;
ghost use Rattle.std.specs.Prelude.{◌≡◌, IfOk};

use crate::answer::Answer;
use cam_base::{Fault, List, Made, SourceError, TextFault, Unread};
use itoa::Buffer;
use std::alloc::Global;
use view_text::join;

fn space_before(name: &[u8]) -> &[u8]
    ensures { result.now ≡ space_before name.now }
{
    if name.is_empty() { b"" } else { b" " }
}

fn place_line(alloc: Global, file: &[u8], first: u64, end: u64, rest: &[u8]) -> Made<List<u8>>
    ensures { IfOk result (λ text. text ≡ place_line file.now first end rest.now) }
{
    let (mut front, mut back) = (Buffer::new(), Buffer::new());
    let first = front.format(first).as_bytes();
    let end = back.format(end).as_bytes();
    join(alloc, &[file, b":", first, b"-", end, b": ", rest, b"\n"])
}

fn words(alloc: Global, code: &[u8], title: &[u8], name: &[u8]) -> Made<List<u8>>
    ensures { IfOk result (λ text. text ≡ words code.now title.now name.now) }
{
    join(alloc, &[code, b" ", title, space_before(name), name])
}

/// The line of a fault of a text.
pub fn text_fault_line(alloc: Global, file: &str, fault: &TextFault) -> Made<List<u8>>
    ensures { IfOk result (λ text. text ≡ text_fault_line file.now fault.now) }
{
    let code = fault.code.word().as_bytes();
    let title = fault.code.title().as_bytes();
    let rest = words(alloc, code, title, fault.name.as_bytes())?;
    place_line(
        alloc,
        file.as_bytes(),
        fault.first,
        fault.end,
        rest.as_slice(),
    )
}

/// The code, the title and the name of a fault of a source.
pub fn fault_words(alloc: Global, fault: &Fault) -> Made<List<u8>>
    ensures { IfOk result (λ text. text ≡ fault_words fault.now) }
{
    let mut digits = Buffer::new();
    let code = join(
        alloc,
        &[b"E", digits.format(fault.code.number()).as_bytes()],
    )?;
    let title = fault.code.title().as_bytes();
    words(alloc, code.as_slice(), title, fault.name.as_bytes())
}

/// The line of a fault of a source.
fn fault_line(alloc: Global, file: &[u8], fault: &Fault) -> Made<List<u8>>
    ensures { IfOk result (λ text. text ≡ fault_line file.now fault.now) }
{
    let rest = fault_words(alloc, fault)?;
    place_line(
        alloc,
        file,
        fault.place.first,
        fault.place.end,
        rest.as_slice(),
    )
}

/// That nothing is shown of a file or a label, and why.
pub fn refuse(alloc: Global, what: &[u8], why: &[u8]) -> Answer
    ensures { Gives (answers.Refused (refusal what.now why.now)) result }
{
    Answer::refused(join(alloc, &[what, b": ", why, b"\n"]))
}

/// That a read failed.
pub fn read_fault(alloc: Global, file: &[u8]) -> Answer
    ensures { Gives (answers.ReadFault (read_fault file.now)) result }
{
    Answer::read_fault(join(alloc, &[b"read fault ", file, b"\n"]))
}

/// Why there is nothing of a source.
pub fn refuse_source(alloc: Global, error: SourceError) -> Answer
    ensures { Refuses error result }
{
    match error {
        Unread::Fault(fault, file) => {
            Answer::refused(fault_line(alloc, file.as_bytes(), &fault))
        }
        Unread::ReadFault(file) => read_fault(alloc, file.as_bytes()),
        Unread::NoMemory => Answer::NoMemory,
    }
}
