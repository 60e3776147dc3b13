//! What a run did, held to what it must do.

use crate::bench::{Done, perform};
use crate::case::{Case, NamedText, Run};
use cam_base::Made;
use cam_io::MemOutputs;
use std::alloc::{AllocError, Global};
use std::fmt;

/// How many begins and writes a run may make where each is to fail in turn.
const MOST_WRITES: u64 = 100_000;

/// In what a run differs from what it must do.
#[derive(Clone, Copy)]
pub enum Part {
    Status,
    Print,
    Error,
    Outputs,
    /// Where the read of this number fails.
    Read(u64),
    /// Where the begin or write of this number fails.
    Write(u64),
}

impl fmt::Display for Part {
    fn fmt<W: fmt::Write>(&self, f: &mut fmt::Formatter<W>) -> fmt::Result {
        match self {
            Part::Status => write!(f, "status"),
            Part::Print => write!(f, "standard output"),
            Part::Error => write!(f, "standard error"),
            Part::Outputs => write!(f, "outputs"),
            Part::Read(number) => write!(f, "where read {number} fails"),
            Part::Write(number) => write!(f, "where begin or write {number} fails"),
        }
    }
}

/// The first run of a case that differs, counted from 1, in what, with its status and a text that it told.
#[derive(Drop)]
pub struct Verdict {
    pub number: u64,
    pub part: Part,
    pub status: u8,
    pub text: String,
}

/// Whether the outputs are these, and nothing else is begun.
fn are_outputs(wanted: &[NamedText], out: &MemOutputs) -> bool {
    let mut seen: usize = 0;
    for channel in 2..6 {
        if let Some(name) = out.begun(channel) {
            match wanted.get(seen) {
                Some(text)
                    if text.name.as_str() == name && text.bytes.as_slice() == out.bytes(channel) =>
                    {
                        seen = seen.saturating_add(1);
                    }
                _ => return false,
            }
        }
    }
    seen == wanted.len()
}

/// The bytes of the output that is begun under this name, or none.
fn output_of<'a>(out: &'a MemOutputs, name: &str) -> &'a [u8] {
    for channel in 2..6 {
        if out.begun(channel) == Some(name) {
            return out.bytes(channel);
        }
    }
    b""
}

/// Whether all lines stand in a text, in their order.
fn stand_in(lines: &[u8], text: &[u8]) -> bool {
    let mut rest = lines;
    for line in text.split(|b| *b == b'\n') {
        if let Some([b'\n', behind @ ..]) = rest.strip_prefix(line) {
            rest = behind;
        }
    }
    rest.is_empty()
}

/// Whether the outputs are what a run must write.
fn is_written(wanted: &Run, out: &MemOutputs) -> bool {
    if wanted.lines.is_empty() {
        return are_outputs(wanted.outputs.as_slice(), out);
    }
    let mut texts = wanted.lines.as_slice().iter();
    texts.all(|text| stand_in(text.bytes.as_slice(), output_of(out, text.name.as_str())))
}

/// In what a run differs from what it must do, if it does.
fn difference(wanted: &Run, done: &Done) -> Option<Part> {
    if done.status != wanted.status {
        return Some(Part::Status);
    }
    if done.out.bytes(1) != wanted.error.as_slice() {
        return Some(Part::Error);
    }
    if wanted.any {
        return None;
    }
    let print = wanted.print.as_slice();
    let is_front = wanted.front && done.out.bytes(0).starts_with(print);
    if !is_front && done.out.bytes(0) != print {
        return Some(Part::Print);
    }
    (!is_written(wanted, &done.out)).then_some(Part::Outputs)
}

/// How much of a text is there.
#[derive(Clone, Copy, PartialEq, Eq)]
enum Extent {
    Whole,
    Front,
    Other,
}

fn extent_of(wanted: &[u8], bytes: &[u8]) -> Extent {
    if wanted == bytes {
        Extent::Whole
    } else if wanted.starts_with(bytes) {
        Extent::Front
    } else {
        Extent::Other
    }
}

/// How much of an output is there, behind outputs of which the last has this extent.
fn extent_behind(last: Extent, wanted: &NamedText, out: &MemOutputs, channel: u8) -> Extent {
    match (last, out.begun(channel)) {
        (Extent::Whole | Extent::Front, None) => Extent::Front,
        (Extent::Whole, Some(name)) if wanted.name.as_str() == name => {
            extent_of(wanted.bytes.as_slice(), out.bytes(channel))
        }
        _ => Extent::Other,
    }
}

/// Whether a front of what a run must tell is there and not all of it: the outputs in their order, then standard output
/// and standard error.
fn is_cut_short(wanted: &Run, out: &MemOutputs) -> bool {
    let mut last = Extent::Whole;
    for (channel, text) in (2..6).zip(wanted.outputs.as_slice()) {
        last = extent_behind(last, text, out, channel);
    }
    let print = extent_of(wanted.print.as_slice(), out.bytes(0));
    let error = extent_of(wanted.error.as_slice(), out.bytes(1));
    match (last, print, error) {
        (Extent::Other, _, _) | (_, Extent::Other, _) | (_, _, Extent::Other) => false,
        (Extent::Front, _, _) => out.bytes(0).is_empty() && out.bytes(1).is_empty(),
        (Extent::Whole, Extent::Whole, Extent::Whole) => false,
        (Extent::Whole, _, _) => true,
    }
}

/// Whether this failed read is told, and nothing else.
fn is_read_fault(alloc: Global, done: &Done, name: &str) -> Result<bool, AllocError> {
    let line = format!(in alloc; "read fault {name}\n")?;
    Ok(
        done.status == 4
            && done.out.bytes(1) == line.as_bytes()
            && done.out.bytes(0).is_empty()
            && are_outputs(&[], &done.out),
    )
}

/// Lets each read fail in turn: the first that isn't told rightly, or the one behind the last if it is made.
fn reads_differ(alloc: Global, case: &Case, wanted: &Run, names: &[String]) -> Made<Option<Part>> {
    let files = case.files.as_slice();
    let mut number: u64 = 1;
    for name in names {
        let done = perform(alloc, wanted, files, number, 0)?;
        if !is_read_fault(alloc, &done, name.as_str())? {
            return Ok(Some(Part::Read(number)));
        }
        number = number.saturating_add(1);
    }
    let done = perform(alloc, wanted, files, number, 0)?;
    Ok(difference(wanted, &done).map(|_| Part::Read(number)))
}

/// Lets each begin and write fail in turn: the first where the outputs aren't cut short, or the one behind the last if
/// it is made.
fn writes_differ(alloc: Global, case: &Case, wanted: &Run) -> Made<Option<Part>> {
    for number in 1..MOST_WRITES {
        let done = perform(alloc, wanted, case.files.as_slice(), 0, number)?;
        if done.status != 5 {
            let is_told = number > 1 && difference(wanted, &done).is_none();
            return Ok((!is_told).then_some(Part::Write(number)));
        }
        if !is_cut_short(wanted, &done.out) {
            return Ok(Some(Part::Write(number)));
        }
    }
    Ok(Some(Part::Write(MOST_WRITES)))
}

/// What differs where calls are to fail in turn.
fn failures_differ(alloc: Global, case: &Case, wanted: &Run) -> Made<Option<Part>> {
    if let Some(names) = &wanted.reads {
        if let Some(part) = reads_differ(alloc, case, wanted, names.as_slice())? {
            return Ok(Some(part));
        }
    }
    if wanted.writes {
        return writes_differ(alloc, case, wanted);
    }
    Ok(None)
}

/// The text of a run that is shown where it differs in this part.
fn text_of(alloc: Global, part: Part, done: &Done) -> Result<String, AllocError> {
    let channel = match part {
        Part::Print => 0,
        Part::Outputs => 2,
        _ => 1,
    };
    String::from_utf8_lossy(alloc, done.out.bytes(channel))
}

fn judge_run(alloc: Global, case: &Case, wanted: &Run) -> Made<Option<Verdict>> {
    let (read, write) = (wanted.failing_read, wanted.failing_write);
    let done = perform(alloc, wanted, case.files.as_slice(), read, write)?;
    let part = match difference(wanted, &done) {
        Some(part) => Some(part),
        None => failures_differ(alloc, case, wanted)?,
    };
    let Some(part) = part else {
        return Ok(None);
    };
    Ok(Some(Verdict {
        number: 1,
        part,
        status: done.status,
        text: text_of(alloc, part, &done)?,
    }))
}

/// The first run of a case that differs from what it must do, if one does. A case without runs has none.
pub fn judge(alloc: Global, case: &Case) -> Made<Option<Verdict>> {
    let mut number: u64 = 0;
    for wanted in case.runs.as_slice() {
        number = number.saturating_add(1);
        if let Some(mut verdict) = judge_run(alloc, case, wanted)? {
            verdict.number = number;
            return Ok(Some(verdict));
        }
    }
    Ok(None)
}
