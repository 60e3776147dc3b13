//! The lines that commands print. Nothing here takes memory.

ghost use Rattle.cam_io.specs.Saying.{Says};
ghost use Rattle.cam_io.specs.Sinks.{IsOpen, Writes};
ghost use Rattle.std.specs.Prelude.{◌≡◌};
ghost use Rattle.std.specs.List.{flat_map};
ghost use Rattle.text_commands.specs.Lines.{code_text, fault_line, have_line, illegal_text, number_text, place_text, refusal_text, report_text, run_text, space_before, why_of};

use crate::InputFault;
use cam_io::{Outputs, Writer, Written};
use cap_audit::AuditReport;
use cap_machine::Why;
use cap_model::{Edge, EdgeTable, Spec};
use itoa::Buffer;
use policy_text::{Names, write_edge, write_edges};
use step_text::write_step_lines;

fn space_before(name: &[u8]) -> &[u8]
    ensures { result.now ≡ space_before name.now }
{
    if name.is_empty() { b"" } else { b" " }
}

/// Writes the line of a fault to an open channel. After a failure the channel has a front of it.
pub fn write_fault<O: Outputs>(file: &[u8], fault: &InputFault, out: &mut O, channel: u8) -> Written
    requires { IsOpen (O.sink out.old) channel }
    ensures { Writes result channel (fault_line file.now fault.now) (O.sink out.old) (O.sink out.new) (O.faults out.old)
        (O.faults out.new) }
{
    let (word, title) = (fault.code.word().as_bytes(), fault.code.title().as_bytes());
    let mut to = Writer::new(out, channel);
    write_place(file, fault.first, fault.end, &mut to);
    write_code(word, title, fault.name.as_bytes(), &mut to);
    to.flush()
}

/// Writes the place of a fault in a file, and a colon behind it.
pub fn write_place<O: Outputs>(file: &[u8], first: u64, end: u64, to: &mut Writer<O>)
    ensures { Says to.old (place_text file.now first end) to.new }
{
    let (mut front, mut back) = (Buffer::new(), Buffer::new());
    let first = front.format(first).as_bytes();
    let end = back.format(end).as_bytes();
    to.texts(&[file, b":", first, b"-", end, b": "]);
}

/// Writes the word and the title of a fault's code, the name that it speaks of, and a line feed.
pub fn write_code<O: Outputs>(word: &[u8], title: &[u8], name: &[u8], to: &mut Writer<O>)
    ensures { Says to.old (code_text word.now title.now name.now) to.new }
{
    let space = space_before(name);
    to.texts(&[word, b" ", title, space, name, b"\n"]);
}

fn write_have<O: Outputs>(edge: &Option<Edge>, names: &Names, to: &mut Writer<O>)
    ensures { Says to.old (have_line names.now edge.now) to.new }
{
    if let Some(edge) = edge {
        write_edge(b"have ", edge, names, to);
    }
}

fn write_haves<O: Outputs>(have: &[Option<Edge>], names: &Names, to: &mut Writer<O>)
    ensures { Says to.old (flat_map (have_line names.now) have.now) to.new }
{
    for edge in have {
        write_have(edge, names, to);
    }
}

/// Writes that a rule fails, and the edges that show it.
pub fn write_refusal<O: Outputs>(
    rule: u8,
    have: &[Option<Edge>],
    lack: &Edge,
    names: &Names,
    out: &mut O,
    channel: u8,
) -> Written
    requires { IsOpen (O.sink out.old) channel }
    ensures { Writes result channel (refusal_text names.now rule have.now lack.now) (O.sink out.old) (O.sink out.new)
        (O.faults out.old) (O.faults out.new) }
{
    let mut digits = Buffer::new();
    let mut to = Writer::new(out, channel);
    to.texts(&[b"no V", digits.format(rule).as_bytes(), b"\n"]);
    write_haves(have, names, &mut to);
    write_edge(b"lack ", lack, names, &mut to);
    to.flush()
}

/// Writes how many steps were made, and the edges of the last state.
pub fn write_run<O: Outputs>(
    count: usize,
    edges: &EdgeTable,
    names: &Names,
    out: &mut O,
    channel: u8,
) -> Written
    requires { IsOpen (O.sink out.old) channel }
    ensures { Writes result channel (run_text names.now count edges.now) (O.sink out.old) (O.sink out.new) (O.faults out.old)
        (O.faults out.new) }
{
    let mut digits = Buffer::new();
    let mut to = Writer::new(out, channel);
    to.texts(&[b"ok ", digits.format(count).as_bytes(), b" steps\n"]);
    write_edges(edges, names, &mut to);
    to.flush()
}

/// The word of an answer of the table, with a space behind it where a number follows, and the number.
fn why_parts(why: Why) -> (&'static str, Option<u64>)
    ensures word { result.0.now ≡ (why_of why).0 }
    ensures number { result.1 ≡ (why_of why).1 }
{
    match why {
        Why::Waiting => ("Waiting", None),
        Why::NoRoot => ("NoRoot", None),
        Why::NoPending => ("NoPending", None),
        Why::NoGrant => ("NoGrant", None),
        Why::NoCap(n) => ("NoCap ", Some(n)),
        Why::WrongKind(n) => ("WrongKind ", Some(n)),
        Why::NoRight(n) => ("NoRight ", Some(n)),
        Why::SamePeer => ("SamePeer", None),
        Why::PeerWaiting => ("PeerWaiting", None),
        Why::PeerNoRoot => ("PeerNoRoot", None),
        Why::PeerNoCap(n) => ("PeerNoCap ", Some(n)),
        Why::PeerWrongKind(n) => ("PeerWrongKind ", Some(n)),
        Why::PeerNoRight(n) => ("PeerNoRight ", Some(n)),
        Why::OtherEndpoint => ("OtherEndpoint", None),
    }
}

/// The decimal text of a number, where there is one.
fn number_text(number: Option<u64>, buffer: &mut Buffer) -> &[u8]
    ensures { result.now ≡ number_text number }
{
    match number {
        Some(number) => buffer.format(number).as_bytes(),
        None => b"",
    }
}

/// Writes that a step is illegal, and why.
pub fn write_illegal<O: Outputs>(number: u64, why: Why, out: &mut O, channel: u8) -> Written
    requires { IsOpen (O.sink out.old) channel }
    ensures { Writes result channel (illegal_text number why) (O.sink out.old) (O.sink out.new) (O.faults out.old)
        (O.faults out.new) }
{
    let (mut digits, mut buffer) = (Buffer::new(), Buffer::new());
    let (word, named) = why_parts(why);
    let mut to = Writer::new(out, channel);
    to.texts(&[
        b"illegal ",
        digits.format(number).as_bytes(),
        b" ",
        word.as_bytes(),
        number_text(named, &mut buffer),
        b"\n",
    ]);
    to.flush()
}

/// Writes how many edges runs reach and how many steps show them, the edges, and the steps.
pub fn write_report<O: Outputs>(
    report: &AuditReport,
    spec: &Spec,
    names: &Names,
    out: &mut O,
    channel: u8,
) -> Written
    requires { IsOpen (O.sink out.old) channel }
    ensures { Writes result channel (report_text names.now spec.now report.now) (O.sink out.old) (O.sink out.new)
        (O.faults out.old) (O.faults out.new) }
{
    let (mut edges, mut steps) = (Buffer::new(), Buffer::new());
    let mut to = Writer::new(out, channel);
    to.texts(&[
        b"reach ",
        edges.format(report.edges.len()).as_bytes(),
        b" edges ",
        steps.format(report.steps.len()).as_bytes(),
        b" steps\n",
    ]);
    write_edges(&report.edges, names, &mut to);
    write_step_lines(spec, report.steps.as_slice(), &mut to);
    to.flush()
}
