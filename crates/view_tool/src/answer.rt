//! What is found, and how it is written.

ghost use Rattle.cam_io.specs.Sinks.{Writes};
ghost use Rattle.view_tool.specs.Lines.{usage};
ghost use Rattle.view_tool.specs.Words.{channel_of, status_of, text_of};
ghost use Rattle.view_tool.specs.declared.answer.Answer.TheVariants as answers;
ghost use Rattle.std.specs.Prelude.{◌≡◌, IfOk, OnErr};

use cam_base::{List, Made, NoMemory};
use cam_io::{Outputs, Writer, Written, write_all};

/// What is found, before anything is written.
#[derive(Drop)]
pub enum Answer {
    /// What was asked for.
    Shown(List<u8>),
    /// A fault, as editors read it.
    Faulty(List<u8>),
    /// What stands in the way.
    Refused(List<u8>),
    /// Nothing flows.
    NoFlow,
    /// The words ask for nothing.
    Usage,
    /// A read failed; the line that says so.
    ReadFault(List<u8>),
    /// Want of memory.
    NoMemory,
}

impl Answer {
    /// What is shown.
    pub fn shown(text: Made<List<u8>>) -> Answer
        ensures ok { IfOk text (λ t. result ≡ answers.Shown t) }
        ensures none { OnErr text (result ≡ answers.NoMemory) }
    {
        match text {
            Ok(text) => Answer::Shown(text),
            Err(NoMemory) => Answer::NoMemory,
        }
    }

    /// A fault.
    pub fn faulty(text: Made<List<u8>>) -> Answer
        ensures ok { IfOk text (λ t. result ≡ answers.Faulty t) }
        ensures none { OnErr text (result ≡ answers.NoMemory) }
    {
        match text {
            Ok(text) => Answer::Faulty(text),
            Err(NoMemory) => Answer::NoMemory,
        }
    }

    /// What stands in the way.
    pub fn refused(text: Made<List<u8>>) -> Answer
        ensures ok { IfOk text (λ t. result ≡ answers.Refused t) }
        ensures none { OnErr text (result ≡ answers.NoMemory) }
    {
        match text {
            Ok(text) => Answer::Refused(text),
            Err(NoMemory) => Answer::NoMemory,
        }
    }

    /// A failed read.
    pub fn read_fault(text: Made<List<u8>>) -> Answer
        ensures ok { IfOk text (λ t. result ≡ answers.ReadFault t) }
        ensures none { OnErr text (result ≡ answers.NoMemory) }
    {
        match text {
            Ok(text) => Answer::ReadFault(text),
            Err(NoMemory) => Answer::NoMemory,
        }
    }

    /// The program's status.
    pub fn status(&self) -> u8
        ensures { result ≡ status_of self.now }
    {
        match self {
            Answer::Shown(_) => 0,
            Answer::Faulty(_) | Answer::Refused(_) => 1,
            Answer::Usage => 2,
            Answer::NoFlow => 3,
            Answer::ReadFault(_) => 4,
            Answer::NoMemory => 6,
        }
    }

    /// Writes what is found. Takes no memory.
    pub fn write<O: Outputs>(&self, out: &mut O) -> Written
        ensures { Writes result (channel_of self.now) (text_of self.now) (O.sink out.old) (O.sink out.new) (O.faults out.old)
            (O.faults out.new) }
    {
        match self {
            Answer::Shown(text) | Answer::Faulty(text) => write_all(out, 0, text.as_slice()),
            Answer::Refused(text) | Answer::ReadFault(text) => write_all(out, 1, text.as_slice()),
            Answer::NoFlow => write_all(out, 0, b"no flow\n"),
            Answer::Usage => write_usage(out),
            Answer::NoMemory => write_all(out, 1, b"no memory\n"),
        }
    }
}

fn write_usage<O: Outputs>(out: &mut O) -> Written
    ensures { Writes result 1 usage (O.sink out.old) (O.sink out.new) (O.faults out.old) (O.faults out.new) }
{
    let mut to = Writer::new(out, 1);
    to.texts(&[
        b"usage: camkes_view fault [LINE] | lint ROOT | graph POLICY | picture ROOT | overview ROOT | reasons ROOT",
        b" | table ROOT LABEL | page ROOT | flow POLICY FROM TO | flows POLICY\n",
    ]);
    to.flush()
}
