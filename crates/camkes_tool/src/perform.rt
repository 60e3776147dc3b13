ghost use Rattle.arch_compile.specs.BuildTexts.{AreUnbegun};
ghost use Rattle.cam_io.specs.Scripts.{Acts};
ghost use Rattle.cam_io.specs.Sinks.{Writes};
ghost use Rattle.camkes_tool.specs.Answers.{script};
ghost use Rattle.camkes_tool.specs.Lines.{fault_line, read_fault_line};

use crate::{Answer, write_generated};
use arch_compile::write_texts;
use cam_base::Fault;
use cam_io::{Outputs, Writer, Written, write_all};
use command_words::usage_line;
use itoa::Buffer;
use source_commands::write_listing;
use text_commands::{write_code, write_fault as write_refusal, write_place};

/// Does what the answer says. Takes no memory.
pub fn perform<O: Outputs>(answer: &Answer, out: &mut O) -> Written
    requires { AreUnbegun (O.sink out.old) }
    ensures { Acts (script answer.now) result (O.sink out.old) (O.sink out.new) (O.faults out.old) (O.faults out.new) }
{
    match answer {
        Answer::Compiled { names, build } => write_texts(names, build, out),
        Answer::Listed { listing } => write_listing(listing, out, 0),
        Answer::Explained { answer } => write_all(out, 0, answer.text()),
        Answer::Generated { summary } => write_generated(*summary, out, 0),
        Answer::Told { outcome } => outcome.write(out, 0),
        Answer::Faulted { file, fault } => write_fault(out, file.as_bytes(), fault),
        Answer::Refused { file, fault } => write_refusal(file.as_bytes(), fault, out, 1),
        Answer::Usage => write_all(out, 1, usage_line()),
        Answer::ReadFault { file } => write_read_fault(out, file.as_bytes()),
        Answer::NoMemory => write_all(out, 1, b"no memory\n"),
    }
}

/// Writes the line of a fault of the source.
fn write_fault<O: Outputs>(out: &mut O, file: &[u8], fault: &Fault) -> Written
    ensures { Writes result 1 (fault_line file.now fault.now)
        (O.sink out.old) (O.sink out.new) (O.faults out.old) (O.faults out.new) }
{
    let mut digits = Buffer::new();
    let number = digits.format(fault.code.number()).as_bytes();
    let title = fault.code.title().as_bytes();
    let mut to = Writer::new(out, 1);
    write_place(file, fault.place.first, fault.place.end, &mut to);
    to.text(b"E");
    write_code(number, title, fault.name.as_bytes(), &mut to);
    to.flush()
}

fn write_read_fault<O: Outputs>(out: &mut O, file: &[u8]) -> Written
    ensures { Writes result 1 (read_fault_line file.now) (O.sink out.old) (O.sink out.new) (O.faults out.old) (O.faults out.new) }
{
    let mut to = Writer::new(out, 1);
    to.texts(&[b"read fault ", file, b"\n"]);
    to.flush()
}
