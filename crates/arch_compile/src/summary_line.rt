ghost use Rattle.arch_compile.specs.Summary.{summary_line};
ghost use Rattle.cam_io.specs.Saying.{Says};

use crate::Summary;
use cam_io::{Outputs, Writer};
use itoa::Buffer;

/// Writes the line of a summary. Takes no memory.
pub fn write_summary<O: Outputs>(summary: Summary, to: &mut Writer<O>)
    ensures { Says to.old (summary_line summary) to.new }
{
    to.texts(&[
        b"compiled ",
        Buffer::new().format(summary.domains).as_bytes(),
        b" domains ",
        Buffer::new().format(summary.threads).as_bytes(),
        b" threads ",
        Buffer::new().format(summary.connections).as_bytes(),
        b" connections ",
        Buffer::new().format(summary.objects).as_bytes(),
        b" objects ",
        Buffer::new().format(summary.capabilities).as_bytes(),
        b" capabilities ",
        Buffer::new().format(summary.edges).as_bytes(),
        b" edges\n",
    ]);
}
