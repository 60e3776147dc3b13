ghost use Rattle.cam_io.specs.Sinks.{IsOpen, Writes};
ghost use Rattle.camkes_tool.specs.Generated.{generated_text};

use arch_compile::{Summary, write_summary};
use cam_io::{Outputs, Writer, Written};

/// Writes the summary of a generated system, and that the checker accepts it, to an open channel. After a failure the channel
/// has a front of it. Takes no memory.
pub fn write_generated<O: Outputs>(summary: Summary, out: &mut O, channel: u8) -> Written
    requires { IsOpen (O.sink out.old) channel }
    ensures { Writes result channel (generated_text summary) (O.sink out.old) (O.sink out.new) (O.faults out.old)
        (O.faults out.new) }
{
    let mut to = Writer::new(out, channel);
    write_summary(summary, &mut to);
    to.text(b"check yes\n");
    to.flush()
}
