//! The map of what is compiled, as text.

ghost use Rattle.arch_compile.specs.Maps.{build_map};
ghost use Rattle.cam_io.specs.Sinks.{IsOpen, Writes};

use crate::Build;
use cam_io::{Outputs, Writer, Written};
use system_spec::{MapNames, write_map as write_lines};

/// Writes the map of a build to an open channel, by the names of its source. After a failure the channel has a front of it. Takes
/// no memory.
pub fn write_map<O: Outputs>(build: &Build, out: &mut O, channel: u8) -> Written
    requires { IsOpen (O.sink out.old) channel }
    ensures { Writes result channel (build_map build.now) (O.sink out.old) (O.sink out.new) (O.faults out.old)
        (O.faults out.new) }
{
    let names = MapNames {
        source: &build.meaning.source,
        flat: &build.meaning.flat,
        spec: &build.spec,
    };
    let mut to = Writer::new(out, channel);
    write_lines(&names, build.map.as_slice(), &mut to);
    to.flush()
}
