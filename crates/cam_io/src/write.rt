ghost use Rattle.cam_io.specs.Sinks.{IsOpen, Writes};
ghost use Rattle.std.specs.Prelude.{◌≡◌, [], IsOk};

use crate::{Outputs, Written};

/// Writes all the bytes to an open channel. After a failure the channel has a front of them. Empty bytes are written
/// without a call. Takes no memory.
pub fn write_all<O: Outputs>(out: &mut O, channel: u8, bytes: &[u8]) -> Written
    requires { IsOpen (O.sink out.old) channel }
    ensures writes { Writes result channel bytes.now (O.sink out.old) (O.sink out.new) (O.faults out.old) (O.faults out.new) }
    ensures empty { bytes.now ≡ [] → IsOk result }
    ensures quiet { bytes.now ≡ [] → out.new ≡ out.old }
{
    let mut done = 0;
    while done < bytes.len() {
        done += out.write(channel, &bytes[done..])?;
    }
    Ok(())
}
