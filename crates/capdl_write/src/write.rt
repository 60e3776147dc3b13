ghost use Rattle.cam_io.specs.Saying.{Says};
ghost use Rattle.cam_io.specs.Sinks.{IsOpen, Writes};
ghost use Rattle.cap_model.specs.Canonical.{arch_word, irq_line, canonical};
ghost use Rattle.std.specs.List.{flat_map};
ghost use Rattle.std.specs.Prelude.{◌≡◌};

use crate::holder::write_holders;
use crate::object::write_objects;
use cam_io::{Outputs, Writer, Written};
use cap_model::{Arch, Spec};
use itoa::Buffer;

/// Writes the text of a spec to an open channel. After a failure the channel has a front of it. Takes no memory.
pub fn write_spec<O: Outputs>(spec: &Spec, out: &mut O, channel: u8) -> Written
    requires { IsOpen (O.sink out.old) channel }
    ensures { Writes result channel (canonical spec.now) (O.sink out.old) (O.sink out.new) (O.faults out.old) (O.faults out.new) }
{
    let mut to = Writer::new(out, channel);
    to.texts(&[b"arch ", arch_word(&spec.arch), b"\n\nobjects {\n"]);
    write_objects(spec.entries.as_slice(), &mut to);
    to.text(b"}\n\ncaps {\n");
    write_holders(spec, spec.entries.as_slice(), &mut to);
    to.text(b"}\n\nirq maps {\n");
    write_irqs(spec, spec.irqs.as_slice(), &mut to);
    to.text(b"}\n");
    to.flush()
}

fn arch_word(arch: &Arch) -> &[u8]
    ensures { result.now ≡ arch_word arch.now }
{
    match arch {
        Arch::Arm11 => b"arm11",
        Arch::Aarch64 => b"aarch64",
    }
}

fn write_irqs<O: Outputs>(spec: &Spec, lines: &[(u64, u32)], to: &mut Writer<O>)
    ensures { Says to.old (flat_map (irq_line spec.now) lines.now) to.new }
{
    for line in lines {
        write_irq(spec, line, to);
    }
}

fn write_irq<O: Outputs>(spec: &Spec, line: &(u64, u32), to: &mut Writer<O>)
    ensures { Says to.old (irq_line spec.now line.now) to.new }
{
    let mut digits = Buffer::new();
    to.texts(&[
        digits.format(line.0).as_bytes(),
        b": ",
        spec.name(line.1),
        b"\n",
    ]);
}
