ghost use Rattle.cam_base.specs.Hex.{hex_text};
ghost use Rattle.cam_base.specs.Texts.{together};
ghost use Rattle.cam_io.specs.Saying.{Says};
ghost use Rattle.cap_model.specs.Canonical.{level_word, elf_field, tcb_line, paddr_field, fill_field, frame_line, entry_line};
ghost use Rattle.std.specs.List.{flat_map};
ghost use Rattle.std.specs.Prelude.{◌≡◌, [], ◌∷◌, None, Some, codes};

use cam_base::{Boxed, Text, hexadecimal};
use cam_io::{Outputs, Writer};
use cap_model::{Entry, Fill, Level, Object, Tcb};
use itoa::Buffer;

/// Writes the lines of objects, in order.
pub fn write_objects<O: Outputs>(entries: &[Entry], to: &mut Writer<O>)
    ensures { Says to.old (flat_map entry_line entries.now) to.new }
{
    for entry in entries {
        write_object(entry, to);
    }
}

fn write_object<O: Outputs>(entry: &Entry, to: &mut Writer<O>)
    ensures { Says to.old (entry_line entry.now) to.new }
{
    let name = entry.name.as_bytes();
    let mut digits = Buffer::new();
    match &entry.object {
        Object::Endpoint => to.texts(&[name, b" = ep\n"]),
        Object::Notification => to.texts(&[name, b" = notification\n"]),
        Object::CNode { bits, .. } => to.texts(&[
            name,
            b" = cnode (",
            digits.format(*bits).as_bytes(),
            b" bits)\n",
        ]),
        Object::Thread(tcb) => write_tcb(name, tcb.get(), to),
        Object::Frame { paddr, fill } => write_frame(name, *paddr, fill, to),
        Object::Pages { level, .. } => { to.texts(&[name, b" = ", level_word(level), b"\n"]) }
        Object::Irq { .. } => to.texts(&[name, b" = irq\n"]),
    }
}

fn level_word(level: &Level) -> &[u8]
    ensures { result.now ≡ level_word level.now }
{
    match level {
        Level::Global => b"pgd",
        Level::Upper => b"pud",
        Level::Directory => b"pd",
        Level::Table => b"pt",
    }
}

fn write_tcb<O: Outputs>(name: &[u8], tcb: &Tcb, to: &mut Writer<O>)
    ensures { Says to.old (tcb_line name.now tcb.now) to.new }
{
    write_registers(name, tcb, to);
    write_elf(&tcb.elf, to);
    let mut digits = Buffer::new();
    to.texts(&[b", prio: ", digits.format(tcb.prio).as_bytes(), b")\n"]);
}

fn write_registers<O: Outputs>(name: &[u8], tcb: &Tcb, to: &mut Writer<O>)
    ensures { Says to.old (together (name.now ∷ codes " = tcb (addr: " ∷ hex_text tcb.now.addr ∷ codes ", ip: "
        ∷ hex_text tcb.now.ip ∷ codes ", sp: " ∷ hex_text tcb.now.sp ∷ [])) to.new }
{
    let (mut addr, mut ip, mut sp) = ([0; 18], [0; 18], [0; 18]);
    to.texts(&[
        name,
        b" = tcb (addr: ",
        hexadecimal(tcb.addr, &mut addr),
        b", ip: ",
        hexadecimal(tcb.ip, &mut ip),
        b", sp: ",
        hexadecimal(tcb.sp, &mut sp),
    ]);
}

fn write_elf<O: Outputs>(elf: &Option<Text>, to: &mut Writer<O>)
    ensures { Says to.old (elf_field elf.now) to.new }
{
    match elf {
        None => {}
        Some(elf) => to.texts(&[b", elf: \"", elf.as_bytes(), b"\""]),
    }
}

fn write_frame<O: Outputs>(
    name: &[u8],
    paddr: Option<u64>,
    fill: &Option<Boxed<Fill>>,
    to: &mut Writer<O>,
)
    ensures { Says to.old (frame_line name.now paddr fill.now) to.new }
{
    match fill {
        None => write_zeros(name, paddr, to),
        Some(fill) => write_filled(name, paddr, fill.get(), to),
    }
}

fn write_zeros<O: Outputs>(name: &[u8], paddr: Option<u64>, to: &mut Writer<O>)
    ensures { Says to.old (frame_line name.now paddr None) to.new }
{
    let mut digits = [0; 18];
    match paddr {
        None => to.texts(&[name, b" = frame (4k)\n"]),
        Some(paddr) => to.texts(&[
            name,
            b" = frame (4k, paddr: ",
            hexadecimal(paddr, &mut digits),
            b")\n",
        ]),
    }
}

fn write_filled<O: Outputs>(name: &[u8], paddr: Option<u64>, fill: &Fill, to: &mut Writer<O>)
    ensures { Says to.old (frame_line name.now paddr (Some fill.now)) to.new }
{
    to.texts(&[name, b" = frame (4k"]);
    write_paddr(paddr, to);
    write_fill(fill, to);
    to.text(b")\n");
}

fn write_paddr<O: Outputs>(paddr: Option<u64>, to: &mut Writer<O>)
    ensures { Says to.old (paddr_field paddr) to.new }
{
    let mut digits = [0; 18];
    match paddr {
        None => {}
        Some(paddr) => to.texts(&[b", paddr: ", hexadecimal(paddr, &mut digits)]),
    }
}

fn write_fill<O: Outputs>(fill: &Fill, to: &mut Writer<O>)
    ensures { Says to.old (fill_field (Some fill.now)) to.new }
{
    let (mut offset, mut length, mut at) = (Buffer::new(), Buffer::new(), [0; 18]);
    to.texts(&[
        b", fill: [{",
        offset.format(fill.offset).as_bytes(),
        b" ",
        length.format(fill.length).as_bytes(),
        b" CDL_FrameFill_FileData \"",
        fill.file.as_bytes(),
        b"\" ",
        hexadecimal(fill.at, &mut at),
        b"}]",
    ]);
}
