//! The writer of section tables.

ghost use Rattle.cam_io.specs.Saying.{Says};
ghost use Rattle.cam_io.specs.Sinks.{IsOpen, Writes};
ghost use Rattle.sect_table.specs.Texts.{entry_end, place_word, rights_word, section_line, table_text};
ghost use Rattle.std.specs.List.{flat_map};
ghost use Rattle.std.specs.Prelude.{◌≡◌};

use crate::{Image, Section};
use cam_base::hexadecimal;
use cam_io::{Outputs, Writer, Written};
use cap_model::Arch;

/// Writes the section table of an image to an open channel. `specs/Texts.antt` has its text. After a failure, which
/// comes only where the outputs' count rose, the channel has a front of it. Takes no memory.
pub fn write_sections<O: Outputs>(image: &Image, out: &mut O, channel: u8) -> Written
    requires { IsOpen (O.sink out.old) channel }
    ensures { Writes result channel (table_text image.now) (O.sink out.old) (O.sink out.new) (O.faults out.old)
        (O.faults out.new) }
{
    let mut digits = [0; 18];
    let mut to = Writer::new(out, channel);
    to.texts(&[
        b"entry ",
        hexadecimal(image.entry, &mut digits),
        entry_end(image.arch),
    ]);
    write_lines(image.sections.as_slice(), &mut to);
    to.flush()
}

/// The architecture, unless it is the one that a table has by itself, and the end of the line.
fn entry_end<'a>(arch: Arch) -> &'a [u8]
    ensures { result.now ≡ entry_end arch }
{
    match arch {
        Arch::Arm11 => b"\n",
        Arch::Aarch64 => b" aarch64\n",
    }
}

fn rights_word(section: &Section) -> &[u8]
    ensures { result.now ≡ rights_word section.now.write }
{
    if section.write { b" RW " } else { b" R " }
}

/// Where a section begins in the file, or that it is zeros.
fn place_word(at: Option<u64>, buf: &mut [u8; 18]) -> &[u8]
    ensures { result.now ≡ place_word at }
{
    match at {
        None => b"-",
        Some(at) => hexadecimal(at, buf),
    }
}

fn write_lines<O: Outputs>(sections: &[Section], to: &mut Writer<O>)
    ensures { Says to.old (flat_map section_line sections.now) to.new }
{
    for section in sections {
        write_section(section, to);
    }
}

fn write_section<O: Outputs>(section: &Section, to: &mut Writer<O>)
    ensures { Says to.old (section_line section.now) to.new }
{
    let (mut vaddr, mut size, mut at) = ([0; 18], [0; 18], [0; 18]);
    to.texts(&[
        section.name.as_bytes(),
        b" ",
        hexadecimal(section.vaddr, &mut vaddr),
        b" ",
        hexadecimal(section.size, &mut size),
        rights_word(section),
        place_word(section.at, &mut at),
        b"\n",
    ]);
}
