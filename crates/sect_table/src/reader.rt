//! The reader of section tables.

ghost use Rattle.sect_table.specs.Headers.{header_of};
ghost use Rattle.sect_table.specs.Tables.{IsRead, bad_between, bad_line, section_at};
ghost use Rattle.sect_table.specs.TablesRead.{AreSectionsRead};
ghost use Rattle.std.specs.Prelude.{◌≡◌, IfOk};
ghost use Rattle.cam_base.specs.Fields.{spaced_fields};
ghost use Rattle.cam_base.specs.LinesLeft.{line_of, lines_left};

use crate::header::read_header;
use crate::image::{Header, Image, Section};
use crate::section::read_section;
use cam_base::{Code, Fault, Line, Lines, List, Made, Name, Place, Refused, Text, spaced_fields};
use std::alloc::Global;

/// The most sections of a table.
pub const MAX_SECTIONS: usize = 256;

/// What is wrong between two bytes of a table. Takes no memory.
fn bad_between(alloc: Global, file: u32, first: u64, end: u64) -> Fault
    ensures { result ≡ bad_between file first end }
{
    Fault {
        code: Code::BadSections,
        place: Place { file, first, end },
        name: Text::empty(alloc),
    }
}

fn bad_line(alloc: Global, file: u32, line: Line) -> Fault
    ensures { result ≡ bad_line file (line_of line.entry) }
{
    bad_between(alloc, file, line.first, line.first + line.text.len() as u64)
}

/// The section of a line, where so many stand before it; none where it spells none that is sound, or they are too many.
fn section_at(alloc: Global, before: usize, line: Line) -> Made<Option<Section>>
    ensures { IfOk result (λ s. s ≡ section_at before (line_of line.entry)) }
{
    if before >= MAX_SECTIONS {
        return Ok(None);
    }
    let fields = spaced_fields(alloc, line.text)?;
    read_section(alloc, fields.as_slice())
}

/// The sections of lines, or the first of them at fault.
fn read_all(alloc: Global, file: u32, lines: Lines) -> Result<List<Section>, Refused<Fault>>
    ensures { AreSectionsRead file (lines_left lines.entry) result }
{
    let mut sections = List::new(alloc);
    for line in lines {
        match section_at(alloc, sections.len(), line)? {
            Some(section) => sections.push(section)?,
            None => return Err(Refused::Fault(bad_line(alloc, file, line))),
        }
    }
    Ok(sections)
}

/// The header of a line, none where it spells none.
fn header_at(alloc: Global, line: Line) -> Made<Option<Header>>
    ensures { IfOk result (λ h. h ≡ header_of (spaced_fields line.entry.text.now)) }
{
    let fields = spaced_fields(alloc, line.text)?;
    Ok(read_header(fields.as_slice()))
}

/// The image that a table says, or the first line at fault. `specs/Tables.antt` says which.
///
/// # Errors
///
/// The first line at fault, at its place in the file of that number, or want of memory.
pub fn read_sections(
    alloc: Global,
    file: u32,
    name: &Name,
    bytes: &[u8],
) -> Result<Image, Refused<Fault>>
    ensures { IsRead file name.now bytes.now result }
{
    let mut lines = Lines::of(bytes);
    let Some(line) = lines.next() else {
        let end = bytes.len() as u64;
        return Err(Refused::Fault(bad_between(alloc, file, end, end)));
    };
    let Some(header) = header_at(alloc, line)? else {
        return Err(Refused::Fault(bad_line(alloc, file, line)));
    };
    let sections = read_all(alloc, file, lines)?;
    Ok(Image {
        name: name.copy(alloc)?,
        arch: header.arch,
        entry: header.entry,
        sections,
    })
}
