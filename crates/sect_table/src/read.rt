//! The reader of ELF files.

ghost use Rattle.sect_table.specs.Elf.{IsRead};
ghost use Rattle.sect_table.specs.Faults.{headers_fault, is_aligned, is_sized};
ghost use Rattle.sect_table.specs.HeadersLeft.{headers_left};
ghost use Rattle.sect_table.specs.ElfSections.{sections_of_used, zeros_behind};
ghost use Rattle.sect_table.specs.SectionsRead.{AreSectionsRead, sound_class};
ghost use Rattle.std.specs.Prelude.{◌≡◌, ◌++◌, length, true, None, OnOk};

use crate::class::Class;
use crate::fault::{ElfCode, ElfFault};
use crate::file_header::FileHeader;
use crate::first_fault::{headers_fault, read_class, table_fault};
use crate::program_header::ProgramHeader;
use crate::program_headers::ProgramHeaders;
use crate::{Image, MAX_SECTIONS, Section};
use cam_base::{List, Made, Name, Refused};
use std::alloc::Global;

/// Adds the zeros behind the file bytes of a program header.
fn add_zeros_behind(alloc: Global, header: ProgramHeader, sections: &mut List<Section>) -> Made<()>
    requires { is_sized header ≡ true }
    ensures { OnOk result (sections.new ≡ sections.old ++ zeros_behind header) }
{
    let first = header.pages_end();
    if first < header.memory_end() {
        sections.push(header.zeros(alloc, first)?)?;
    }
    Ok(())
}

/// Adds the sections of a program header that is used.
fn add_sections(alloc: Global, header: ProgramHeader, sections: &mut List<Section>) -> Made<()>
    requires sized { is_sized header ≡ true }
    requires aligned { is_aligned header ≡ true }
    ensures { OnOk result (sections.new ≡ sections.old ++ sections_of_used header) }
{
    if header.file == 0 {
        return sections.push(header.zeros(alloc, header.first_page())?);
    }
    sections.push(header.loaded(alloc)?)?;
    add_zeros_behind(alloc, header, sections)
}

/// The sections of program headers that have no fault, unless they are more than a table may have.
fn sections_of(alloc: Global, headers: ProgramHeaders) -> Result<List<Section>, Refused<ElfFault>>
    requires { headers_fault (length headers.bytes.now) (headers_left headers) ≡ None }
    ensures { AreSectionsRead (headers_left headers.entry) result }
{
    let mut sections = List::new(alloc);
    for header in headers {
        if header.is_used() {
            add_sections(alloc, header, &mut sections)?;
        }
        if sections.len() > MAX_SECTIONS {
            return Err(Refused::Fault(ElfFault {
                code: ElfCode::Limit,
                first: 0,
                end: 0,
            }));
        }
    }
    Ok(sections)
}

/// The class of a file, where neither its fields nor its program headers have a fault.
fn sound_class(bytes: &[u8]) -> Result<Class, ElfFault>
    ensures { result ≡ sound_class bytes.now }
{
    let class = read_class(bytes)?;
    if let Some(fault) = table_fault(class, bytes) {
        return Err(fault);
    }
    match headers_fault(ProgramHeaders::of(class, bytes)) {
        Some(fault) => Err(fault),
        None => Ok(class),
    }
}

/// The image of an ELF file, under a name. `specs/Elf.antt` says which, `specs/Faults.antt` which fault is the first.
///
/// # Errors
///
/// The first fault of the file, or want of memory.
pub fn read_elf(alloc: Global, name: &Name, bytes: &[u8]) -> Result<Image, Refused<ElfFault>>
    ensures { IsRead name.now bytes.now result }
{
    let class = match sound_class(bytes) {
        Ok(class) => class,
        Err(fault) => return Err(Refused::Fault(fault)),
    };
    let sections = sections_of(alloc, ProgramHeaders::of(class, bytes))?;
    Ok(Image {
        name: name.copy(alloc)?,
        arch: class.arch(),
        entry: FileHeader::of(class, bytes).entry,
        sections,
    })
}
