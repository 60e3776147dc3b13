//! The first fault of an ELF file.

ghost use Rattle.sect_table.specs.Faults.{class_in, headers_fault, magic, table_fault};
ghost use Rattle.sect_table.specs.HeadersLeft.{headers_left};
ghost use Rattle.std.specs.List.{starts_with};
ghost use Rattle.std.specs.Prelude.{◌≡◌, nat_eq, length};

use crate::class::Class;
use crate::fault::{ElfCode, ElfFault};
use crate::file_header::FileHeader;
use crate::program_headers::ProgramHeaders;

fn has_magic(bytes: &[u8]) -> bool
    ensures { result ≡ starts_with nat_eq bytes.now magic }
{
    bytes.starts_with(b"\x7fELF")
}

/// The class of a file, or the first fault that stands before it is known.
pub fn read_class(bytes: &[u8]) -> Result<Class, ElfFault>
    ensures { result ≡ class_in bytes.now }
{
    if !has_magic(bytes) {
        return Err(ElfFault {
            code: ElfCode::Magic,
            first: 0,
            end: 4,
        });
    }
    if bytes.len() < 6 {
        return Err(ElfFault::short(bytes.len() as u64));
    }
    Class::of(bytes[4], bytes[5]).ok_or(ElfFault {
        code: ElfCode::Class,
        first: 4,
        end: 6,
    })
}

/// The fault of the file's fields and of the program headers' places.
pub fn table_fault(class: Class, bytes: &[u8]) -> Option<ElfFault>
    ensures { result ≡ table_fault class bytes.now }
{
    let length = bytes.len() as u64;
    if bytes.len() < class.fields_end() {
        return Some(ElfFault::short(length));
    }
    let header = FileHeader::of(class, bytes);
    if header.is_of_another_length(class) {
        let first = class.length_at();
        return Some(ElfFault {
            code: ElfCode::Size,
            first,
            end: first + 2,
        });
    }
    if header.is_past(length, class) {
        return Some(ElfFault::short(length));
    }
    None
}

/// The first fault of program headers.
pub fn headers_fault(headers: ProgramHeaders) -> Option<ElfFault>
    ensures { result ≡ headers_fault (length headers.entry.bytes.now) (headers_left headers.entry) }
{
    let length = headers.file_length();
    for header in headers {
        if let Some(fault) = header.fault(length) {
            return Some(fault);
        }
    }
    None
}
