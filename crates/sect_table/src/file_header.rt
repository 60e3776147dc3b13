//! The header of an ELF file.

ghost use Rattle.sect_table.specs.Classes.{fields_end};
ghost use Rattle.sect_table.specs.Faults.{is_of_another_length, is_past};
ghost use Rattle.sect_table.specs.ElfHeaders.{file_header};
ghost use Rattle.std.specs.Prelude.{◌≡◌, ◌<◌, ◌≤◌, length};

use crate::class::Class;
use crate::field::{ends_within, field};

/// What the header of a file says of its program headers: where they begin, the length of each, and how many they are.
#[derive(Clone, Copy)]
pub struct FileHeader {
    /// The address of the first instruction.
    pub entry: u64,
    pub table: u64,
    pub length: u64,
    pub count: u64,
}

impl FileHeader {
    /// The header of a file of that class.
    pub fn of(class: Class, bytes: &[u8]) -> FileHeader
        requires { fields_end class ≤ length bytes.now }
        ensures header { result ≡ file_header class bytes.now }
        ensures few { result.count < 65536 }
    {
        match class {
            Class::Bits32 => FileHeader {
                entry: field(bytes, 24, 4),
                table: field(bytes, 28, 4),
                length: field(bytes, 42, 2),
                count: field(bytes, 44, 2),
            },
            Class::Bits64 => FileHeader {
                entry: field(bytes, 24, 8),
                table: field(bytes, 32, 8),
                length: field(bytes, 54, 2),
                count: field(bytes, 56, 2),
            },
        }
    }

    /// Whether there are program headers, of another length than the class's.
    pub fn is_of_another_length(self, class: Class) -> bool
        ensures { result ≡ is_of_another_length class self }
    {
        self.count != 0 && self.length != class.header_length() as u64
    }

    /// Whether there are program headers, and they end past the end of a file of that length.
    pub fn is_past(self, length: u64, class: Class) -> bool
        requires { self.count < 65536 }
        ensures { result ≡ is_past length class self }
    {
        self.count != 0
            && !ends_within(
                self.table,
                self.count * class.header_length() as u64,
                length,
            )
    }
}
