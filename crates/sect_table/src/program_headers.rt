//! The program headers of a file, one after another.

ghost use Rattle.sect_table.specs.Classes.{header_length};
ghost use Rattle.std.specs.Iterator.{YieldsFirst, item_count};
ghost use Rattle.std.specs.Prelude.{◌≡◌, ◌<◌, ◌≤◌, ◌+◌, ◌*◌, length, None};

use crate::class::Class;
use crate::file_header::FileHeader;
use crate::program_header::ProgramHeader;

/// So many program headers of a file, from one on.
#[derive(Drop)]
pub struct ProgramHeaders<'a> {
    class: Class,
    bytes: &'a [u8],
    /// The number of the first, and where it begins.
    number: u64,
    first: usize,
    left: usize,
    ghost within: { first + left * header_length class ≤ length bytes.now },
    ghost few: { number + left < 65536 },
}

impl<'a> ProgramHeaders<'a> {
    ghost use Rattle.sect_table.specs.Faults.{table_fault};
    ghost use Rattle.sect_table.specs.ElfHeaders.{headers};
    ghost use Rattle.sect_table.specs.HeadersLeft.{headers_left};

    /// All program headers of a file of that class.
    #[tactic(auto, using(crate::proofs::ElfTables::tables))]
    pub fn of(class: Class, bytes: &'a [u8]) -> ProgramHeaders<'a>
        requires { table_fault class bytes.now ≡ None }
        ensures headers { headers_left result ≡ headers class bytes.entry.now }
        ensures file { result.bytes.now ≡ bytes.entry.now }
    {
        let header = FileHeader::of(class, bytes);
        let first = if header.count == 0 {
            0
        } else {
            header.table as usize
        };
        ProgramHeaders {
            class,
            bytes,
            number: 0,
            first,
            left: header.count as usize,
        }
    }
}

impl ProgramHeaders<'_> {
    /// The length of the file.
    pub fn file_length(&self) -> u64
        ensures { result ≡ length self.now.bytes.now }
    {
        self.bytes.len() as u64
    }
}

impl<'a> Iterator for ProgramHeaders<'a> {
    ghost use Rattle.sect_table.specs.HeadersLeft.{headers_left};

    type Item = ProgramHeader;

    ghost next_gives = { YieldsFirst headers_left };

    ghost remaining = { item_count headers_left };

    #[tactic(auto, using(crate::proofs::Heads::heads))]
    fn next(&mut self) -> Option<ProgramHeader> {
        if self.left == 0 {
            return None;
        }
        let header = ProgramHeader::of(self.class, self.bytes, self.number, self.first);
        self.number += 1;
        self.first += self.class.header_length();
        self.left -= 1;
        Some(header)
    }
}
