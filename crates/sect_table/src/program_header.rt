//! Program headers.

ghost use Rattle.sect_table.specs.Classes.{header_length};
ghost use Rattle.sect_table.specs.Faults.{header_fault, is_aligned, is_sized, is_whole};
ghost use Rattle.sect_table.specs.ElfHeaders.{program_header};
ghost use Rattle.sect_table.specs.ElfSections.{file_end, is_used, is_writable, loaded, memory_end, page_down, page_up, zeros};
ghost use Rattle.cam_base.specs.Names.{is_name};
ghost use Rattle.std.specs.Prelude.{◌≡◌, ◌≢◌, ◌+◌, ◌<◌, ◌≤◌, ◌^◌, ◌++◌, nat_lt, true, codes, decimal, length, IfOk};

use crate::Section;
use crate::class::Class;
use crate::fault::{ElfCode, ElfFault};
use crate::field::{ends_within, field};
use cam_base::{List, Made, Name};
use itoa::Buffer;
use std::alloc::Global;

/// A program header: its number, its bytes in the file, its fields.
#[derive(Clone, Copy)]
pub struct ProgramHeader {
    pub number: u64,
    /// Its first byte in the file, and the byte behind its last.
    pub first: u64,
    pub end: u64,
    pub kind: u64,
    pub offset: u64,
    pub vaddr: u64,
    /// The bytes that the file has of it, and those that it has in memory.
    pub file: u64,
    pub memory: u64,
    pub flags: u64,
}

/// A number rounded down to whole pages.
fn page_down(n: u64) -> u64
    ensures { result ≡ page_down n }
{
    n / 4096 * 4096
}

/// A number rounded up to whole pages.
fn page_up(n: u64) -> u64
    requires { page_up n < 2 ^ 64 }
    ensures { result ≡ page_up n }
{
    page_down(n + 4095)
}

/// Whether a sum, rounded up to whole pages, has no more than 64 bits.
fn pages_fit(first: u64, size: u64) -> bool
    ensures { result ≡ nat_lt (page_up (first + size)) (2 ^ 64) }
{
    match first.checked_add(size) {
        Some(end) => end <= u64::MAX - 4095,
        None => false,
    }
}

/// A word and a number.
#[tactic(auto, using(cam_base::proofs::Naming::naming))]
fn numbered(alloc: Global, word: &[u8], number: u64) -> Made<Name>
    requires name { is_name word.now ≡ true }
    requires short { length word.now ≤ 6 }
    ensures { IfOk result (λ name. name ≡ word.now ++ decimal number) }
{
    let mut buffer = Buffer::new();
    let mut bytes = List::from_slice(alloc, word)?;
    bytes.extend(buffer.format(number).as_bytes())?;
    Name::of_identifier(alloc, bytes.as_slice())
}

impl ProgramHeader {
    /// The program header of that number, which begins at a place.
    pub fn of(class: Class, bytes: &[u8], number: u64, at: usize) -> ProgramHeader
        requires { at + header_length class ≤ length bytes.now }
        ensures { result ≡ program_header class bytes.now number at }
    {
        let first = at as u64;
        match class {
            Class::Bits32 => ProgramHeader {
                number,
                first,
                end: first + 32,
                kind: field(bytes, at, 4),
                offset: field(bytes, at + 4, 4),
                vaddr: field(bytes, at + 8, 4),
                file: field(bytes, at + 16, 4),
                memory: field(bytes, at + 20, 4),
                flags: field(bytes, at + 24, 4),
            },
            Class::Bits64 => ProgramHeader {
                number,
                first,
                end: first + 56,
                kind: field(bytes, at, 4),
                offset: field(bytes, at + 8, 8),
                vaddr: field(bytes, at + 16, 8),
                file: field(bytes, at + 32, 8),
                memory: field(bytes, at + 40, 8),
                flags: field(bytes, at + 4, 4),
            },
        }
    }

    /// Whether it is one to load that has memory.
    pub fn is_used(self) -> bool
        ensures { result ≡ is_used self }
    {
        self.kind == 1 && self.memory != 0
    }

    fn is_writable(self) -> bool
        ensures { result ≡ is_writable self }
    {
        self.flags / 2 % 2 == 1
    }

    fn is_sized(self) -> bool
        ensures { result ≡ is_sized self }
    {
        self.file <= self.memory && pages_fit(self.vaddr, self.memory)
    }

    fn is_whole(self, length: u64) -> bool
        ensures { result ≡ is_whole length self }
    {
        self.file == 0 || ends_within(self.offset, self.file, length)
    }

    fn is_aligned(self) -> bool
        ensures { result ≡ is_aligned self }
    {
        self.file == 0 || self.offset % 4096 == self.vaddr % 4096
    }

    /// The first fault of the header, in a file of that length.
    pub fn fault(self, length: u64) -> Option<ElfFault>
        ensures { result ≡ header_fault length self }
    {
        if !self.is_used() {
            return None;
        }
        let (first, end) = (self.first, self.end);
        if !self.is_sized() {
            return Some(ElfFault {
                code: ElfCode::Size,
                first,
                end,
            });
        }
        if !self.is_whole(length) {
            return Some(ElfFault::short(length));
        }
        if !self.is_aligned() {
            return Some(ElfFault {
                code: ElfCode::Align,
                first,
                end,
            });
        }
        None
    }

    /// The first page of its memory.
    pub fn first_page(self) -> u64
        ensures { result ≡ page_down self.vaddr }
    {
        page_down(self.vaddr)
    }

    /// The end of its memory.
    pub fn memory_end(self) -> u64
        requires { is_sized self ≡ true }
        ensures { result ≡ memory_end self }
    {
        self.vaddr + self.memory
    }

    /// The end of the pages in which its file bytes stand.
    pub fn pages_end(self) -> u64
        requires { is_sized self ≡ true }
        ensures { result ≡ page_up (file_end self) }
    {
        page_up(self.vaddr + self.file)
    }

    /// Zeros from an address up to the end of its memory.
    pub fn zeros(self, alloc: Global, first: u64) -> Made<Section>
        requires sized { is_sized self ≡ true }
        requires low { first ≤ memory_end self }
        ensures { IfOk result (λ s. s ≡ zeros self first) }
    {
        Ok(Section {
            name: numbered(alloc, b"zero_", self.number)?,
            vaddr: first,
            size: self.memory_end() - first,
            write: self.is_writable(),
            at: None,
        })
    }

    /// The section of its file bytes.
    pub fn loaded(self, alloc: Global) -> Made<Section>
        requires sized { is_sized self ≡ true }
        requires aligned { is_aligned self ≡ true }
        requires some { self.file ≢ 0 }
        ensures { IfOk result (λ s. s ≡ loaded self) }
    {
        let first = self.first_page();
        Ok(Section {
            name: numbered(alloc, b"load_", self.number)?,
            vaddr: first,
            size: self.vaddr + self.file - first,
            write: self.is_writable(),
            at: Some(self.offset - (self.vaddr - first)),
        })
    }
}
