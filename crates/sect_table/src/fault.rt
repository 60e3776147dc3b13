//! The faults of ELF files.

ghost use Rattle.sect_table.specs.Codes.{title_of, word_of};
ghost use Rattle.sect_table.specs.Faults.{short};
ghost use Rattle.std.specs.Prelude.{◌≡◌};

/// What can be wrong with an ELF file, one variant a title; the order is that of the numbers.
#[derive(Clone, Copy, Debug, PartialEq, Eq)]
pub enum ElfCode {
    /// Another beginning than that of ELF files.
    Magic,
    /// Neither 32 nor 64 bits, or not little endian.
    Class,
    /// The end of the file before the end of what it speaks of.
    Short,
    /// Program headers of another length, or sizes that don't fit.
    Size,
    /// File bytes at another place of a page than in memory.
    Align,
    /// More sections than a table may have.
    Limit,
}

impl ElfCode {
    /// The letter and the number, as the table of codes gives them.
    pub fn word(self) -> &'static str
        ensures { result.now ≡ word_of self }
    {
        match self {
            ElfCode::Magic => "L1",
            ElfCode::Class => "L2",
            ElfCode::Short => "L3",
            ElfCode::Size => "L4",
            ElfCode::Align => "L5",
            ElfCode::Limit => "L6",
        }
    }

    /// The title, as the table of codes gives it.
    pub fn title(self) -> &'static str
        ensures { result.now ≡ title_of self }
    {
        match self {
            ElfCode::Magic => "Magic",
            ElfCode::Class => "Class",
            ElfCode::Short => "Short",
            ElfCode::Size => "Size",
            ElfCode::Align => "Align",
            ElfCode::Limit => "Limit",
        }
    }
}

/// A fault of an ELF file, from its first byte to the byte past its last.
#[derive(Clone, Copy, Debug, PartialEq, Eq)]
pub struct ElfFault {
    pub code: ElfCode,
    pub first: u64,
    pub end: u64,
}

impl ElfFault {
    /// A file of that length that ends too early.
    pub fn short(length: u64) -> ElfFault
        ensures { result ≡ short length }
    {
        ElfFault {
            code: ElfCode::Short,
            first: length,
            end: length,
        }
    }
}
