//! The classes of ELF files.

ghost use Rattle.sect_table.specs.Classes.{arch_of, class_of, fields_end, header_length, length_at};
ghost use Rattle.std.specs.Prelude.{◌≡◌};

use cap_model::Arch;

/// Whether the addresses of an ELF file have 32 or 64 bits.
#[derive(Clone, Copy)]
pub enum Class {
    Bits32,
    Bits64,
}

impl Class {
    /// The class that bytes 4 and 5 of a file say, none where they say none.
    pub fn of(class: u8, order: u8) -> Option<Class>
        ensures { result ≡ class_of class order }
    {
        if order != 1 {
            return None;
        }
        match class {
            1 => Some(Class::Bits32),
            2 => Some(Class::Bits64),
            _ => None,
        }
    }

    /// The architecture of an image of this class.
    pub fn arch(self) -> Arch
        ensures { result ≡ arch_of self }
    {
        match self {
            Class::Bits32 => Arch::Arm11,
            Class::Bits64 => Arch::Aarch64,
        }
    }

    /// Where the length of a program header stands in a file.
    pub fn length_at(self) -> u64
        ensures { result ≡ length_at self }
    {
        match self {
            Class::Bits32 => 42,
            Class::Bits64 => 54,
        }
    }

    /// The end of the fields of a file.
    pub fn fields_end(self) -> usize
        ensures { result ≡ fields_end self }
    {
        match self {
            Class::Bits32 => 46,
            Class::Bits64 => 58,
        }
    }

    /// The length of a program header.
    pub fn header_length(self) -> usize
        ensures { result ≡ header_length self }
    {
        match self {
            Class::Bits32 => 32,
            Class::Bits64 => 56,
        }
    }
}
