//! The reader of ELF files, handed on.
//!
//! It stands in `sect_table`, with the section tables that are made of what it reads.
#![tactic(auto)]

pub use sect_table::{ElfCode, ElfFault, read_elf};
