//! Section tables: bytes to the image of a program, or to the first line at fault; made from ELF files, and read back.
//!
//! Nothing here reads a file, looks at the section headers of an ELF file or its machine, or compares two tables. What a table
//! says and which line is at fault stands in `specs/Tables.antt`, the form of its first line in `specs/Headers.antt`, of the
//! others in `specs/Sections.antt`. Which image an ELF file is related to stands in `specs/Elf.antt`, its faults and their
//! order in `specs/Faults.antt`, the text of a table in `specs/Texts.antt`, and which images a table can say in
//! `specs/TablesBack.antt`.
#![tactic(auto)]

mod back_laws;
mod class;
mod elf_laws;
mod fault;
mod field;
mod file_header;
mod first_fault;
mod header;
mod image;
mod program_header;
mod program_headers;
mod read;
mod reader;
mod section;
mod write;

pub use back_laws::{images_have_tables, tables_are_read_back, written_is_read};
pub use elf_laws::{files_have_one_image, images_have_no_fault};
pub use fault::{ElfCode, ElfFault};
pub use image::{Header, Image, Section};
pub use read::read_elf;
pub use reader::{MAX_SECTIONS, read_sections};
pub use write::write_sections;
