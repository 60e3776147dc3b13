//! Parsers: from the tokens of a file to its trees.
//!
//! The grammar stands in `adl_ast`. Nothing here reads bytes but to know a word, and nothing looks a name up. Each reader takes
//! the cursor, and answers and leaves exactly what the reader of its form gives (`specs/Reads.antt`). What a public parser
//! answers stands in `specs/Parts.antt`, the fault of a wrong token in `specs/Faults.antt`, and what `parse_file` answers in
//! `specs/Files.antt`.
#![tactic(auto)]

mod assembly;
mod component;
mod composition;
mod configuration;
mod cursor;
mod dotted;
mod file;
mod import;
mod laws;
mod part;
mod procedure;
mod repeated;
mod terminal;
mod typed;
mod value;

pub use file::parse_file;
pub use laws::{file_answers_are_one, part_faults_are_one};
pub use part::{parse_assembly, parse_composition, parse_configuration, parse_value};
