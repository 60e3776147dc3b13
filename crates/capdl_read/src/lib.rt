//! The reader of capDL texts: bytes to the one spec, which keeps what every spec keeps, or to the first fault.
//!
//! Nothing here writes a text, takes a step or looks at a policy. What is read, and when which fault stands, are
//! definitions of `capdl_text`: `specs/Texts.antt` there. The rounds in which faults are looked at are functions of their
//! own: tokens by the lexer of `capdl_text`, the grammar by a function for each of its lines, the faults of the tree in
//! `check.rt`, what its names hold in `held.rt`, and the spec in `build.rt`.
#![tactic(auto)]

mod build;
mod check;
mod codes;
mod cursor;
mod field;
mod first;
mod held;
mod keyed;
mod kind;
mod known;
mod laws;
mod limit;
mod line;
mod object;
mod parse;
mod range;
mod reader;
mod slot;
mod token;
mod twice;

pub use capdl_text::{Field, FieldTable, fields};
pub use laws::texts_are_kept;
pub use parse::read_tree;
pub use reader::read_spec;
