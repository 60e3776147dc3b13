//! Lists, boxes, texts, names, paths, places and faults; numbers as text; the lines of a text; and grammars.
//!
//! Nothing here reads a file, writes an output or knows a rule of the language or of capDL beyond its words and numbers.
//!
//! - Codes, names, paths and numbers: `specs/{Codes, Names, Paths, Numbers, Hex, Texts}.antt`.
//! - Lists made element by element, and the places of what stands in them: `specs/Gather.antt`.
//! - Lines, their fields, and faults at lines: `specs/{Lines, Fields, LineFaults}.antt`.
//! - Grammars: a form says which tokens spell which value (`specs/{Form, Spelling}.antt`); a parser reads by the next token, with
//!   exact faults (`specs/Parsed.antt`). `docs/grammars.md` is the guide.
#![tactic(auto)]

mod boxed;
mod code;
mod error;
mod field;
mod gather_laws;
mod grammar_error;
mod line;
mod line_fault;
mod list;
mod name;
mod name_bytes;
mod number;
mod part;
mod path;
mod place;
mod quotes;
mod text;
mod text_fault;
mod token;

pub use boxed::Boxed;
pub use code::Code;
pub use error::{Made, NoMemory, Refused, SourceError, Unread};
pub use field::{fields, spaced_fields};
pub use gather_laws::{numbers_are_sums, what_is_gathered_comes_from_an_element};
pub use grammar_error::{ReadError, Stop, Why};
pub use line::{Line, Lines};
pub use line_fault::refusal;
pub use list::{List, fitted};
pub use name::{BadName, Name, is_name, is_word, is_word_byte};
pub use number::{decimal, hex, hexadecimal, read_number};
pub use path::Path;
pub use place::{Fault, Place};
pub use quotes::inner;
pub use text::Text;
pub use text_fault::{TextCode, TextFault};
pub use token::{Keyword, Kind, Mark, Token, Tokens};
