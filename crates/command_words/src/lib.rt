//! The words of the command line: which command they ask for.
//!
//! `clap` splits the words; nothing else in the repository calls it. What is read stands in `specs/Words.antt`, on lists
//! of words and without a word of `clap`; `specs/Clap.antt` says how `clap` is told of the commands. Nothing here reads
//! a file or looks into a word that a command takes.
#![tactic(auto)]

mod command;
mod count;
mod reader;
mod reading;
mod usage;

pub use command::{Command, WordsError, as_name};
pub use reading::read_words;
pub use usage::usage_line;
