//! The parser of whole files, handed on.
//!
//! It stands in `adl_parse`, with the parsers of parts.
#![tactic(auto)]

pub use adl_parse::parse_file;
