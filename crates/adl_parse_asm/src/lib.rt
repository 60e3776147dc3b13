//! The parsers of values, compositions, configurations and assemblies, handed on.
//!
//! They stand in `adl_parse`, with the parser of whole files.
#![tactic(auto)]

pub use adl_parse::{parse_assembly, parse_composition, parse_configuration, parse_value};
