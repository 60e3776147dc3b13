//! The writer of capDL: a spec as its one text, line by line; and that this text is read back as the spec.
//!
//! Nothing here takes memory, reads a text, or asks whether a spec is kept: every spec has a text, that of `canonical` in
//! `cap_model`'s `specs/Canonical.antt`. Which specs can be written and read back stands in `specs/Writable.antt`, the pieces of
//! a canonical text in `specs/Canon.antt`, and texts that are laid out piece by piece in `specs/Pieces.antt`.
#![tactic(auto)]

mod holder;
mod laws;
mod object;
mod write;

pub use laws::{canonical_is_laid, canonical_is_text, laid_texts_have_tokens, written_is_read};
pub use write::write_spec;
