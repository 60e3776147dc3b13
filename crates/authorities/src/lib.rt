//! Authorities, and sets of them: what one label may do to another.
//!
//! Nothing here knows labels, objects or capabilities. The twelve authorities, their numbers and their words stand in
//! `specs/Authorities.antt`, sets of them in `specs/AuthoritySets.antt`.
#![tactic(auto)]

mod authority;
mod laws;
mod set;

pub use authority::Authority;
pub use laws::{authorities_are_their_words, sets_are_their_members};
pub use set::AuthoritySet;
