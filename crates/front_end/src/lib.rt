//! The source of a root, what it means and what it assigns; or the first fault of the first phase that has one.
//!
//! Nothing here lays anything out or writes an output. Which fault is the first stands in `specs/First.antt`, why a source is
//! refused in `specs/Refusals.antt`, and what each call answers in `specs/Fronts.antt`.
#![tactic(auto)]

mod laws;
mod phases;

pub use cam_base::SourceError as BuildError;
pub use laws::{answers_are_one, loaded_sources_are_whole, meanings_are_within};
pub use phases::{FrontEnd, Meaning, front, in_file, meaning_of, with_policy};
