//! What a source is asked for: the edges that its system is assigned, and why one of them is.
//!
//! Nothing here reads the words of the command line or decides a status. What listing answers and prints stands in
//! `specs/Listed.antt`, what explaining answers in `specs/Explained.antt`, and that both is what the source assigns over its
//! hierarchy in `specs/Assigned.antt`.
#![tactic(auto)]

mod explanation;
mod laws;
mod listing;

pub use explanation::explain;
pub use laws::{answers_are_one, explained_is_what_is_assigned, listings_are_all_that_is_assigned};
pub use listing::{Listing, list, write_listing};
