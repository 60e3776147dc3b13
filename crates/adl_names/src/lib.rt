//! Names: the tables of a source's names, or the first fault of names.
//!
//! Nothing here reads a file or looks at what names are good for. The faults of names are definitions of `adl_meaning`;
//! each pass here notes what one of them gives.
#![tactic(auto, using(std::proofs::lemmas::Grind::common_steps, adl_meaning::proofs::Noting::noting))]

mod bodies;
mod exports;
mod misplaced;
mod names;
mod recursion;
mod repeats;
mod tables;
mod unknown;

pub use adl_items::Names;
pub use names::{check_names, resolve};
