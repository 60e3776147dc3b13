//! The checker of certificates: whether a certificate keeps the rules for a spec, its labels and a policy, and if not,
//! the least way in which it doesn't.
//!
//! Nothing here runs the step machine or takes memory. The rules stand in `specs/Valid.antt`, what the least violation
//! is in `specs/Violations.antt` and `specs/Least.antt`. That a Yes holds over every run is proved.
#![tactic(auto)]

mod beside;
mod boot_edges;
mod copies;
mod in_policy;
mod laws;
mod meeting_walk;
mod meetings;
mod missing;
mod partners;
mod places;
mod rule;
mod verdict;
mod violation;

pub use laws::valid_certificates_are_sound;
pub use verdict::{Verdict, check};
