//! Why an authority is assigned: the first reason of a triple, and lines that tell it.
//!
//! The reasons themselves stand in `specs/Reasons.antt` of `arch_policy`, their order in `specs/Explained.antt`; what is
//! answered to the words of a triple in `specs/Answers.antt`, the lines in `specs/Lines.antt`.
#![tactic(auto)]

mod answer;
mod first;
mod lines;
mod parts;
mod reason;
mod reason_line;
mod search;

pub use answer::{Answer, Question, answer_of};
pub use first::explain;
pub use parts::together;
pub use reason::{ExplainError, Reason, Rule};
pub use reason_line::reason_text;
