//! What `camkes` says, shown: a fault's bytes in their file, a policy as a picture, what flows by it, pictures and the page of a
//! source, and the tables of a domain.
//!
//! What is answered when is in `specs/Answers.antt`, what is written of it in `specs/Words.antt` and `specs/Lines.antt`. What the
//! shapes of a source's labels are is in `specs/Shapes.antt`; what stands on its page for an assessor in `specs/Pages.antt`, its
//! matrix in `specs/Matrix.antt` and its devices in `specs/Devices.antt`.
#![tactic(auto)]

mod answer;
mod build;
mod deciding;
mod devices;
mod fault;
mod flow;
mod graph;
mod lines;
mod lint;
mod matrix;
mod page;
mod reasons;
mod shapes;
mod source;

pub use answer::Answer;
pub use deciding::decide;
