//! What threads of a system can reach: that its certificate is valid, that its policy is just what is reached, and that its
//! certificate is the least valid one.
//!
//! There is no code here. What is asked of a flat system stands in `specs/Flat.antt`; of the spec that is laid out for it in
//! `specs/LaidOut.antt`, and piece by piece in `specs/Pieces.antt` and `specs/Windows.antt`. What threads reach by their first
//! step asks for what stands in `specs/Arranged.antt`; what capabilities are plain, and which steps, in `specs/Plain.antt`.
#![tactic(auto)]

mod laws;
mod step_laws;

pub use laws::{
    certificates_are_least, certificates_are_valid, pieces_are_direct, reached_edges_are_reasoned,
    windows_are_direct,
};
pub use step_laws::{binds_are_reached, calls_are_reached, plain_steps_alone_are_legal};
