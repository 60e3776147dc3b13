//! The edges of the boot state, handed on.
//!
//! They are told in `cap_machine`, beside the steps that go on from them.
#![tactic(auto)]

pub use cap_machine::direct;
