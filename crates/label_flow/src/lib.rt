//! By which edges of a policy one label can come to influence another, and which labels can: searches, nearest labels first,
//! and their answers as texts.
//!
//! What flows by an edge stands in `flow_model/specs/Flow.antt`, chains of edges and what is answered in
//! `specs/Chain.antt`, what is told in `specs/Told.antt`. That others change nothing where the answer is none is a law of
//! `flow_model`.
#![tactic(auto)]

mod chain;
mod chains;
mod edges;
mod exits;
mod laws;
mod lines;
mod passing;
mod search;
mod sources;
mod told;

pub use chain::flow;
pub use laws::chains_are_flows;
pub use lines::flows_text;
pub use sources::{Sources, Upstream};
pub use told::{Told, tell_flow};
