//! Authorities, edges, tables of edges, policies and labels, handed on.
//!
//! They are defined in `cap_model`, beside the capabilities that give them.
#![tactic(auto)]

pub use cap_model::{Authority, AuthoritySet, Edge, EdgeTable, Labels, Policy};
