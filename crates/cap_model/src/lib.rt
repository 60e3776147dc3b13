//! Authorities and edges, objects, capabilities and specs: what they are, what each spec keeps, what a capability confers, and
//! the one text that a spec is written as. The states of the step machine and their authorities stand here as definitions.
//!
//! Nothing here reads or writes a text, takes a step, or knows where a spec came from. What every spec keeps stands in
//! `specs/Kept.antt`, the authorities that a capability confers in `specs/Confers.antt`, the text in
//! `specs/Canonical.antt`, states in `specs/State.antt`, the authorities of a state in `specs/Auth.antt`. Edges between
//! labels, tables and growing sets of them, policies and the labels of objects have files of their own in `specs/`.
#![tactic(auto)]

mod cap;
mod confer;
mod edge;
mod edge_set;
mod growth;
mod hint;
mod kind;
mod kinds;
mod laws;
mod level;
mod making;
mod object;
mod object_labels;
mod policy;
mod rights;
mod rows;
mod shared;
mod spec;
mod state;
mod table;
mod walk;

pub use authorities::{Authority, AuthoritySet};
pub use cap::Cap;
pub use confer::{conferred, frame_conferred, is_root};
pub use edge::Edge;
pub use edge_set::EdgeSet;
pub use growth::{with_edge, with_set};
pub use hint::Hint;
pub use kind::Kind;
pub use kinds::{edges_are_ordered, has_is_membership, tables_are_their_edges};
pub use laws::{
    conditions_are_sharp, examples_are_written, lessened_confers_no_more,
    no_capability_confers_reply, objects_are_found,
};
pub use level::{Arch, Level};
pub use object::{Fill, Object, Tcb};
pub use object_labels::Labels;
pub use policy::{Policy, is_label_name};
pub use rights::Rights;
pub use spec::{Entry, Spec};
pub use state::{Content, Mapped, Pending, ThreadState};
pub use table::EdgeTable;
pub use walk::Edges;
