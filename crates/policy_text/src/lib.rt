//! Texts of policies and of certificates, the labels that a policy gives to objects, and edges as lines.
//!
//! Nothing here asks what a policy allows or what confers an authority. What a text says, and which fault stands in it first,
//! is in `specs/PolicyTexts.antt` and the files that it names; the one text that is written in `specs/PolicyLines.antt`; the
//! labels of objects in `specs/Labelled.antt`; edges by the names of labels in `specs/EdgeLines.antt`.
#![tactic(auto)]

mod edges;
mod entry;
mod head;
mod kind;
mod known;
mod labelled;
pub mod laws;
mod names;
mod number;
mod parts;
mod read;
mod seen;
mod words;
mod write;

pub use edges::{write_edge, write_edges};
pub use head::Read;
pub use labelled::label_objects;
pub use names::Names;
pub use read::{read_cert, read_policy};
pub use write::{write_cert, write_policy};
