//! What a source assigns, over its hierarchy of instances, and that the reasons read off its flat system are the same.
//!
//! What is assigned between paths stands in `specs/Assigned.antt`, which paths numbers of labels stand for in
//! `specs/Named.antt`, the same by the texts of labels in `specs/Texts.antt`, and all triples of which it holds in
//! `specs/Triples.antt`. There is no code here.
#![tactic(auto)]

mod laws;

pub use laws::{
    assigned_is_reasoned, assigned_texts_are_reasoned, direct_texts_are_reasoned,
    label_lines_are_apart, label_lines_are_of_labels, label_paths_are_apart, label_texts_are_apart,
    labels_are_apart, lock_texts_are_lock_edges, policies_are_all_that_is_assigned,
};
