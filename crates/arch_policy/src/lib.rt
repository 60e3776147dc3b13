//! The policy of a system: which label is assigned which authority over which other, and why; and its certificate.
//!
//! Who has a label stands in `specs/Owners.antt`, the numbers of labels in `specs/Labels.antt`, why an authority is
//! assigned in `specs/Reasons.antt`, the assigned edges as a list in `specs/Triples.antt`, and what a policy and a certificate
//! have, with the limit on edges, in `specs/Policies.antt`. A certificate has what its policy has, and within the label of each
//! domain with a lock what the domain may do with it, leaf by leaf (`specs/LockEdges.antt`).
#![tactic(auto)]

mod bound;
mod cert;
mod edges;
mod labels;
mod laws;
mod numbers;
mod owner;
mod policy;
mod tables;

pub use cert::certificate_of;
pub use edges::{EndHere, signal_table};
pub use labels::{Labelling, labels_of};
pub use laws::triples_are_the_policy;
pub use numbers::LabelNumbers;
pub use owner::Owner;
pub use policy::{Assigned, policy_of};
pub use tables::{Tables, connection_label, domain_label, leaf_label, number_at};
