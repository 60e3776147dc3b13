//! What the flat system of a source without faults keeps.
//!
//! There is no code here. The flat system is read from the hierarchy of a source in `adl_meaning`,
//! types are looked at in the hierarchy in `adl_types`, values of settings are found in
//! `adl_settings`, and the layouts ask of a flat system what the laws here promise.
#![tactic(auto)]

mod laws;

pub use laws::{
    ends_are_typed, ends_have_their_settings, flat_systems_are_small, flat_systems_are_within,
    short_files_have_few_members,
};
