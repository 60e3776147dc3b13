//! What stands in a source and in texts, in the words of what they are about.
//!
//! There is no code here. Some definitions of faults and of flat systems follow the way in which they are found: each list or
//! text is walked once, with what was met so far. The laws say of each of them what it means without such a walk: those of
//! sources in `laws.rt`; in `text_laws.rt` which line, place or object of a text, a file or a plan is refused, what holds of
//! all in front of it, and what is promised where there is none.
#![tactic(auto)]

mod laws;
mod text_laws;

pub use laws::{
    duplicates_are_names_again, files_are_those_that_imports_reach,
    flat_systems_are_by_the_hierarchy, misfits_are_at_fault, refused_imports_are_the_first,
    settings_twice_are_set_again, told_faults_stand, types_are_by_the_hierarchy,
    unknown_names_stand_for_nothing, unknown_words_lead_nowhere,
};
pub use text_laws::{
    devices_serve_one_object, elf_faults_are_the_first, overlaps_share_addresses,
    placed_objects_are_apart, region_faults_are_the_first, step_faults_are_the_first,
};
