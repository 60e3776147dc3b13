//! Settings: their values, found from the outermost body inwards, what these mean, and the faults of values.
//!
//! Which value a setting has stands in `adl_meaning/specs/Values.antt`, the settings of a source in `specs/Settled.antt`, and
//! its faults in `specs/SettingFaults.antt`.
#![tactic(auto)]

mod access;
mod allowed;
mod finding;
mod found;
mod laws;
mod meaning;
mod names;
mod overlaps;
mod search;
mod settling;
mod tables;
mod twice;
mod value_faults;

pub use access::Access;
pub use found::{Found, Given, Joint, LeafFound, is_shared};
pub use laws::{
    badges_count_from_one, outer_settings_come_first, references_are_values,
    settings_are_those_of_joins,
};
pub use settling::{settle, settle_program};
