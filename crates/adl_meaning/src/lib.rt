//! What a source means: the types of a flat, settled system, the order of faults, and which faults of names stand.
//!
//! Nothing here walks a source: the crates that do cite these definitions. The order of faults stands in
//! `specs/Faults.antt`, what names stand for in `specs/Items.antt`, `specs/Holding.antt` and `specs/Members.antt`, each
//! fault of names in a file of its title, and all of them in `specs/NameFaults.antt`.
#![tactic(auto)]

mod connector;
mod earliest;
mod flat;
mod item_at;
mod laws;
mod path;
mod settled;

pub use connector::Connector;
pub use earliest::{Earliest, Wrong, is_before};
pub use flat::{Domain, Flat, FlatConnection, FlatEnd, Leaf, same_end};
pub use item_at::ItemAt;
pub use laws::{
    connectors_are_their_words, first_is_first, noted_is_least, sound_names_have_no_fault,
};
pub use path::is_prefix;
pub use settled::{EndSetting, EndSettings, LeafSetting, Settled};
