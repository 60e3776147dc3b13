//! The step machine: the edges of a spec at boot, its boot state, and steps of its threads, one at a time.
//!
//! Nothing here looks at more than one run, or reads a text. The table of steps stands in `specs/StepTable.antt`, the
//! order of answers of an illegal step in `specs/Checks.antt`, runs and what they reach in `specs/Runs.antt`; states, when one
//! fits a spec, and the authorities of a state stand in `cap_model`. That the edges of what each capability, slot and link
//! gives are those of the boot state is proved.
#![tactic(auto)]

mod boot_edges;
mod boot_state;
mod change;
mod collect;
mod decide;
mod edges;
mod edit;
mod laws;
mod node;
mod perform;
mod state;
mod step;

pub use boot_edges::{direct, with_object};
pub use boot_state::boot;
pub use collect::{with_cap, with_each_slot, with_link, with_optional_cap, with_optional_link};
pub use edges::authorities;
pub use laws::{answers_are_told, states_keep_fitting, steps_follow_the_table};
pub use state::{State, StepError};
pub use step::{Step, Why};
