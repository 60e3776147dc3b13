//! The machine with contents: what frames contain, what is pending, what threads have seen, and how one comes to the
//! other; and what flows by the edges of a policy. Whatever others do, those of a closed set of labels stay as if the others did
//! nothing; and what a policy promises of each act.
//!
//! There is no code here. Worlds stand in `specs/World.antt`, acts in `specs/Act.antt` and `specs/ActTable.antt`, their
//! runs in `specs/ActRuns.antt`, what flows in `specs/Flow.antt`, and when two worlds agree in `specs/Agree.antt`. The
//! capability system and its steps stand in `cap_model` and `cap_machine`.
//!
//! What is claimed of closed sets stands in `specs/Separates.antt`. An act changes only what the policy lets its actor change:
//! what that is stands in `specs/Lets.antt`, by which authority what is changed in `specs/Touched.antt`, and when a spec gives
//! less than another one in `specs/Less.antt`. What it is that a policy has every edge that runs reach stands in
//! `cert_check/specs/Valid.antt`.
#![tactic(auto)]

mod integrity_laws;
mod laws;
mod separation_laws;

pub use integrity_laws::{acts_keep_to_the_policy, less_is_valid, policies_stay_kept};
pub use laws::{acts_are_possible, acts_lead_to_one_world, each_way_passes};
pub use separation_laws::{others_change_nothing, own_acts_decide, turns_decide};
