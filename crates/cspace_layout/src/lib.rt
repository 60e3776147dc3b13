//! The ends at each leaf of a flat system, in order, and the slots of each domain's CNode: what they are for.
//!
//! Nothing here makes a capability or an object. Ends are ordered by the interface that they join, and then by connection and
//! end (`specs/LeafEnds.antt`). The order of slots stands in `specs/Uses.antt`, the limits on slots in
//! `specs/SlotFaults.antt`, and what a flat system must keep in `specs/Within.antt`.
#![tactic(auto)]

mod count;
mod end_at;
mod lay;
mod limit;
mod lookups;
mod members;
mod order;
mod plan;
mod spread;
mod wiring;

pub use end_at::EndAt;
pub use lay::{lay_caps, lay_slots};
pub use limit::limit_fault;
pub use lookups::{end_of, setting_of};
pub use members::{is_lock, members_at};
pub use plan::{SlotPlan, SlotUse, Slots};
pub use wiring::Wiring;
