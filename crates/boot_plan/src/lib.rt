//! Boot plans: places for all objects of a spec in regions of untyped memory.
//!
//! Nothing here reads a file or makes an object. What a text of regions says stands in `specs/UntypedTexts.antt`, what
//! objects need in `specs/Needs.antt`, what a placement is in `specs/Placed.antt`, and when there is none in
//! `specs/Overlaps.antt`, `specs/Devices.antt` and `specs/Rooms.antt`. The text of a plan stands in `specs/Texts.antt`.
#![tactic(auto)]

mod device;
mod laws;
mod need;
mod overlap;
mod pack;
mod plan_refusal;
mod planning;
mod read;
mod room;
mod untyped;
mod write;

pub use laws::placements_have_room;
pub use need::Need;
pub use plan_refusal::{BootPlan, Places, PlanRefusal};
pub use planning::plan;
pub use read::{MAX_REGIONS, read_untypeds};
pub use untyped::{Untyped, UntypedCode, UntypedFault};
pub use write::write_plan;
