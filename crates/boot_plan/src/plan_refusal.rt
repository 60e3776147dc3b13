//! Plans, and why there is none.

ghost use Rattle.boot_plan.specs.declared.plan_refusal.PlanRefusal.TheVariants.{NoMemory as PlanNoMemory};
ghost use Rattle.std.specs.Prelude.{◌≡◌};

use cam_base::{List, NoMemory};

/// The places of objects, in their order: the address of an object's first byte, none for one that needs no memory.
pub type Places = List<Option<u64>>;

/// The places of the objects of a spec.
#[derive(Debug, Drop)]
pub struct BootPlan {
    pub places: Places,
}

/// Why no plan is made.
#[derive(Clone, Copy, Debug, PartialEq, Eq)]
pub enum PlanRefusal {
    /// Two regions share an address: the least that shares one with an earlier one, and the least such earlier one.
    Overlap { first: u32, second: u32 },
    /// No region of a device has the page of this frame.
    NoDevice { frame: u32 },
    /// An earlier frame has the address of this one.
    SharedFrame { frame: u32 },
    /// The objects of at least so many bits need more bytes than the regions of at least so many bits have.
    NoRoom { bits: u8, need: u64, have: u64 },
    NoMemory,
}

/// The first refusal, where one comes.
pub type Refusal = Option<PlanRefusal>;

impl From<NoMemory> for PlanRefusal {
    ghost from_gives = { λ _ r. r ≡ PlanNoMemory };

    fn from(_: NoMemory) -> PlanRefusal {
        PlanRefusal::NoMemory
    }
}
