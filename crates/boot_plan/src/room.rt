//! Whether there is room.

ghost use Rattle.boot_plan.specs.Needs.{are_usual};
ghost use Rattle.boot_plan.specs.Regions.{are_regions, is_region};
ghost use Rattle.boot_plan.specs.Rooms.{IsRoomTold, had, needed, room_bytes};
ghost use Rattle.std.specs.Prelude.{◌≡◌, ◌<◌, ◌≤◌, ◌*◌, ◌^◌, length, true};

use crate::need::Need;
use crate::plan_refusal::{PlanRefusal, Refusal};
use crate::untyped::Untyped;

/// The greatest number of bits of a block.
pub const MAX_BITS: u8 = 20;

impl Untyped {
    /// Its bytes, where it has at least so many bits and is no device's.
    pub fn room_bytes(self, least: u8) -> u64
        requires { is_region self.paddr self.bits ≡ true }
        ensures { result ≡ room_bytes least self }
    {
        if !self.device && least <= self.bits {
            self.size()
        } else {
            0
        }
    }
}

/// The bytes that blocks of at least so many bits need.
#[tactic(auto, using(crate::proofs::Usual::usual))]
pub fn bytes_needed(needs: &[Need], least: u8) -> u64
    requires few { length needs.now < 2 ^ 32 }
    requires usual { are_usual needs.now ≡ true }
    ensures { result ≡ needed least needs.now }
{
    let mut total = 0;
    for need in needs {
        total += need.block_bytes(least);
    }
    total
}

/// The bytes that regions of at least so many bits have.
#[tactic(auto, using(crate::proofs::Usual::usual))]
fn bytes_had(regions: &[Untyped], least: u8) -> u64
    requires few { length regions.now ≤ 4096 }
    requires sound { are_regions regions.now ≡ true }
    ensures { result ≡ had least regions.now }
{
    let mut total = 0;
    for region in regions {
        total += region.room_bytes(least);
    }
    total
}

/// That there is no room, for the greatest number of bits for which there is none.
pub fn no_room(needs: &[Need], regions: &[Untyped]) -> Refusal
    requires few_needs { length needs.now < 2 ^ 32 }
    requires usual { are_usual needs.now ≡ true }
    requires few_regions { length regions.now ≤ 4096 }
    requires sound { are_regions regions.now ≡ true }
    ensures { IsRoomTold needs.now regions.now result }
{
    for less in 0..MAX_BITS + 1 {
        let bits = MAX_BITS - less;
        let need = bytes_needed(needs, bits);
        let have = bytes_had(regions, bits);
        if have < need {
            return Some(PlanRefusal::NoRoom { bits, need, have });
        }
    }
    None
}
