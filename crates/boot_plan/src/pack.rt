//! The packing of blocks.
//!
//! Blocks are laid end to end, the greatest first, and so are regions; the byte of a block at an offset of the blocks then
//! stands at that offset of the regions. Since each size divides the greater ones, no block is cut by the end of a region.

ghost use Rattle.boot_plan.specs.Needs.{are_usual, is_usual};
ghost use Rattle.boot_plan.specs.Packing.{AllFit, AreBases, AreRooms, AreStarts, FitsAt, HasOffset, IsInOrder, address, packed, place_of, starts_behind};
ghost use Rattle.boot_plan.specs.Regions.{are_regions};
ghost use Rattle.boot_plan.specs.Rooms.{had};
ghost use Rattle.std.specs.List.Sorted.{IsPermutation};
ghost use Rattle.std.specs.Prelude.{◌≡◌, ◌<◌, ◌≤◌, ◌^◌, IfOk, length, true};

use crate::need::Need;
use crate::plan_refusal::Places;
use crate::room::{MAX_BITS, bytes_needed};
use crate::untyped::Untyped;
use cam_base::{List, Made};
use std::alloc::Global;

/// Regions in the order in which they are filled, and the offset at which each begins.
#[derive(Drop)]
pub struct Rooms {
    regions: Vec<Untyped>,
    bases: Vec<u64>,
}

fn in_order(alloc: Global, regions: &[Untyped]) -> Made<Vec<Untyped>>
    ensures order { IfOk result (λ v. IsInOrder v.items) }
    ensures permutation { IfOk result (λ v. IsPermutation regions.now v.items) }
{
    let mut rooms = regions.to_vec(alloc)?;
    rooms.sort_unstable_by_key(|region| region.rank());
    Ok(rooms)
}

#[tactic(auto, using(crate::proofs::Usual::usual))]
fn bases(alloc: Global, regions: &[Untyped]) -> Made<Vec<u64>>
    requires few { length regions.now ≤ 4096 }
    requires sound { are_regions regions.now ≡ true }
    ensures { IfOk result (λ v. AreBases regions.now v.items) }
{
    let mut bases = Vec::new(alloc);
    let mut base = 0;
    for region in regions {
        bases.push(base)?;
        base += region.room_bytes(0);
    }
    Ok(bases)
}

impl Rooms {
    pub fn of(alloc: Global, regions: &[Untyped]) -> Made<Rooms>
        requires few { length regions.now ≤ 4096 }
        requires sound { are_regions regions.now ≡ true }
        ensures { IfOk result (AreRooms regions.now) }
    {
        let regions = in_order(alloc, regions)?;
        let bases = bases(alloc, regions.as_slice())?;
        Ok(Rooms { regions, bases })
    }

    /// The place of the region that has an offset.
    fn place_of(&self, offset: u64) -> usize
        requires bases { AreBases self.now.regions.items self.now.bases.items }
        requires within { offset < had 0 self.now.regions.items }
        ensures { HasOffset self.now.regions.items self.now.bases.items offset result }
    {
        self.bases.partition_point(|base| *base <= offset) - 1
    }

    /// The address at an offset.
    fn address(&self, offset: u64) -> u64
        requires bases { AreBases self.now.regions.items self.now.bases.items }
        requires sound { are_regions self.now.regions.items ≡ true }
        requires within { offset < had 0 self.now.regions.items }
        ensures { result ≡ address self.now.regions.items offset }
    {
        let place = self.place_of(offset);
        self.regions[place].paddr + (offset - self.bases[place])
    }
}

/// For each number of bits, the offset at which its blocks begin: behind all greater ones.
pub fn starts(alloc: Global, needs: &[Need]) -> Made<Vec<u64>>
    requires few { length needs.now < 2 ^ 32 }
    requires usual { are_usual needs.now ≡ true }
    ensures { IfOk result (λ v. AreStarts needs.now v.items) }
{
    let mut starts = Vec::new(alloc);
    for bits in 0..MAX_BITS + 1 {
        starts.push(bytes_needed(needs, bits + 1))?;
    }
    Ok(starts)
}

/// The place of a need, where the blocks of its size go on at a start. Puts the start behind the block.
fn place(need: Need, rooms: &Rooms, starts: &mut [u64]) -> Option<u64>
    requires usual { is_usual need ≡ true }
    requires count { length starts.old ≡ 21 }
    requires bases { AreBases rooms.now.regions.items rooms.now.bases.items }
    requires sound { are_regions rooms.now.regions.items ≡ true }
    requires room { FitsAt rooms.now.regions.items starts.old need }
    requires fits { had 0 rooms.now.regions.items < 2 ^ 64 }
    ensures place { result ≡ place_of rooms.now.regions.items starts.old need }
    ensures starts { starts.new ≡ starts_behind starts.old need }
{
    match need {
        Need::Nothing => None,
        Need::DevicePage(paddr) => Some(paddr),
        Need::Block(bits) => {
            let offset = starts[bits as usize];
            starts[bits as usize] = offset + (1 << bits);
            Some(rooms.address(offset))
        }
    }
}

/// The places of needs.
pub fn pack(alloc: Global, needs: &[Need], rooms: &Rooms, starts: &mut [u64]) -> Made<Places>
    requires usual { are_usual needs.now ≡ true }
    requires bases { AreBases rooms.now.regions.items rooms.now.bases.items }
    requires sound { are_regions rooms.now.regions.items ≡ true }
    requires fit { AllFit rooms.now.regions.items starts.old needs.now }
    requires few { had 0 rooms.now.regions.items < 2 ^ 64 }
    ensures { IfOk result (λ places. places ≡ packed rooms.now.regions.items starts.old needs.now) }
{
    let mut places = List::new(alloc);
    for need in needs {
        places.push(place(*need, rooms, starts))?;
    }
    Ok(places)
}
