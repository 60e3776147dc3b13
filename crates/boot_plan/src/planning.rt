//! The plan.

ghost use Rattle.boot_plan.specs.Needs.{are_usual};
ghost use Rattle.boot_plan.specs.Placed.{Placed};
ghost use Rattle.boot_plan.specs.Plans.{AreFree, IsFreeTold, IsPlanned, IsPlannedFor};
ghost use Rattle.boot_plan.specs.Regions.{are_regions};
ghost use Rattle.boot_plan.specs.Rooms.{HasRoom};
ghost use Rattle.cap_model.specs.Kept.{IsKept};
ghost use Rattle.std.specs.Prelude.{◌≡◌, ◌<◌, ◌≤◌, ◌^◌, IfOk, length, true};

use crate::device::device_refusal;
use crate::need::{Need, needs};
use crate::overlap::overlap;
use crate::pack::{Rooms, pack, starts};
use crate::plan_refusal::{BootPlan, Places, PlanRefusal};
use crate::room::no_room;
use crate::untyped::Untyped;
use cam_base::Made;
use cap_model::Spec;
use std::alloc::Global;

/// The first refusal, where one comes.
fn free(alloc: Global, needs: &[Need], regions: &[Untyped]) -> Result<(), PlanRefusal>
    requires few_needs { length needs.now < 2 ^ 32 }
    requires usual { are_usual needs.now ≡ true }
    requires few_regions { length regions.now ≤ 4096 }
    requires sound { are_regions regions.now ≡ true }
    ensures { IsFreeTold needs.now regions.now result }
{
    if let Some(refusal) = overlap(regions) {
        return Err(refusal);
    }
    if let Some(refusal) = device_refusal(alloc, needs, regions)? {
        return Err(refusal);
    }
    match no_room(needs, regions) {
        Some(refusal) => Err(refusal),
        None => Ok(()),
    }
}

/// Places where nothing refuses them.
fn places(alloc: Global, needs: &[Need], regions: &[Untyped]) -> Made<Places>
    requires few_needs { length needs.now < 2 ^ 32 }
    requires usual { are_usual needs.now ≡ true }
    requires few_regions { length regions.now ≤ 4096 }
    requires sound { are_regions regions.now ≡ true }
    requires free { AreFree needs.now regions.now }
    requires room { HasRoom needs.now regions.now }
    ensures { IfOk result (Placed needs.now regions.now) }
{
    let rooms = Rooms::of(alloc, regions)?;
    let mut starts = starts(alloc, needs)?;
    pack(alloc, needs, &rooms, &mut starts)
}

fn plan_needs(alloc: Global, needs: &[Need], regions: &[Untyped]) -> Result<BootPlan, PlanRefusal>
    requires few_needs { length needs.now < 2 ^ 32 }
    requires usual { are_usual needs.now ≡ true }
    requires few_regions { length regions.now ≤ 4096 }
    requires sound { are_regions regions.now ≡ true }
    ensures { IsPlannedFor needs.now regions.now result }
{
    free(alloc, needs, regions)?;
    Ok(BootPlan {
        places: places(alloc, needs, regions)?,
    })
}

/// A placement of all objects of a spec in regions as `read_untypeds` gives them. `specs/Plans.antt` says which, and why
/// there is none.
///
/// # Errors
///
/// The first refusal, or want of memory.
pub fn plan(alloc: Global, spec: &Spec, regions: &[Untyped]) -> Result<BootPlan, PlanRefusal>
    requires kept { IsKept spec.now }
    requires few { length regions.now ≤ 4096 }
    requires sound { are_regions regions.now ≡ true }
    ensures { IsPlanned spec.now regions.now result }
{
    let needs = needs(alloc, spec)?;
    plan_needs(alloc, needs.as_slice(), regions)
}
