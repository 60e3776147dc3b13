//! Regions that share an address.

ghost use Rattle.boot_plan.specs.Overlaps.{first_overlap, refused_overlap};
ghost use Rattle.boot_plan.specs.Regions.{shares};
ghost use Rattle.std.specs.List.{position};
ghost use Rattle.std.specs.Prelude.{◌≡◌, ◌≤◌, length};

use crate::plan_refusal::{PlanRefusal, Refusal};
use crate::untyped::Untyped;

/// The least of the earlier regions that shares an address with one.
fn earlier_overlap(region: Untyped, before: &[Untyped]) -> Option<usize>
    ensures { result ≡ position (shares region) before.now }
{
    before.iter().position(|earlier| region.shares(*earlier))
}

/// That two regions share an address, where two do.
pub fn overlap(regions: &[Untyped]) -> Refusal
    requires { length regions.now ≤ 4096 }
    ensures { result ≡ refused_overlap (first_overlap regions.now) }
{
    for (second, region) in regions.iter().enumerate() {
        if let Some(first) = earlier_overlap(*region, &regions[..second]) {
            return Some(PlanRefusal::Overlap {
                first: first as u32,
                second: second as u32,
            });
        }
    }
    None
}
