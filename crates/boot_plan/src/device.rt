//! Pages of devices.

ghost use Rattle.boot_plan.specs.Devices.{device_refusal};
ghost use Rattle.boot_plan.specs.DevicesTold.{IsIndexOf, has_pages, pages_of};
ghost use Rattle.boot_plan.specs.Needs.{are_usual};
ghost use Rattle.boot_plan.specs.Regions.{are_regions, is_region};
ghost use Rattle.std.specs.Prelude.{◌≡◌, ◌<◌, ◌^◌, [], IfOk, length, true};

use crate::need::Need;
use crate::plan_refusal::{PlanRefusal, Refusal};
use crate::untyped::Untyped;
use cam_base::Made;
use name_tables::{PageIndex, Region};
use std::alloc::Global;
use std::collections::BTreeSet;

/// The key of regions of devices, and that of pages.
const REGION: (u32, u32) = (0, 0);

const PAGE: (u32, u32) = (1, 0);

impl Untyped {
    /// Whether it is a device's, and has whole pages.
    fn has_pages(self) -> bool
        ensures { result ≡ has_pages self }
    {
        self.device && self.bits >= 12
    }

    /// Its addresses, for an index.
    fn pages(self) -> Region
        requires { is_region self.paddr self.bits ≡ true }
        ensures { result ≡ pages_of self }
    {
        Region {
            key: REGION,
            first: self.paddr,
            count: self.size(),
        }
    }
}

/// An index of the regions of devices.
fn device_index(alloc: Global, regions: &[Untyped]) -> Made<PageIndex>
    requires { are_regions regions.now ≡ true }
    ensures { IfOk result (IsIndexOf regions.now) }
{
    let mut found = Vec::new(alloc);
    for region in regions {
        if region.has_pages() {
            found.push(region.pages())?;
        }
    }
    PageIndex::new(alloc, found.as_slice())
}

/// That an object needs the page of no device, or one that an earlier object needs.
pub fn device_refusal(alloc: Global, needs: &[Need], regions: &[Untyped]) -> Made<Refusal>
    requires few { length needs.now < 2 ^ 32 }
    requires usual { are_usual needs.now ≡ true }
    requires sound { are_regions regions.now ≡ true }
    ensures { IfOk result (λ r. r ≡ device_refusal regions.now [] 0 needs.now) }
{
    let index = device_index(alloc, regions)?;
    let mut seen = BTreeSet::new(alloc);
    for (frame, need) in needs.iter().enumerate() {
        let Need::DevicePage(first) = *need else {
            continue
        };
        let frame = frame as u32;
        let page = Region {
            key: PAGE,
            first,
            count: 4096,
        };
        if !index.shares_any(&page) {
            return Ok(Some(PlanRefusal::NoDevice { frame }));
        }
        if !seen.insert(first)? {
            return Ok(Some(PlanRefusal::SharedFrame { frame }));
        }
    }
    Ok(None)
}
