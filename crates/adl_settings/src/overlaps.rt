//! Dataports of devices that share physical pages.

ghost use Rattle.adl_meaning.specs.Prelude.{noted};
ghost use Rattle.std.specs.Prelude.{IfOk, OnOk, map, ◌++◌, ◌≡◌};
ghost use Rattle.adl_settings.specs.DeviceOverlap.{overlaps, region_of, regions_in};

use crate::Found;
use adl_meaning::Earliest;
use cam_base::{Code, Made, Place};
use name_tables::{PageIndex, Region};
use std::alloc::Global;

/// The pages of a device, with the place of the literal that gives their address. The key of the pages is the number of the
/// leaf, and that of the interface among its members.
#[derive(Drop)]
pub struct DeviceRegion {
    pub pages: Region,
    pub place: Place,
}

fn region_of(end: &Found<'_>) -> Option<DeviceRegion>
    ensures { result ≡ region_of end.now }
{
    let count = end.bytes()?;
    let first = end.paddr()?;
    let place = end.paddr.as_ref()?.value.place;
    let key = (end.joint.end.leaf, end.joint.end.member);
    let pages = Region { key, first, count };
    Some(DeviceRegion { pages, place })
}

/// Adds the regions of devices at the ends of a connection.
pub fn add_regions(ends: &[Found<'_>], regions: &mut Vec<DeviceRegion>) -> Made<()>
    ensures { OnOk result (regions.new.items ≡ regions.old.items ++ regions_in ends.now) }
{
    for end in ends {
        if let Some(region) = region_of(end) {
            regions.push(region)?;
        }
    }
    Ok(())
}

fn all_pages(alloc: Global, regions: &[DeviceRegion]) -> Made<Vec<Region>>
    ensures { IfOk result (λ v. v.items ≡ map (λ a. a.pages) regions.now) }
{
    Ok(regions.iter().map(|region| region.pages).collect(alloc)?)
}

/// Notes the dataports of devices that share a page with another.
#[tactic(auto, using(crate::proofs::Noted::shared_in_index, std::proofs::lemmas::Grind::common_steps))]
pub fn note_overlaps(alloc: Global, regions: &[DeviceRegion], first: &mut Earliest<'_>) -> Made<()>
    ensures { OnOk result (first.new ≡ noted first.old (overlaps regions.now)) }
{
    let pages = all_pages(alloc, regions)?;
    let index = PageIndex::new(alloc, pages.as_slice())?;
    for region in regions {
        let shares = index.shares_any(&region.pages);
        first.note(shares, Code::DeviceOverlap, region.place, b"");
    }
    Ok(())
}
