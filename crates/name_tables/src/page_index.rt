//! An index of regions, by their first places.

ghost use Rattle.name_tables.specs.Reaching.{AreReaches, IsInOrder};
ghost use Rattle.name_tables.specs.Sharing.{shares};
ghost use Rattle.std.specs.List.Sorted.{IsPermutation};
ghost use Rattle.std.specs.List.{list_any};
ghost use Rattle.std.specs.Prelude.{◌≡◌, IfOk};

use crate::reach::Reach;
use crate::region::Region;
use cam_base::Made;
use std::alloc::Global;
use std::marker::Model;

/// Regions in the order of their first places. Contracts see it as the list of its regions.
#[derive(Drop)]
pub struct PageIndex {
    regions: Vec<Region>,
    /// How far the first so many regions reach, from none to all.
    reaches: Vec<Reach>,
}

impl Model for PageIndex {
    ghost use Rattle.name_tables.specs.Reaching.{IsIndex};
    ghost use Rattle.name_tables.specs.declared.region.Region.{Region as Pages};
    ghost use Rattle.std.specs.Prelude.{List};

    ghost Value = { List Pages };

    ghost view = { λ s. s.regions.items };

    ghost invariant = { λ s. IsIndex s.regions.items s.reaches.items };
}

fn in_order(alloc: Global, all: &[Region]) -> Made<Vec<Region>>
    ensures order { IfOk result (λ v. IsInOrder v.items) }
    ensures permutation { IfOk result (λ v. IsPermutation all.now v.items) }
{
    let mut regions = all.to_vec(alloc)?;
    regions.sort_unstable_by_key(|region| region.first);
    Ok(regions)
}

fn reaches(alloc: Global, regions: &[Region]) -> Made<Vec<Reach>>
    ensures { IfOk result (λ v. AreReaches regions.now v.items) }
{
    let mut reach = Reach::none();
    let mut found = Vec::new(alloc);
    found.push(reach)?;
    for region in regions {
        reach = reach.with(region);
        found.push(reach)?;
    }
    Ok(found)
}

impl PageIndex {
    /// The index of regions in any order.
    pub fn new(alloc: Global, all: &[Region]) -> Made<PageIndex>
        ensures { IfOk result (λ index. IsPermutation all.now index) }
    {
        let regions = in_order(alloc, all)?;
        let reaches = reaches(alloc, regions.as_slice())?;
        Ok(PageIndex { regions, reaches })
    }

    /// Whether a region of another key shares a page with this one.
    pub fn shares_any(&self, region: &Region) -> bool
        ensures { result ≡ list_any (shares region.now) self.now }
    {
        let end = region.end();
        let before = self
            .regions
            .partition_point(|other| (other.first as u128) < end);
        self.reaches[before].is_behind(region)
    }
}
