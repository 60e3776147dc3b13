//! How many pages, page tables and own frames there are. Pages are counted before any is listed.

ghost use Rattle.cspace_layout.specs.Counted.{capped};
ghost use Rattle.source_images.specs.Numbered.{AreCounted};
ghost use Rattle.std.specs.Prelude.{◌≡◌, map, sum, IfOk};
ghost use Rattle.vspace_layout.specs.PageLimits.{tables_of};
ghost use Rattle.vspace_layout.specs.FrameNumbers.{all_own};
ghost use Rattle.vspace_layout.specs.Outlines.{counted_by};
ghost use Rattle.vspace_layout.specs.Regions.{pages_in};

use crate::mapped::{MappedPage, Shown};
use crate::outline::Outline;
use crate::region::Region;
use cam_base::{List, Made};
use cap_model::Arch;
use cspace_layout::Wiring;
use page_tables::table_count;
use source_images::{Images, section_page_count};
use std::alloc::Global;

/// The pages of regions.
pub fn region_pages(regions: &[Region]) -> u64
    ensures { result ≡ capped (pages_in regions.now) }
{
    let mut count: u64 = 0;
    for region in regions {
        count = count.saturating_add(region.pages);
    }
    count
}

/// The pages of all domains, whose outlines these are.
pub fn all_pages(
    alloc: Global,
    wiring: &Wiring<'_>,
    images: &Images,
    outlines: &[Outline],
) -> Made<u64>
    requires { AreCounted images.now }
    ensures { IfOk result (λ n. n ≡ capped (counted_by wiring.now.flat images.now outlines.now)) }
{
    let mut count: u64 = 0;
    for domain in wiring.domains() {
        let pages = section_page_count(alloc, images, domain.leaves.as_slice())?;
        count = count.saturating_add(pages);
    }
    for outline in outlines {
        count = count.saturating_add(region_pages(outline.regions.as_slice()));
    }
    Ok(count)
}

/// The page tables of spaces with these pages.
pub fn all_tables(arch: Arch, spaces: &[List<MappedPage>]) -> u64
    ensures { result ≡ capped (sum (map (tables_of arch) spaces.now)) }
{
    let mut count: u64 = 0;
    for pages in spaces {
        count = count.saturating_add(table_count(arch, pages.as_slice()));
    }
    count
}

/// How many frames of their own domains with these pages have.
pub fn all_own(spaces: &[List<MappedPage>]) -> u64
    ensures { result ≡ capped (all_own spaces.now) }
{
    let mut count: u64 = 0;
    for pages in spaces {
        let own = pages
            .as_slice()
            .iter()
            .filter(|page| matches!(page.shown, Shown::Own(_)))
            .count();
        count = count.saturating_add(own as u64);
    }
    count
}
