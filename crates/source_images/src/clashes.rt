//! Sections that have a page in common.

ghost use Rattle.cam_base.specs.Gather.{IsIn};
ghost use Rattle.source_images.specs.Images.{Placed as Told};
ghost use Rattle.source_images.specs.SpaceFaults.{clashes};
ghost use Rattle.source_images.specs.SectionPages.{placed_told, region_of, sections_told};
ghost use Rattle.std.specs.List.Sorted.{IsPermutation};
ghost use Rattle.std.specs.Prelude.{◌≡◌, ◌<◌, ℕ, false, length, map, slice_index_or, IfOk};

use crate::sections::{Placed, page_count};
use cam_base::Made;
use name_tables::{PageIndex, Region};
use std::alloc::Global;

/// The pages of a section.
fn region_of(placed: &Placed<'_>) -> Region
    ensures { result ≡ region_of (placed_told placed.now) }
{
    Region {
        key: (placed.image, placed.number),
        first: placed.section.vaddr / 4096,
        count: page_count(placed.section),
    }
}

fn index_of(alloc: Global, sections: &[Placed<'_>]) -> Made<PageIndex>
    ensures { IfOk result (λ index. IsPermutation (map region_of (sections_told sections.now)) index) }
{
    let mut regions = Vec::with_capacity(alloc, sections.len())?;
    for placed in sections {
        regions.push(region_of(placed))?;
    }
    PageIndex::new(alloc, &regions)
}

/// Which images have a section that has a page of another one, of so many images.
pub fn clashing(alloc: Global, sections: &[Placed<'_>], images: usize) -> Made<Vec<bool>>
    requires { (x : Told) → IsIn x (sections_told sections.now) → x.image < images }
    ensures count { IfOk result (λ v. length v.items ≡ images) }
    ensures marks { IfOk result (λ v. (m : ℕ) → slice_index_or v.items m false ≡ clashes (sections_told sections.now) m) }
{
    let mut marks = vec![in alloc; false; images]?;
    if sections.len() < 2 {
        return Ok(marks);
    }
    let index = index_of(alloc, sections)?;
    for placed in sections {
        if index.shares_any(&region_of(placed)) {
            marks[placed.image as usize] = true;
        }
    }
    Ok(marks)
}
