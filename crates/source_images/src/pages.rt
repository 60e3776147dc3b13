//! The pages of sections, by address.

ghost use Rattle.source_images.specs.ByAddress.{by_address, page_at, section_page_count, section_pages};
ghost use Rattle.source_images.specs.Images.{sections_of};
ghost use Rattle.source_images.specs.Numbered.{AreApart, AreCounted};
ghost use Rattle.source_images.specs.SectionPages.{fill_of, page_count, sections_told};
ghost use Rattle.sect_table.specs.Sections.{is_sound};
ghost use Rattle.std.specs.List.{range_with_len};
ghost use Rattle.std.specs.Prelude.{◌≡◌, ◌<◌, ◌-◌, ◌^◌, ◌++◌, map, min, IfOk, IsTrue, OnOk};

use crate::images::Images;
use crate::sections::{Placed, page_count, sections_of};
use cam_base::{Boxed, List, Made, Name, Text};
use cap_model::Fill;
use sect_table::Section;
use std::alloc::Global;

/// A page of a section.
#[derive(Drop)]
pub struct SectionPage {
    pub vaddr: u64,
    pub write: bool,
    /// Its bytes of the program's file; without it the page is zeros.
    pub fill: Option<Boxed<Fill>>,
}

/// What page `number` of a section is filled with, from the file of that name.
fn fill_of(alloc: Global, file: &Name, section: &Section, number: u64) -> Made<Option<Boxed<Fill>>>
    requires sound { IsTrue (is_sound section.now) }
    requires number { number < page_count section.now }
    ensures { IfOk result (λ r. r ≡ fill_of file.now section.now number) }
{
    let Some(at) = section.at else {
        return Ok(None);
    };
    let before = 4096 * number;
    let fill = Fill {
        offset: 0,
        length: (section.size - before).min(4096),
        file: Text::new(alloc, file.as_bytes())?,
        at: at + before,
    };
    Ok(Some(Boxed::new(alloc, fill)?))
}

/// Page `number` of a section.
fn page_at(alloc: Global, file: &Name, section: &Section, number: u64) -> Made<SectionPage>
    requires sound { IsTrue (is_sound section.now) }
    requires number { number < page_count section.now }
    ensures { IfOk result (λ page. page ≡ page_at file.now section.now number) }
{
    Ok(SectionPage {
        vaddr: section.vaddr + 4096 * number,
        write: section.write,
        fill: fill_of(alloc, file, section, number)?,
    })
}

fn push_pages(
    alloc: Global,
    file: &Name,
    section: &Section,
    pages: &mut List<SectionPage>,
) -> Made<()>
    requires { IsTrue (is_sound section.now) }
    ensures { OnOk result (pages.new ≡ pages.old ++ map (page_at file.now section.now)
        (range_with_len 0 (page_count section.now))) }
{
    for number in 0..page_count(section) {
        pages.push(page_at(alloc, file, section, number)?)?;
    }
    Ok(())
}

fn by_address<'a>(alloc: Global, images: &'a Images, leaves: &[u32]) -> Made<Vec<Placed<'a>>>
    requires { AreApart images.now leaves.now }
    ensures { IfOk result (λ v. sections_told v.items ≡ by_address (sections_of images.now leaves.now)) }
{
    let mut sections = sections_of(alloc, images, leaves)?;
    sections.sort_unstable_by_key(|placed| placed.section.vaddr);
    Ok(sections)
}

/// The pages of the programs that leaves run, by address: `specs/ByAddress.antt`.
pub fn section_pages(alloc: Global, images: &Images, leaves: &[u32]) -> Made<List<SectionPage>>
    requires { AreApart images.now leaves.now }
    ensures { IfOk result (λ pages. pages ≡ section_pages images.now leaves.now) }
{
    let sections = by_address(alloc, images, leaves)?;
    let mut pages = List::new(alloc);
    for placed in sections.as_slice() {
        let image = &images.images.as_slice()[placed.image as usize];
        push_pages(alloc, &image.name, placed.section, &mut pages)?;
    }
    Ok(pages)
}

/// How many pages the programs have that leaves run, at most the greatest number of 64 bits.
pub fn section_page_count(alloc: Global, images: &Images, leaves: &[u32]) -> Made<u64>
    requires { AreCounted images.now }
    ensures { IfOk result (λ n. n ≡ min (section_page_count images.now leaves.now) (2 ^ 64 - 1)) }
{
    let sections = sections_of(alloc, images, leaves)?;
    let mut count: u64 = 0;
    for placed in sections.as_slice() {
        count = count.saturating_add(page_count(placed.section));
    }
    Ok(count)
}
