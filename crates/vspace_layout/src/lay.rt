//! Spaces, laid out.

ghost use Rattle.adl_meaning.specs.Faults.{Refuses};
ghost use Rattle.cspace_layout.specs.Within.{IsWithin};
ghost use Rattle.source_images.specs.Numbered.{AreApart, AreNumbered, AreSound};
ghost use Rattle.source_images.specs.SpaceFaults.{first_space_fault};
ghost use Rattle.std.specs.Option.{option_or};
ghost use Rattle.std.specs.Prelude.{◌≡◌, ◌≤◌, ◌^◌, ◌++◌, length, sum, None, IfOk};
ghost use Rattle.vspace_layout.specs.CanLay.{AddressesFit, CanLay};
ghost use Rattle.vspace_layout.specs.Given.{given, given_by};
ghost use Rattle.vspace_layout.specs.Laid.{spaces_of};
ghost use Rattle.vspace_layout.specs.Outlines.{AreAllApart, AreFew, AreFit, AreOutlined};
ghost use Rattle.vspace_layout.specs.Outlines.{mapped_by, mapped_of, outlines as all_outlines, space_in, spaces_in, spaces_with};
ghost use Rattle.vspace_layout.specs.PageLimits.{first_page_limit, limit_over, page_counts};
ghost use Rattle.vspace_layout.specs.Regions.{regions_in};

use crate::counts::{all_own, all_pages, all_tables, region_pages};
use crate::frames::number_all;
use crate::mapped::{MappedPage, push_regions, push_sections};
use crate::memory_frames::memory_frames;
use crate::outline::{Outline, outlines_of};
use crate::region::Region;
use crate::spaces::{FrameInfo, Page, Space, Spaces};
use crate::starts::{starts_of, thread_places, window_places};
use adl_ast::Source;
use adl_meaning::{Flat, Settled};
use cam_base::{Fault, List, Made, Refused};
use cspace_layout::{Wiring, limit_fault};
use source_images::{Images, first_space_fault, section_pages, sections_end};
use std::alloc::Global;

/// The most pages of all domains, and the most page tables.
const LIMIT: u64 = 65_536;

/// The pages of a domain with these leaves, by address.
fn mapped_of(
    alloc: Global,
    wiring: &Wiring<'_>,
    images: &Images,
    leaves: &[u32],
    regions: &[Region],
) -> Made<List<MappedPage>>
    requires apart { AreApart images.now leaves.now }
    requires few { AreFew regions.now }
    ensures { IfOk result (λ pages. pages ≡ mapped_of wiring.now.settled images.now leaves.now regions.now) }
{
    let base = sections_end(images.arch());
    let sections = section_pages(alloc, images, leaves)?;
    let count = region_pages(regions).saturating_add(sections.len() as u64);
    let mut pages = Vec::with_capacity(alloc, count as usize)?;
    push_sections(sections, &mut pages)?;
    let starts = starts_of(alloc, base, regions)?;
    push_regions(wiring, starts.as_slice(), regions, &mut pages)?;
    Ok(List::from_vec(pages))
}

/// The pages of each domain, whose outlines these are.
fn all_mapped(
    alloc: Global,
    wiring: &Wiring<'_>,
    images: &Images,
    outlines: &[Outline],
) -> Made<Vec<List<MappedPage>>>
    requires apart { AreAllApart wiring.now.flat images.now }
    requires outlined { AreOutlined wiring.now.flat wiring.now.settled outlines.now }
    ensures { IfOk result (λ all. all.items ≡ mapped_by wiring.now.flat wiring.now.settled images.now outlines.now) }
{
    let mut all = Vec::with_capacity(alloc, outlines.len())?;
    for (number, domain) in wiring.domains().iter().enumerate() {
        let regions = outlines[number].regions.as_slice();
        all.push(mapped_of(alloc, wiring, images, domain.leaves.as_slice(), regions)?)?;
    }
    Ok(all)
}

/// The space of a domain with these pages.
fn space_of(
    alloc: Global,
    wiring: &Wiring<'_>,
    base: u64,
    outline: &Outline,
    pages: List<Page>,
) -> Made<Space>
    requires base { base ≤ 2 ^ 40 }
    requires few { AreFew outline.now.regions }
    requires regions { outline.now.regions
        ≡ regions_in wiring.now.flat wiring.now.settled outline.now.threads outline.now.windows }
    ensures { IfOk result (λ space. space ≡ space_in wiring.now.flat wiring.now.settled base outline.now pages) }
{
    let starts = starts_of(alloc, base, outline.regions.as_slice())?;
    let starts = starts.as_slice();
    let threads = outline.threads.as_slice();
    let windows = outline.windows.as_slice();
    Ok(Space {
        pages,
        threads: thread_places(alloc, wiring, starts, threads)?,
        windows: window_places(alloc, wiring, starts, 2 * threads.len(), windows)?,
    })
}

/// The spaces of all domains with these pages, whose outlines these are.
fn spaces_with(
    alloc: Global,
    wiring: &Wiring<'_>,
    base: u64,
    outlines: &[Outline],
    all: Vec<List<Page>>,
) -> Made<List<Space>>
    requires base { base ≤ 2 ^ 40 }
    requires outlined { AreOutlined wiring.now.flat wiring.now.settled outlines.now }
    requires each { length all.items ≡ length outlines.now }
    ensures { IfOk result (λ spaces. spaces ≡ spaces_with wiring.now.flat wiring.now.settled base outlines.now all.items) }
{
    let mut spaces = List::from_vec(Vec::with_capacity(alloc, outlines.len())?);
    let mut domain: usize = 0;
    for pages in all {
        spaces.push(space_of(alloc, wiring, base, &outlines[domain], pages)?)?;
        domain += 1;
    }
    Ok(spaces)
}

fn joined(own: List<FrameInfo>, memory: List<FrameInfo>) -> Made<List<FrameInfo>>
    ensures { IfOk result (λ frames. frames ≡ own ++ memory) }
{
    let mut frames = own.into_vec();
    frames.append(&mut memory.into_vec())?;
    Ok(List::from_vec(frames))
}

/// The spaces of all domains with these pages, and all frames.
fn lay(
    alloc: Global,
    wiring: &Wiring<'_>,
    base: u64,
    outlines: &[Outline],
    mapped: Vec<List<MappedPage>>,
) -> Made<Spaces>
    requires base { base ≤ 2 ^ 40 }
    requires mapped { AreFit wiring.now.flat wiring.now.settled mapped.items }
    requires outlined { AreOutlined wiring.now.flat wiring.now.settled outlines.now }
    requires connections { length wiring.now.flat.connections ≤ 4096 }
    requires addresses { AddressesFit wiring.now.flat wiring.now.settled }
    ensures { IfOk result (λ spaces. spaces ≡ spaces_in wiring.now.flat wiring.now.settled base outlines.now mapped.items) }
{
    let count = all_own(&mapped);
    let memory = memory_frames(alloc, count, wiring)?;
    let room = count.saturating_add(memory.frames.len() as u64);
    let mut own = List::from_vec(Vec::with_capacity(alloc, room as usize)?);
    let pages = number_all(alloc, mapped, &memory.firsts, &mut own)?;
    let spaces = spaces_with(alloc, wiring, base, outlines, pages)?;
    let frames = joined(own, memory.frames)?;
    Ok(Spaces { spaces, frames })
}

/// The fault of the limit of that name, where the count passes it.
fn limit_over(alloc: Global, source: &Source, count: u64, name: &[u8]) -> Made<Option<Fault>>
    ensures { IfOk result (λ fault. fault ≡ limit_over source.now count name.now) }
{
    if count > LIMIT {
        limit_fault(alloc, source, name)
    } else {
        Ok(None)
    }
}

/// The spaces of all domains, whose outlines these are, where no fault of sections stands and pages are few.
fn lay_few(
    alloc: Global,
    wiring: &Wiring<'_>,
    images: &Images,
    outlines: &[Outline],
) -> Result<Spaces, Refused<Fault>>
    requires outlines { outlines.now ≡ all_outlines wiring.now }
    requires apart { AreAllApart wiring.now.flat images.now }
    requires settled { CanLay (given_by wiring.now images.now) }
    requires few { sum (page_counts (given_by wiring.now images.now)) ≤ 65536 }
    ensures faults { Refuses result (first_page_limit (given_by wiring.now images.now)) }
    ensures spaces { IfOk result (λ spaces. spaces ≡ spaces_of (given_by wiring.now images.now)) }
{
    let source = wiring.source();
    let mapped = all_mapped(alloc, wiring, images, outlines)?;
    let tables = all_tables(images.arch(), &mapped);
    if let Some(fault) = limit_over(alloc, source, tables, b"tables")? {
        return Err(Refused::Fault(fault));
    }
    let base = sections_end(images.arch());
    Ok(lay(alloc, wiring, base, outlines, mapped)?)
}

/// The spaces of all domains and all frames, where no fault of sections stands: `specs/Laid.antt`. Whoever tells other faults
/// between those of sections and the limits on pages looks for the former first, and calls this.
///
/// # Errors
///
/// The first limit on pages that is passed (`specs/PageLimits.antt`). Want of memory.
pub fn lay_apart(
    alloc: Global,
    wiring: &Wiring<'_>,
    images: &Images,
) -> Result<Spaces, Refused<Fault>>
    requires numbered { AreNumbered wiring.now.flat images.now }
    requires sound { AreSound images.now }
    requires settled { CanLay (given_by wiring.now images.now) }
    requires apart { first_space_fault wiring.now.flat images.now ≡ None }
    ensures faults { Refuses result (first_page_limit (given_by wiring.now images.now)) }
    ensures spaces { IfOk result (λ spaces. spaces ≡ spaces_of (given_by wiring.now images.now)) }
{
    let source = wiring.source();
    let outlines = outlines_of(alloc, wiring)?;
    let pages = all_pages(alloc, wiring, images, &outlines)?;
    if let Some(fault) = limit_over(alloc, source, pages, b"pages")? {
        return Err(Refused::Fault(fault));
    }
    lay_few(alloc, wiring, images, &outlines)
}

/// The spaces of all domains and all frames: `specs/Laid.antt`.
///
/// # Errors
///
/// The first fault of sections (`first_space_fault`), else the first limit on pages that is passed
/// (`specs/PageLimits.antt`). Want of memory.
pub fn lay_spaces(
    alloc: Global,
    source: &Source,
    flat: &Flat,
    settled: &Settled,
    images: &Images,
) -> Result<Spaces, Refused<Fault>>
    requires within { IsWithin source.now flat.now }
    requires numbered { AreNumbered flat.now images.now }
    requires sound { AreSound images.now }
    requires settled { CanLay (given source.now flat.now settled.now images.now) }
    ensures faults { Refuses result (option_or (first_space_fault flat.now images.now)
        (first_page_limit (given source.now flat.now settled.now images.now))) }
    ensures spaces { IfOk result (λ spaces. spaces ≡ spaces_of (given source.now flat.now settled.now images.now)) }
{
    match first_space_fault(alloc, flat, images)? {
        Some(fault) => Err(Refused::Fault(fault)),
        None => lay_apart(alloc, &Wiring::new(alloc, source, flat, settled)?, images),
    }
}
