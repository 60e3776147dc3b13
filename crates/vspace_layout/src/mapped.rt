//! The pages of domains, before their frames have numbers.

ghost use Rattle.cam_base.specs.Gather.{gather};
ghost use Rattle.std.specs.Prelude.{◌≡◌, ◌<◌, ◌+◌, ◌*◌, ◌^◌, ◌++◌, length, map, OnOk};
ghost use Rattle.vspace_layout.specs.MappedPages.{pages_from, region_page, section_page};
ghost use Rattle.vspace_layout.specs.Outlines.{RegionsFit, starting};

use crate::region::{Content, Region};
use cam_base::{Boxed, List, Made};
use cap_model::Fill;
use cspace_layout::Wiring;
use page_tables::Addressed;
use source_images::SectionPage;

/// What a page shows: a frame of the domain's own, or a page of a connection's memory.
#[derive(Drop)]
pub enum Shown {
    Own(Option<Boxed<Fill>>),
    Memory { connection: u32, page: u64 },
}

/// A page that is mapped, before its frame has a number.
#[derive(Drop)]
pub struct MappedPage {
    pub at: u64,
    pub read: bool,
    pub write: bool,
    pub shown: Shown,
}

impl Addressed for MappedPage {
    ghost address = { λ x. x.at };

    fn address(&self) -> u64 {
        self.at
    }
}

fn section_page(page: SectionPage) -> MappedPage
    ensures { result ≡ section_page page }
{
    let SectionPage { vaddr, write, fill } = page;
    MappedPage {
        at: vaddr,
        read: true,
        write,
        shown: Shown::Own(fill),
    }
}

/// Maps the pages of sections.
pub fn push_sections(sections: List<SectionPage>, pages: &mut Vec<MappedPage>) -> Made<()>
    ensures { OnOk result (pages.new.items ≡ pages.old.items ++ map section_page sections) }
{
    for page in sections.into_vec() {
        pages.push(section_page(page))?;
    }
    Ok(())
}

/// Page `page` of a region, at its address: zeros of the domain's own, or a page of the connection's memory.
fn region_page(wiring: &Wiring<'_>, content: Content, at: u64, page: u64) -> MappedPage
    ensures { result ≡ region_page wiring.now.settled content at page }
{
    match content {
        Content::Stack | Content::Buffer => MappedPage {
            at,
            read: true,
            write: true,
            shown: Shown::Own(None),
        },
        Content::Window(end) => {
            let setting = wiring.setting(end);
            let connection = end.connection;
            MappedPage {
                at,
                read: setting.is_some_and(|setting| setting.read),
                write: setting.is_some_and(|setting| setting.write),
                shown: Shown::Memory { connection, page },
            }
        }
    }
}

fn push_region(
    wiring: &Wiring<'_>,
    start: u64,
    region: Region,
    pages: &mut Vec<MappedPage>,
) -> Made<()>
    requires { start + 4096 * region.pages < 2 ^ 64 }
    ensures { OnOk result (pages.new.items ≡ pages.old.items ++ pages_from wiring.now.settled start region) }
{
    let Region {
        content,
        pages: count,
    } = region;
    let all = (0..count).map(|page| region_page(wiring, content, start + 4096 * page, page));
    pages.extend(all)?;
    Ok(())
}

/// Maps the pages of regions that begin at these addresses.
pub fn push_regions(
    wiring: &Wiring<'_>,
    starts: &[u64],
    regions: &[Region],
    pages: &mut Vec<MappedPage>,
) -> Made<()>
    requires each { length starts.now ≡ length regions.now }
    requires fit { RegionsFit starts.now regions.now }
    ensures { OnOk result (pages.new.items ≡ pages.old.items ++ gather (starting wiring.now.settled starts.now) regions.now) }
{
    for (number, region) in regions.iter().enumerate() {
        push_region(wiring, starts[number], *region, pages)?;
    }
    Ok(())
}
