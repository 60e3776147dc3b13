//! The page tables of all domains, and their numbers.

ghost use Rattle.cam_base.specs.Gather.{gather};
ghost use Rattle.std.specs.Prelude.{◌≡◌, ◌<◌, ◌+◌, ◌^◌, ◌++◌, ◌∷◌, [], map, length, IfOk, OnOk};
ghost use Rattle.system_spec.specs.Buildable.{AreFew, AreShown, IsShown, table_count};
ghost use Rattle.system_spec.specs.Parts.{counted, one_more, all_tables, page_mapping, page_table, table_parts, tables_at};
ghost use Rattle.system_spec.specs.Tables.{pages_at, told};

use crate::tables::{Tables, pages_at};
use crate::{PageTable, Part, Series, What};
use arch_policy::Owner;
use cam_base::{List, Made};
use cap_model::{Cap, Level, Object, Rights};
use page_tables::{Mapping, levels_of, push_tables_of};
use std::alloc::Global;
use vspace_layout::Page;

/// A page as a mapping, where frame 0 stands at this place.
fn mapping(frames: u32, page: Page) -> Mapping
    requires { IsShown frames page }
    ensures { result ≡ page_mapping frames page }
{
    Mapping {
        at: page.vaddr,
        cap: Cap {
            object: frames + page.frame,
            rights: Rights {
                read: page.read,
                write: page.write,
                ..Rights::none()
            },
            badge: 0,
        },
    }
}

/// The pages as mappings.
fn mappings(alloc: Global, frames: u32, pages: &[Page]) -> Made<Vec<Mapping>>
    requires { AreShown frames pages.now }
    ensures { IfOk result (λ mappings. mappings.items ≡ map (page_mapping frames) pages.now) }
{
    Ok(
        pages
            .iter()
            .map(|page| mapping(frames, *page))
            .collect(alloc)?,
    )
}

/// Puts the page tables of a domain behind the others, where the first of them and frame 0 stand at these places.
pub fn push_tables_at(
    alloc: Global,
    tables: &Tables<'_>,
    first: u32,
    frames: u32,
    domain: u32,
    objects: &mut List<Object>,
) -> Made<()>
    requires shown { AreShown frames (pages_at (told tables.now) domain) }
    requires few { first + table_count (told tables.now) frames domain < 2 ^ 32 }
    ensures { OnOk result (objects.new ≡ objects.old ++ tables_at (told tables.now) first frames domain) }
{
    let mappings = mappings(alloc, frames, pages_at(tables, domain))?;
    push_tables_of(alloc, tables.images.arch(), first, &mappings, objects)
}

/// Puts the page tables of a domain, which have these levels, behind the others.
fn push_page_tables(domain: u32, levels: &[Level], all: &mut List<PageTable>) -> Made<()>
    requires { length levels.now < 2 ^ 32 }
    ensures { OnOk result (all.new ≡ all.old ++ gather (λ j level. page_table domain j level ∷ []) levels.now) }
{
    for (place, level) in levels.iter().enumerate() {
        all.push(PageTable {
            domain,
            place: place as u32,
            level: *level,
        })?;
    }
    Ok(())
}

/// The page tables of all domains.
pub fn all_tables(alloc: Global, tables: &Tables<'_>) -> Made<List<PageTable>>
    requires { AreFew (told tables.now) }
    ensures { IfOk result (λ all. all ≡ all_tables (told tables.now)) }
{
    let mut all = List::new(alloc);
    for number in 0..tables.flat.domains.len() as u32 {
        let levels = levels_of(alloc, tables.images.arch(), pages_at(tables, number))?;
        push_page_tables(number, levels.as_slice(), &mut all)?;
    }
    Ok(all)
}

/// How many page tables of each level there are.
#[derive(Clone, Copy)]
pub struct LevelCounts {
    pub global: u32,
    pub upper: u32,
    pub directory: u32,
    pub table: u32,
}

fn counted(counts: LevelCounts, level: Level) -> u32
    ensures { result ≡ counted counts level }
{
    match level {
        Level::Global => counts.global,
        Level::Upper => counts.upper,
        Level::Directory => counts.directory,
        Level::Table => counts.table,
    }
}

fn one_more(counts: LevelCounts, level: Level) -> LevelCounts
    requires { counted counts level + 1 < 2 ^ 32 }
    ensures { result ≡ one_more counts level }
{
    let mut more = counts;
    match level {
        Level::Global => more.global += 1,
        Level::Upper => more.upper += 1,
        Level::Directory => more.directory += 1,
        Level::Table => more.table += 1,
    }
    more
}

/// The parts of the page tables, each level numbered for itself.
pub fn table_parts(alloc: Global, tables: &[PageTable]) -> Made<List<Part>>
    requires { length tables.now < 2 ^ 32 }
    ensures { IfOk result (λ parts. parts ≡ table_parts tables.now) }
{
    let mut parts = List::from_vec(Vec::with_capacity(alloc, tables.len())?);
    let mut counts = LevelCounts {
        global: 0,
        upper: 0,
        directory: 0,
        table: 0,
    };
    for table in tables {
        parts.push(Part {
            series: Series::of_level(table.level),
            number: counted(counts, table.level),
            owner: Owner::OfDomain(table.domain),
            what: What::TableOf(table.domain, table.place),
        })?;
        counts = one_more(counts, table.level);
    }
    Ok(parts)
}
