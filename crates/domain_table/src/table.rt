//! The tables, one below another.

ghost use Rattle.domain_table.specs.Tables.{heading, page_head, root_name, slot_head, table_text, tables_in, tables_of, tables_text, thread_head, window_head};
ghost use Rattle.std.specs.Prelude.{◌≡◌, ◌++◌, IfOk, OnOk};
ghost use Rattle.system_spec.specs.MapText.{named};

use crate::domain::NamedDomain;
use crate::row::{Rows, add_rows};
use cam_base::{List, Made, Name, Text};
use cap_model::Spec;
use std::alloc::Global;
use system_spec::{MapLine, MapNames, Series};
use view_text::join;

/// The name of the root of a domain's space.
pub(crate) fn root_name(alloc: Global, spec: &Spec, domain: u32) -> Made<Name>
    ensures { IfOk result (λ name. name ≡ root_name spec.now domain) }
{
    Series::of_root(spec.arch).name(alloc, domain as u64)
}

/// The line above the tables of a domain: its label, its CNode and the root of its space.
pub fn heading(alloc: Global, names: &MapNames<'_>, domain: u32, label: &[u8]) -> Made<List<u8>>
    ensures { IfOk result (λ text. text ≡ heading (named names.now) domain label.now) }
{
    let cnode = Series::CNode.name(alloc, domain as u64)?;
    let root = root_name(alloc, names.spec, domain)?;
    join(
        alloc,
        &[
            b"domain ",
            label,
            b": ",
            cnode.as_bytes(),
            b", ",
            root.as_bytes(),
            b"\n",
        ],
    )
}

/// What is inside a domain: the rows of its slots, threads, windows and pages.
#[derive(Drop)]
pub struct DomainTables {
    pub slots: Rows,
    pub threads: Rows,
    pub windows: Rows,
    pub pages: Rows,
}

/// What is inside the domain with this number, by the lines of the map.
pub fn tables_in(
    alloc: Global,
    names: &MapNames<'_>,
    lines: &[MapLine],
    domain: u32,
) -> Made<DomainTables>
    ensures { IfOk result (λ tables. tables ≡ tables_in (named names.now) lines.now domain) }
{
    let domain = NamedDomain {
        alloc,
        names: *names,
        number: domain,
    };
    Ok(DomainTables {
        slots: domain.slots(lines)?,
        threads: domain.threads(lines)?,
        windows: domain.windows(lines)?,
        pages: domain.pages()?,
    })
}

#[tactic(auto, unfolding(crate::specs::Tables::table_text))]
fn add_table(text: &mut List<u8>, head: &[u8], rows: &[List<Text>]) -> Made<()>
    ensures { OnOk result (text.new ≡ text.old ++ table_text head.now rows.now) }
{
    text.extend(head)?;
    add_rows(text, rows)
}

fn add_slots(text: &mut List<u8>, rows: &[List<Text>]) -> Made<()>
    ensures { OnOk result (text.new ≡ text.old ++ table_text slot_head rows.now) }
{
    add_table(
        text,
        b"\n| slot | object | rights | badge | of |\n|---|---|---|---|---|\n",
        rows,
    )
}

fn add_threads(text: &mut List<u8>, rows: &[List<Text>]) -> Made<()>
    ensures { OnOk result (text.new ≡ text.old ++ table_text thread_head rows.now) }
{
    add_table(
        text,
        b"\n| thread | object | entry | stack | buffer |\n|---|---|---|---|---|\n",
        rows,
    )
}

fn add_windows(text: &mut List<u8>, rows: &[List<Text>]) -> Made<()>
    ensures { OnOk result (text.new ≡ text.old ++ table_text window_head rows.now) }
{
    add_table(
        text,
        b"\n| window | address | bytes |\n|---|---|---|\n",
        rows,
    )
}

fn add_pages(text: &mut List<u8>, rows: &[List<Text>]) -> Made<()>
    ensures { OnOk result (text.new ≡ text.old ++ table_text page_head rows.now) }
{
    add_table(
        text,
        b"\n| page | frame | rights | holds |\n|---|---|---|---|\n",
        rows,
    )
}

fn add_tables(text: &mut List<u8>, tables: &DomainTables) -> Made<()>
    ensures { OnOk result (text.new ≡ text.old ++ tables_text tables.now) }
{
    add_slots(text, tables.slots.as_slice())?;
    add_threads(text, tables.threads.as_slice())?;
    add_windows(text, tables.windows.as_slice())?;
    add_pages(text, tables.pages.as_slice())
}

/// The tables of the domain with this number and this label, by the lines of the map, as text.
pub fn tables_of(
    alloc: Global,
    names: &MapNames<'_>,
    lines: &[MapLine],
    domain: u32,
    label: &[u8],
) -> Made<List<u8>>
    ensures { IfOk result (λ text. text ≡ tables_of (named names.now) lines.now domain label.now) }
{
    let tables = tables_in(alloc, names, lines, domain)?;
    let mut text = heading(alloc, names, domain, label)?;
    add_tables(&mut text, &tables)?;
    Ok(text)
}
