//! The page.

ghost use Rattle.view_tool.specs.Pages.{domain_part, domain_parts, devices_part, file_row, files_part, matrix_part, page_head, page_text, style, summary_part, tables_part, theorem, told};
ghost use Rattle.std.specs.Prelude.{◌≡◌, ◌<◌, ◌^◌, ◌++◌, length, map, IfOk, OnOk};
ghost use Rattle.system_spec.specs.MapText.{named};

use crate::devices::device_rows;
use crate::matrix::add_matrix;
use adl_ast::Source;
use adl_meaning::{Domain, Settled};
use arch_compile::Summary;
use cam_base::{List, Made, Text};
use cap_model::Policy;
use domain_table::{DomainTables, heading, push_row, tables_in};
use itoa::Buffer;
use std::alloc::Global;
use system_spec::{MapLine, MapNames};
use view_text::{Row, add, add_table, add_tagged};

/// What a page tells of.
#[derive(Clone, Copy)]
pub(crate) struct Page<'a> {
    /// The path of the source's root.
    pub(crate) root: &'a [u8],
    pub(crate) names: MapNames<'a>,
    pub(crate) settled: &'a Settled,
    pub(crate) map: &'a [MapLine],
    pub(crate) policy: &'a Policy,
    /// The lines of the first reason of each edge of the policy; none where they aren't told.
    pub(crate) notes: &'a [Text],
}

fn add_style(text: &mut List<u8>) -> Made<()>
    ensures { OnOk result (text.new ≡ text.old ++ style) }
{
    add(
        text,
        &[
            b"\n<style>\nbody { font: 15px/1.4 sans-serif; margin: 2em; color: #222 }\n",
            b"table { border-collapse: collapse; margin: 1em 0 }\n",
            b"caption { text-align: left; font-weight: bold; padding: .3em 0 }\n",
            b"td, th { border: 1px solid #bbb; padding: .2em .5em; text-align: left; vertical-align: top }\n",
            b"th { background: #eef2f6; font-weight: normal }\n",
            b".wide { overflow: auto; max-height: 90vh }\n",
            b".matrix tr:first-child th { writing-mode: vertical-lr; padding: .5em .2em; position: sticky; top: 0 }\n",
            b".matrix tr:not(:first-child) th { position: sticky; left: 0 }\n",
            b"abbr { text-decoration: underline dotted #888; cursor: help }\n",
            b"blockquote { border-left: 4px solid #9ab; margin: 1em 0; padding: .2em 1em; background: #f5f7f9 }\n",
            b"</style>\n</head>\n<body>\n",
        ],
    )
}

fn add_head(text: &mut List<u8>, root: &[u8]) -> Made<()>
    ensures { OnOk result (text.new ≡ text.old ++ page_head root.now) }
{
    text.extend(b"<!DOCTYPE html>\n<html lang=\"en\">\n<head>\n<meta charset=\"utf-8\">\n")?;
    add_tagged(text, b"title", root)?;
    add_style(text)?;
    add_tagged(text, b"h1", root)
}

fn add_theorem(text: &mut List<u8>) -> Made<()>
    ensures { OnOk result (text.new ≡ text.old ++ theorem) }
{
    add(
        text,
        &[
            b"\n<h2>What is proved</h2>\n<blockquote>Where the files' contents are told, <code>compile</code> writes its texts\n",
            b"exactly where no fault stands in the source, else names the first; the capDL written, read back, lets threads\n",
            b"reach between labels, over every interleaving of steps, exactly what the connectors assign to the unflattened\n",
            b"source; and for any texts <code>check</code> says yes only if everything reachable between labels lies in the\n",
            b"policy.</blockquote>\n<p>This page is of what <code>camkes compile</code> makes of the source. What stands in\n",
            b"each of its tables is a definition, and proved. Proved with ",
            b"<code>rattle-kit-13f logic dac8208d650f15bf</code>.</p>\n",
        ],
    )
}

fn file_rows(alloc: Global, source: &Source) -> Made<List<Row>>
    ensures { IfOk result (λ rows. rows ≡ map file_row source.now.files) }
{
    let mut rows = List::new(alloc);
    for file in source.files.as_slice() {
        let mut digits = Buffer::new();
        let bytes = digits.format(file.bytes.len()).as_bytes();
        push_row(alloc, &mut rows, &[file.name.as_bytes(), bytes])?;
    }
    Ok(rows)
}

fn add_files(alloc: Global, text: &mut List<u8>, source: &Source) -> Made<()>
    ensures { OnOk result (text.new ≡ text.old ++ files_part source.now) }
{
    let rows = file_rows(alloc, source)?;
    add_table(text, b"Files", &[b"file", b"bytes"], rows.as_slice())
}

fn add_summary(alloc: Global, text: &mut List<u8>, summary: Summary) -> Made<()>
    ensures { OnOk result (text.new ≡ text.old ++ summary_part summary) }
{
    let mut rows = List::new(alloc);
    push_row(
        alloc,
        &mut rows,
        &[
            Buffer::new().format(summary.domains).as_bytes(),
            Buffer::new().format(summary.threads).as_bytes(),
            Buffer::new().format(summary.connections).as_bytes(),
            Buffer::new().format(summary.objects).as_bytes(),
            Buffer::new().format(summary.capabilities).as_bytes(),
            Buffer::new().format(summary.edges).as_bytes(),
        ],
    )?;
    add_table(
        text,
        b"Summary",
        &[
            b"domains",
            b"threads",
            b"connections",
            b"objects",
            b"capabilities",
            b"edges",
        ],
        rows.as_slice(),
    )
}

fn add_matrix_part(alloc: Global, text: &mut List<u8>, policy: &Policy, notes: &[Text]) -> Made<()>
    ensures { OnOk result (text.new ≡ text.old ++ matrix_part policy.now notes.now) }
{
    add(
        text,
        &[
            b"<h2>Who may do what to whom</h2>\n<p>The label of a row may do to the label of a column what stands in the\n",
            b"cell. Where the pointer rests on a word, its first reason is shown; where there are more than 2,000 edges,\n",
            b"<code>camkes explain</code> tells it.</p>\n<div class=\"wide\">\n",
        ],
    )?;
    add_matrix(alloc, text, policy, notes)?;
    text.extend(b"</div>\n")
}

fn add_tables(text: &mut List<u8>, tables: &DomainTables) -> Made<()>
    ensures { OnOk result (text.new ≡ text.old ++ tables_part tables.now) }
{
    add_table(
        text,
        b"Slots",
        &[b"slot", b"object", b"rights", b"badge", b"of"],
        tables.slots.as_slice(),
    )?;
    add_table(
        text,
        b"Threads",
        &[b"thread", b"object", b"entry", b"stack", b"buffer"],
        tables.threads.as_slice(),
    )?;
    add_table(
        text,
        b"Windows",
        &[b"window", b"address", b"bytes"],
        tables.windows.as_slice(),
    )?;
    add_table(
        text,
        b"Pages",
        &[b"page", b"frame", b"rights", b"holds"],
        tables.pages.as_slice(),
    )
}

fn add_domain(
    alloc: Global,
    text: &mut List<u8>,
    names: &MapNames,
    lines: &[MapLine],
    number: u32,
    domain: &Domain,
) -> Made<()>
    ensures { OnOk result (text.new ≡ text.old ++ domain_part (named names.now) lines.now number domain.now) }
{
    let label = domain.path.text(alloc)?;
    let heading = heading(alloc, names, number, label.as_bytes())?;
    let tables = tables_in(alloc, names, lines, number)?;
    add_tagged(text, b"h3", heading.as_slice())?;
    add_tables(text, &tables)
}

fn add_domains(alloc: Global, text: &mut List<u8>, names: &MapNames, lines: &[MapLine]) -> Made<()>
    requires { length names.now.flat.now.domains < 2 ^ 32 }
    ensures { OnOk result (text.new ≡ text.old ++ domain_parts (named names.now) lines.now) }
{
    let domains = names.flat.domains.as_slice();
    for (number, domain) in domains.iter().enumerate() {
        add_domain(alloc, text, names, lines, number as u32, domain)?;
    }
    Ok(())
}

fn add_devices(alloc: Global, text: &mut List<u8>, names: &MapNames, settled: &Settled) -> Made<()>
    ensures { OnOk result (text.new ≡ text.old ++ devices_part (named names.now) settled.now) }
{
    let rows = device_rows(alloc, names, settled)?;
    add_table(
        text,
        b"Devices",
        &[b"device", b"address", b"bytes", b"interrupt"],
        rows.as_slice(),
    )
}

fn add_parts(alloc: Global, text: &mut List<u8>, page: &Page) -> Made<()>
    requires { length page.now.names.flat.now.domains < 2 ^ 32 }
    ensures { OnOk result (text.new ≡ text.old ++ page_text (told page.now)) }
{
    let names = page.names;
    let summary = Summary::of(names.flat, names.spec, &page.policy.edges);
    add_head(text, page.root)?;
    add_theorem(text)?;
    add_files(alloc, text, names.source)?;
    add_summary(alloc, text, summary)?;
    add_devices(alloc, text, &names, page.settled)?;
    add_matrix_part(alloc, text, page.policy, page.notes)?;
    text.extend(b"<h2>Domains</h2>\n")?;
    add_domains(alloc, text, &names, page.map)?;
    text.extend(b"</body>\n</html>\n")
}

/// The page of a source, as HTML.
pub(crate) fn page_text(alloc: Global, page: &Page) -> Made<List<u8>>
    requires { length page.now.names.flat.now.domains < 2 ^ 32 }
    ensures { IfOk result (λ text. text ≡ page_text (told page.now)) }
{
    let mut text = List::new(alloc);
    add_parts(alloc, &mut text, page)?;
    Ok(text)
}
