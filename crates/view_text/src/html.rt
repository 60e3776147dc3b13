ghost use Rattle.std.specs.List.{flat_map};
ghost use Rattle.std.specs.Prelude.{◌≡◌, ◌++◌, map, codes, OnOk};
ghost use Rattle.view_text.specs.Html.{escaped, escaped_byte, table_of, table_row, tagged, whole_table};

use crate::Row;
use crate::texts::add;
use cam_base::{List, Made, Text};

fn add_escaped_byte(text: &mut List<u8>, byte: u8) -> Made<()>
    ensures { OnOk result (text.new ≡ text.old ++ escaped_byte byte) }
{
    match byte {
        b'&' => text.extend(b"&amp;"),
        b'<' => text.extend(b"&lt;"),
        b'>' => text.extend(b"&gt;"),
        b'"' => text.extend(b"&quot;"),
        b'\'' => text.extend(b"&#39;"),
        _ => text.push(byte),
    }
}

/// Puts a text behind another, so that nothing in it is markup.
pub fn add_escaped(text: &mut List<u8>, bytes: &[u8]) -> Made<()>
    ensures { OnOk result (text.new ≡ text.old ++ escaped bytes.now) }
{
    for byte in bytes {
        add_escaped_byte(text, *byte)?;
    }
    Ok(())
}

/// Puts an element that holds a text behind a text.
pub fn add_tagged(text: &mut List<u8>, tag: &[u8], bytes: &[u8]) -> Made<()>
    ensures { OnOk result (text.new ≡ text.old ++ tagged tag.now bytes.now) }
{
    add(text, &[b"<", tag, b">"])?;
    add_escaped(text, bytes)?;
    add(text, &[b"</", tag, b">"])
}

/// Puts the cells of a row of names behind a text.
fn add_heads(text: &mut List<u8>, heads: &[&[u8]]) -> Made<()>
    ensures { OnOk result (text.new ≡ text.old ++ flat_map (tagged (codes "th")) (map (λ h. h.now) heads.now)) }
{
    for head in heads {
        add_tagged(text, b"th", head)?;
    }
    Ok(())
}

fn add_head_row(text: &mut List<u8>, heads: &[&[u8]]) -> Made<()>
    ensures { OnOk result (text.new ≡ text.old ++ table_row (codes "th") (map (λ h. h.now) heads.now)) }
{
    text.extend(b"<tr>")?;
    add_heads(text, heads)?;
    text.extend(b"</tr>\n")
}

fn add_cells(text: &mut List<u8>, cells: &[Text]) -> Made<()>
    ensures { OnOk result (text.new ≡ text.old ++ flat_map (tagged (codes "td")) cells.now) }
{
    for cell in cells {
        add_tagged(text, b"td", cell.as_bytes())?;
    }
    Ok(())
}

fn add_row(text: &mut List<u8>, cells: &[Text]) -> Made<()>
    ensures { OnOk result (text.new ≡ text.old ++ table_row (codes "td") cells.now) }
{
    text.extend(b"<tr>")?;
    add_cells(text, cells)?;
    text.extend(b"</tr>\n")
}

fn add_rows(text: &mut List<u8>, rows: &[Row]) -> Made<()>
    ensures { OnOk result (text.new ≡ text.old ++ flat_map (table_row (codes "td")) rows.now) }
{
    for row in rows {
        add_row(text, row.as_slice())?;
    }
    Ok(())
}

fn add_whole_table(text: &mut List<u8>, title: &[u8], heads: &[&[u8]], rows: &[Row]) -> Made<()>
    ensures { OnOk result (text.new ≡ text.old ++ whole_table title.now (map (λ h. h.now) heads.now) rows.now) }
{
    text.extend(b"<table>\n")?;
    add_tagged(text, b"caption", title)?;
    add_head_row(text, heads)?;
    add_rows(text, rows)?;
    text.extend(b"</table>\n")
}

/// Puts a table with its title, the names of its columns and its rows behind a text, where it has rows.
pub fn add_table(text: &mut List<u8>, title: &[u8], heads: &[&[u8]], rows: &[Row]) -> Made<()>
    ensures { OnOk result (text.new ≡ text.old ++ table_of title.now (map (λ h. h.now) heads.now) rows.now) }
{
    match rows {
        [] => Ok(()),
        [..] => add_whole_table(text, title, heads, rows),
    }
}
