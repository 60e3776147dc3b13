ghost use Rattle.domain_table.specs.Rows.{cell, row_line};
ghost use Rattle.std.specs.List.{flat_map};
ghost use Rattle.std.specs.Prelude.{◌≡◌, ◌++◌, ◌∷◌, [], map, IfOk, OnOk};

use cam_base::{List, Made, Text};
use std::alloc::Global;
use view_text::add;

/// Rows of a table, each a list of its cells.
pub type Rows = List<List<Text>>;

fn row_of(alloc: Global, cells: &[&[u8]]) -> Made<List<Text>>
    ensures { IfOk result (λ row. row ≡ map (λ c. c.now) cells.now) }
{
    let mut row = List::new(alloc);
    for cell in cells {
        row.push(Text::new(alloc, cell)?)?;
    }
    Ok(row)
}

/// Puts a row of a table behind the others.
pub fn push_row(alloc: Global, rows: &mut Rows, cells: &[&[u8]]) -> Made<()>
    ensures { OnOk result (rows.new ≡ rows.old ++ (map (λ c. c.now) cells.now) ∷ []) }
{
    rows.push(row_of(alloc, cells)?)
}

fn add_cells(text: &mut List<u8>, cells: &[Text]) -> Made<()>
    ensures { OnOk result (text.new ≡ text.old ++ flat_map cell cells.now) }
{
    for cell in cells {
        add(text, &[b" ", cell.as_bytes(), b" |"])?;
    }
    Ok(())
}

/// Puts rows behind a text, as Markdown has them.
pub(crate) fn add_rows(text: &mut List<u8>, rows: &[List<Text>]) -> Made<()>
    ensures { OnOk result (text.new ≡ text.old ++ flat_map row_line rows.now) }
{
    for row in rows {
        text.extend(b"|")?;
        add_cells(text, row.as_slice())?;
        text.extend(b"\n")?;
    }
    Ok(())
}
