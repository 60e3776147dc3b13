//! Who may do what to whom.

ghost use Rattle.view_tool.specs.Matrix.{authority_text, cell_text, is_target, label_row, mark_text, marked, marks_from, marks_of, matrix_by, matrix_of, some_row, targets};
ghost use Rattle.std.specs.List.{flat_map};
ghost use Rattle.std.specs.Prelude.{◌≡◌, ◌++◌, ◌∷◌, [], codes, IfOk, OnOk};
ghost use Rattle.view_text.specs.Html.{tagged};

use cam_base::{List, Made, Text};
use cap_model::{Authority, Edge, EdgeTable, Policy};
use std::alloc::Global;
use view_text::{Label, add, add_escaped, add_tagged, note_at};

/// An edge, and the lines of its first reason.
#[derive(Drop)]
pub(crate) struct Mark {
    pub(crate) edge: Edge,
    pub(crate) note: Text,
}

fn push_mark(alloc: Global, marks: &mut List<Mark>, edge: Edge, note: &[u8]) -> Made<()>
    ensures { OnOk result (marks.new ≡ marks.old ++ marked edge note.now ∷ []) }
{
    marks.push(Mark {
        edge,
        note: Text::new(alloc, note)?,
    })
}

fn marks_of(alloc: Global, notes: &[Text], edges: &EdgeTable) -> Made<List<Mark>>
    ensures { IfOk result (λ marks. marks ≡ marks_of notes.now edges.now) }
{
    let mut marks = List::new(alloc);
    for at in 0..edges.len() {
        if let Some(edge) = edges.get(at) {
            push_mark(alloc, &mut marks, edge, note_at(notes, at))?;
        }
    }
    Ok(marks)
}

fn add_authority(text: &mut List<u8>, authority: Authority) -> Made<()>
    ensures { OnOk result (text.new ≡ text.old ++ authority_text authority) }
{
    add(text, &[b"\">", authority.text().as_bytes(), b"</abbr> "])
}

fn add_mark(text: &mut List<u8>, mark: &Mark) -> Made<()>
    ensures { OnOk result (text.new ≡ text.old ++ mark_text mark.now) }
{
    text.extend(b"<abbr title=\"")?;
    add_escaped(text, mark.note.as_bytes())?;
    add_authority(text, mark.edge.authority)
}

fn add_cell(text: &mut List<u8>, row: &[Mark], column: &Label) -> Made<()>
    ensures { OnOk result (text.new ≡ text.old ++ cell_text row.now column.now) }
{
    text.extend(b"<td>")?;
    for mark in row {
        if mark.edge.to == column.0 {
            add_mark(text, mark)?;
        }
    }
    Ok(())
}

fn add_cells(text: &mut List<u8>, row: &[Mark], columns: &[Label]) -> Made<()>
    ensures { OnOk result (text.new ≡ text.old ++ flat_map (cell_text row.now) columns.now) }
{
    for column in columns {
        add_cell(text, row, column)?;
    }
    Ok(())
}

fn add_some_row(text: &mut List<u8>, row: &[Mark], columns: &[Label], name: &[u8]) -> Made<()>
    ensures { OnOk result (text.new ≡ text.old ++ some_row row.now columns.now name.now) }
{
    match row {
        [] => Ok(()),
        [..] => {
            text.extend(b"<tr>")?;
            add_tagged(text, b"th", name)?;
            add_cells(text, row, columns)?;
            text.extend(b"</tr>\n")
        }
    }
}

fn marks_from(alloc: Global, marks: &[Mark], from: u32) -> Made<List<Mark>>
    ensures { IfOk result (λ found. found ≡ marks_from marks.now from) }
{
    let mut found = List::new(alloc);
    for mark in marks {
        if mark.edge.from == from {
            push_mark(alloc, &mut found, mark.edge, mark.note.as_bytes())?;
        }
    }
    Ok(found)
}

fn is_target(marks: &[Mark], label: u32) -> bool
    ensures { result ≡ is_target marks.now label }
{
    marks.iter().any(|mark| mark.edge.to == label)
}

fn targets(alloc: Global, marks: &[Mark], labels: &[Label]) -> Made<List<Label>>
    ensures { IfOk result (λ found. found ≡ targets marks.now labels.now) }
{
    let mut found = List::new(alloc);
    for label in labels {
        let (number, name) = label;
        if is_target(marks, *number) {
            found.push((*number, name.copy(alloc)?))?;
        }
    }
    Ok(found)
}

fn add_heads(text: &mut List<u8>, columns: &[Label]) -> Made<()>
    ensures { OnOk result (text.new ≡ text.old ++ flat_map (λ c. tagged (codes "th") c.1) columns.now) }
{
    for column in columns {
        add_tagged(text, b"th", column.1.as_bytes())?;
    }
    Ok(())
}

fn add_label_rows(
    alloc: Global,
    text: &mut List<u8>,
    marks: &[Mark],
    columns: &[Label],
    labels: &[Label],
) -> Made<()>
    ensures { OnOk result (text.new ≡ text.old ++ flat_map (label_row marks.now columns.now) labels.now) }
{
    for label in labels {
        let row = marks_from(alloc, marks, label.0)?;
        add_some_row(text, row.as_slice(), columns, label.1.as_bytes())?;
    }
    Ok(())
}

fn add_matrix_by(
    alloc: Global,
    text: &mut List<u8>,
    marks: &[Mark],
    columns: &[Label],
    labels: &[Label],
) -> Made<()>
    ensures { OnOk result (text.new ≡ text.old ++ matrix_by marks.now columns.now labels.now) }
{
    text.extend(b"<table class=\"matrix\">\n<tr><td>")?;
    add_heads(text, columns)?;
    text.extend(b"</tr>\n")?;
    add_label_rows(alloc, text, marks, columns, labels)?;
    text.extend(b"</table>\n")
}

/// Puts the matrix of a policy behind a text. Each edge has the note at its place.
pub fn add_matrix(alloc: Global, text: &mut List<u8>, policy: &Policy, notes: &[Text]) -> Made<()>
    ensures { OnOk result (text.new ≡ text.old ++ matrix_of policy.now notes.now) }
{
    let marks = marks_of(alloc, notes, &policy.edges)?;
    let labels = policy.labels.as_slice();
    let columns = targets(alloc, marks.as_slice(), labels)?;
    add_matrix_by(alloc, text, marks.as_slice(), columns.as_slice(), labels)
}
