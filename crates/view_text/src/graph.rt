ghost use Rattle.cam_base.specs.Gather.{gather};
ghost use Rattle.std.specs.List.{flat_map};
ghost use Rattle.std.specs.Prelude.{◌≡◌, ◌++◌, IfOk, OnOk};
ghost use Rattle.view_text.specs.Graphs.{arrow_line, arrow_lines, graph_of, node_line, note_at, quoted, quoted_byte};

use crate::Label;
use crate::texts::add;
use cam_base::{List, Made, Text};
use cap_model::{Edge, EdgeTable, Policy};
use itoa::Buffer;
use std::alloc::Global;

fn add_quoted_byte(text: &mut List<u8>, byte: u8) -> Made<()>
    ensures { OnOk result (text.new ≡ text.old ++ quoted_byte byte) }
{
    match byte {
        b'"' => text.extend(b"\\\""),
        b'\\' => text.extend(b"\\\\"),
        b'\n' => text.extend(b"\\l"),
        _ => text.push(byte),
    }
}

/// The text as it stands between quotes.
pub(crate) fn quoted(alloc: Global, text: &[u8]) -> Made<List<u8>>
    ensures { IfOk result (λ q. q ≡ quoted text.now) }
{
    let mut quoted = List::new(alloc);
    for byte in text {
        add_quoted_byte(&mut quoted, *byte)?;
    }
    Ok(quoted)
}

fn add_node(alloc: Global, text: &mut List<u8>, label: &Label) -> Made<()>
    ensures { OnOk result (text.new ≡ text.old ++ node_line label.now) }
{
    let (number, name) = label;
    let name = quoted(alloc, name.as_bytes())?;
    let mut digits = Buffer::new();
    let number = digits.format(*number).as_bytes();
    add(text, &[number, b" [label=\"", name.as_slice(), b"\"];\n"])
}

fn add_arrow(alloc: Global, text: &mut List<u8>, edge: &Edge, note: &[u8]) -> Made<()>
    ensures { OnOk result (text.new ≡ text.old ++ arrow_line note.now edge.now) }
{
    let note = quoted(alloc, note)?;
    let (mut from, mut to) = (Buffer::new(), Buffer::new());
    let from = from.format(edge.from).as_bytes();
    let to = to.format(edge.to).as_bytes();
    let authority = edge.authority.text().as_bytes();
    add(
        text,
        &[
            from,
            b" -> ",
            to,
            b" [label=\"",
            authority,
            b"\\l",
            note.as_slice(),
            b"\"];\n",
        ],
    )
}

fn add_nodes(alloc: Global, text: &mut List<u8>, labels: &[Label]) -> Made<()>
    ensures { OnOk result (text.new ≡ text.old ++ flat_map node_line labels.now) }
{
    for label in labels {
        add_node(alloc, text, label)?;
    }
    Ok(())
}

/// The note at this place, empty past the last one.
pub fn note_at(notes: &[Text], at: usize) -> &[u8]
    ensures { result.now ≡ note_at notes.now at }
{
    match notes.get(at) {
        Some(note) => note.as_bytes(),
        None => b"",
    }
}

fn add_arrows(alloc: Global, text: &mut List<u8>, edges: &EdgeTable, notes: &[Text]) -> Made<()>
    ensures { OnOk result (text.new ≡ text.old ++ arrow_lines notes.now edges.now) }
{
    for at in 0..edges.len() {
        if let Some(edge) = edges.get(at) {
            add_arrow(alloc, text, &edge, note_at(notes, at))?;
        }
    }
    Ok(())
}

/// A policy as a graph in Graphviz's language, each edge with the note at its place, where there is one.
pub fn graph_of(alloc: Global, policy: &Policy, notes: &[Text]) -> Made<List<u8>>
    ensures { IfOk result (λ text. text ≡ graph_of policy.now notes.now) }
{
    let mut text = List::from_slice(alloc, b"digraph policy {\n")?;
    add_nodes(alloc, &mut text, policy.labels.as_slice())?;
    add_arrows(alloc, &mut text, &policy.edges, notes)?;
    text.extend(b"}\n")?;
    Ok(text)
}
