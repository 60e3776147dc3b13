//! Edges by the names of labels.

ghost use Rattle.cam_io.specs.Saying.{Says};
ghost use Rattle.policy_text.specs.EdgeLines.{apart_line, apart_lines, edge_line, words_line};
ghost use Rattle.std.specs.Prelude.{[]};

use crate::Names;
use cam_io::{Outputs, Writer};
use cap_model::{Edge, EdgeTable};

/// Writes an edge behind a word.
#[tactic(auto, unfolding(cam_base::specs::Texts::together))]
pub fn write_edge<O: Outputs>(word: &[u8], edge: &Edge, names: &Names, to: &mut Writer<O>)
    ensures { Says to.old (edge_line word.now names.now edge.now) to.new }
{
    to.text(word);
    write_named(edge, names, to);
}

/// Writes an edge alone.
fn write_named<O: Outputs>(edge: &Edge, names: &Names, to: &mut Writer<O>)
    ensures { Says to.old (edge_line [] names.now edge.now) to.new }
{
    let authority = edge.authority.text().as_bytes();
    write_words(names.name(edge.from), authority, names.name(edge.to), to);
}

fn write_words<O: Outputs>(from: &[u8], authority: &[u8], end: &[u8], to: &mut Writer<O>)
    ensures { Says to.old (words_line [] from.now authority.now end.now) to.new }
{
    to.texts(&[from, b" ", authority, b" ", end, b"\n"]);
}

fn write_apart<O: Outputs>(edge: &Edge, names: &Names, to: &mut Writer<O>)
    ensures { Says to.old (apart_line names.now edge.now) to.new }
{
    if edge.from == edge.to {
        to.text(b"");
    } else {
        write_named(edge, names, to);
    }
}

/// Writes the edges between different labels.
pub fn write_edges<O: Outputs>(edges: &EdgeTable, names: &Names, to: &mut Writer<O>)
    ensures { Says to.old (apart_lines names.now edges.now) to.new }
{
    for edge in edges.iter() {
        write_apart(&edge, names, to);
    }
}
