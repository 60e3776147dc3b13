//! The lines that tell the first reason of each edge.

ghost use Rattle.front_end.specs.Steps.{HasMeaning};
ghost use Rattle.std.specs.Prelude.{◌≡◌, leb, length, IfOk};
ghost use Rattle.view_tool.specs.Notes.{AreNotes, ArePageNotes, IsNote, Tells, label_at, told};

use adl_ast::Source;
use adl_meaning::{Flat, Settled};
use cam_base::{List, Made, NoMemory, Text};
use cap_model::{Edge, EdgeTable, Policy};
use explain::{ExplainError, Reason, explain, reason_text};
use std::alloc::Global;
use view_text::Label;

/// The most edges of which a page has the reasons.
const MOST_NOTES: usize = 2000;

/// By what an edge is explained: a source with what it means, and its policy.
#[derive(Clone, Copy)]
pub(crate) struct Grounds<'a> {
    pub(crate) source: &'a Source,
    pub(crate) flat: &'a Flat,
    pub(crate) settled: &'a Settled,
    pub(crate) policy: &'a Policy,
}

/// The text of the label at this place.
fn label_at(labels: &[Label], at: u32) -> &[u8]
    ensures { result.now ≡ label_at labels.now at }
{
    match labels.get(at as usize) {
        Some((_, name)) => name.as_bytes(),
        None => b"",
    }
}

/// What is explained, as lines.
fn note_text(alloc: Global, grounds: &Grounds, reason: Result<Reason, ExplainError>) -> Made<Text>
    ensures { IfOk result (Tells (told grounds.now) reason) }
{
    match reason {
        Ok(reason) => reason_text(alloc, grounds.source, grounds.flat, reason),
        Err(ExplainError::NotAssigned) => Text::new(alloc, b"not assigned\n"),
        Err(ExplainError::NoMemory) => Err(NoMemory),
    }
}

/// The lines of an edge's first reason.
fn note_of(alloc: Global, grounds: &Grounds, edge: &Edge) -> Made<Text>
    requires { HasMeaning grounds.now.source.now grounds.now.flat.now grounds.now.settled.now }
    ensures { IfOk result (IsNote (told grounds.now) edge.now) }
{
    let labels = grounds.policy.labels.as_slice();
    let from = label_at(labels, edge.from);
    let to = label_at(labels, edge.to);
    let reason = explain(
        alloc,
        grounds.source,
        grounds.flat,
        grounds.settled,
        from,
        edge.authority,
        to,
    );
    note_text(alloc, grounds, reason)
}

/// The notes of all edges.
pub(crate) fn notes_of(alloc: Global, grounds: &Grounds) -> Made<List<Text>>
    requires { HasMeaning grounds.now.source.now grounds.now.flat.now grounds.now.settled.now }
    ensures { IfOk result (AreNotes (told grounds.now) grounds.now.policy.now.edges) }
{
    let edges = &grounds.policy.edges;
    let mut notes = List::new(alloc);
    for at in 0..edges.len() {
        if let Some(edge) = edges.get(at) {
            let note = note_of(alloc, grounds, &edge)?;
            notes.push(note)?;
        }
    }
    Ok(notes)
}

/// Whether a page has reasons of so many edges.
fn are_few(edges: &EdgeTable) -> bool
    ensures { result ≡ leb (length edges.now) 2000 }
{
    edges.len() <= MOST_NOTES
}

/// The notes of all edges, where they are not too many for a page.
pub(crate) fn page_notes(alloc: Global, grounds: &Grounds) -> Made<List<Text>>
    requires { HasMeaning grounds.now.source.now grounds.now.flat.now grounds.now.settled.now }
    ensures { IfOk result (ArePageNotes (told grounds.now)) }
{
    if are_few(&grounds.policy.edges) {
        notes_of(alloc, grounds)
    } else {
        Ok(List::new(alloc))
    }
}
