//! What the lines in front of a line have said.

ghost use Rattle.authorities.specs.declared.authority.Authority.{Authority};
ghost use Rattle.policy_text.specs.Entries.{Number, label, object, edge};
ghost use Rattle.policy_text.specs.EntriesRead.{meant, told_line};
ghost use Rattle.policy_text.specs.KnownNumbers.{knows, IsRight};
ghost use Rattle.policy_text.specs.LinesSeen.{HasEdges, HasFewEdges, HasRoom, IsSeen, Takes, what, IsLineJudged};
ghost use Rattle.policy_text.specs.PolicyFaults.{Told, edges_limit, new_edges, says_edge, wrong_entry};
ghost use Rattle.std.specs.List.{list_any};
ghost use Rattle.std.specs.Option.{is_none};
ghost use Rattle.std.specs.Prelude.{◌≡◌, [], ◌∷◌, ◌++◌, ◌&&◌, List, Bool, nat_le, not, true, IfOk, OnOk, IfNone, IfSome};
ghost use Rattle.cam_base.specs.Lines.{Line as SpecLine};

use crate::entry::{Entry, EntryLine};
use crate::head::Read;
use crate::known::Known;
use crate::number::{Digits, is_past};
use crate::words::Words;
use cam_base::{Made, TextCode, refusal};
use std::alloc::Global;

/// The most labels of a text.
pub const MAX_LABELS: usize = 8192;

/// The most objects of a text.
pub const MAX_OBJECTS: usize = 262_144;

/// The most different edges of a text.
pub const MAX_EDGES: usize = 262_144;

/// The most bytes of an object's word.
const MAX_WORD: usize = 127;

/// The code of what is wrong, where something is, and the name that its fault speaks of.
type Wrong<'a> = Option<(TextCode, &'a [u8])>;

/// What lines are expected to say: so many labels and objects, and whether they say few edges.
#[derive(Clone, Copy)]
pub struct Expected {
    pub labels: usize,
    pub objects: usize,
    pub few_edges: bool,
}

/// What the lines in front of a line have said: labels by number and by name, objects, and edges by their lines, which are
/// kept only for a text with more edge lines than a text may have edges.
#[derive(Drop)]
pub struct Seen<'a> {
    pub numbers: Words<'a>,
    pub names: Words<'a>,
    pub objects: Words<'a>,
    pub edges: Option<Words<'a>>,
}

/// The edges of no lines, where edges are kept.
fn no_edges<'a>(alloc: Global, few: bool) -> Made<Option<Words<'a>>>
    ensures edges { IfOk result (λ edges. IfSome edges (HasEdges [])) }
    ensures few { IfOk result (λ edges. IfNone edges (few ≡ true)) }
{
    if few {
        Ok(None)
    } else {
        Ok(Some(Words::with_room(alloc, MAX_EDGES)?))
    }
}

impl<'a> Seen<'a> {
    /// Nothing is said.
    pub fn nothing(alloc: Global, expected: Expected) -> Made<Seen<'a>>
        ensures seen { IfOk result (λ seen. IsSeen seen []) }
        ensures few { IfOk result (λ seen. IfNone seen.edges (expected.few_edges ≡ true)) }
    {
        Ok(Seen {
            numbers: Words::with_room(alloc, expected.labels)?,
            names: Words::with_room(alloc, expected.labels)?,
            objects: Words::with_room(alloc, expected.objects)?,
            edges: no_edges(alloc, expected.few_edges)?,
        })
    }

    /// Takes a line in, or refuses it by its fault.
    pub fn read_line(&mut self, alloc: Global, known: &Known<'a>, told: EntryLine<'a>) -> Read<()>
        requires { IsRight known.now }
        ensures judged { (before : List Told) → IsSeen self.old before
            → (is_none self.old.edges ≡ true → HasFewEdges (before ++ told_line told.entry ∷ []))
            → IsLineJudged (knows known.now) before (told_line told.entry) self.new result }
        ensures few { is_none self.new.edges ≡ is_none self.old.edges }
    {
        let EntryLine { line, entry } = told;
        if let Some((code, name)) = self.wrong(known, line.text, entry) {
            return Err(refusal(alloc, line, code, name));
        }
        Ok(self.add(line.text, entry)?)
    }

    /// What is wrong with the entry of a line: the least code, and the name that its fault speaks of.
    fn wrong(&self, known: &Known<'a>, text: &'a [u8], entry: Entry<'a>) -> Wrong<'a>
        requires { IsRight known.now }
        ensures { (before : List Told) (line : SpecLine) → line.text ≡ text.entry.now → IsSeen self.now before
            → (is_none self.now.edges ≡ true → HasFewEdges (before ++ (line, meant entry.entry) ∷ []))
            → what result ≡ wrong_entry (knows known.now) before line (meant entry.entry) }
    {
        match entry {
            Entry::Label { number, name } => self.wrong_label(number, name),
            Entry::Object { word, number } => self.wrong_object(known, word, number),
            Entry::Edge { from, to, .. } => self.wrong_edge(known, text, from, to),
        }
    }

    fn wrong_label(&self, number: Digits<'a>, name: &'a [u8]) -> Wrong<'a>
        ensures { (before : List Told) (knows : Number → Bool) (line : SpecLine) → IsSeen self.now before
            → what result ≡ wrong_entry knows before line (label number.entry.text.now name.now) }
    {
        if self.numbers.has(number.text) || self.names.has(name) {
            Some((TextCode::LabelTwice, number.text))
        } else if is_past(number.text) || self.numbers.len >= MAX_LABELS {
            Some((TextCode::PolicyLimit, b""))
        } else {
            None
        }
    }

    fn wrong_object(&self, known: &Known<'a>, word: &'a [u8], number: Digits<'a>) -> Wrong<'a>
        requires { IsRight known.now }
        ensures { (before : List Told) (line : SpecLine) → IsSeen self.now before
            → what result ≡ wrong_entry (knows known.now) before line (object word.entry.now number.entry.text.now) }
    {
        if !known.has(number) {
            Some((TextCode::UnknownLabel, number.text))
        } else if self.objects.has(word) {
            Some((TextCode::ObjectTwice, word))
        } else if word.len() > MAX_WORD || self.objects.len >= MAX_OBJECTS {
            Some((TextCode::PolicyLimit, b""))
        } else {
            None
        }
    }

    fn wrong_edge(
        &self,
        known: &Known<'a>,
        text: &'a [u8],
        from: Digits<'a>,
        to: Digits<'a>,
    ) -> Wrong<'a>
        requires { IsRight known.now }
        ensures { (before : List Told) (line : SpecLine) (a : Authority) → line.text ≡ text.now → IsSeen self.now before
            → (is_none self.now.edges ≡ true → HasRoom before)
            → what result ≡ wrong_entry (knows known.now) before line (edge from.entry.text.now a to.entry.text.now) }
    {
        if !known.has(from) {
            Some((TextCode::UnknownLabel, from.text))
        } else if !known.has(to) {
            Some((TextCode::UnknownLabel, to.text))
        } else if self.is_past_edges(text) {
            Some((TextCode::PolicyLimit, b""))
        } else {
            None
        }
    }

    /// Whether the line says a new edge, behind the most different ones.
    fn is_past_edges(&self, text: &'a [u8]) -> bool
        ensures { (before : List Told) → IsSeen self.now before → (is_none self.now.edges ≡ true → HasRoom before)
            → result ≡ (not (list_any (says_edge text.now) before) && nat_le edges_limit (new_edges [] before)) }
    {
        match &self.edges {
            Some(edges) => edges.len >= MAX_EDGES && !edges.has(text),
            None => false,
        }
    }

    /// Takes in the entry of a line with which nothing is wrong.
    fn add(&mut self, text: &'a [u8], entry: Entry<'a>) -> Made<()>
        ensures takes { OnOk result (Takes (meant entry.entry) text.entry.now self.old self.new) }
        ensures few { is_none self.new.edges ≡ is_none self.old.edges }
    {
        match entry {
            Entry::Label { number, name } => {
                self.numbers.add(number.text)?;
                self.names.add(name)
            }
            Entry::Object { word, .. } => self.objects.add(word),
            Entry::Edge { .. } => match &mut self.edges {
                Some(edges) => edges.add(text),
                None => Ok(()),
            },
        }
    }
}
