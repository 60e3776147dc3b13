//! The readers.

ghost use Rattle.cap_model.specs.Policies.{IsPolicy};
ghost use Rattle.policy_text.specs.KnownNumbers.{knows, IsNear, IsRight};
ghost use Rattle.policy_text.specs.PolicyFaults.{first_wrong};
ghost use Rattle.policy_text.specs.PolicyTexts.{body, IsPolicyRead, IsCertRead, AreLabelled};
ghost use Rattle.policy_text.specs.EntriesRead.{told_line, told_lines};
ghost use Rattle.policy_text.specs.LinesSeen.{HasFewEdges};
ghost use Rattle.policy_text.specs.TextsRead.{FindsFault, IsNoted, AreNoted, Notes};
ghost use Rattle.policy_text.specs.WordSets.{IsAdded};
ghost use Rattle.std.specs.Prelude.{◌≡◌, [], true, IfOk, OnOk};
ghost use Rattle.cam_base.specs.LinesLeft.{line_of};

use crate::entry::{Entry, EntryLine, read_entry};
use crate::head::{Read, body, check_head};
use crate::kind::Kind;
use crate::known::{Known, near_labels, numbers_of};
use crate::number::Digits;
use crate::parts::Parts;
use crate::seen::{Expected, MAX_EDGES, Seen};
use crate::words::Words;
use cam_base::{Line, Made, TextCode, refusal};
use cap_model::{EdgeTable, Policy};
use std::alloc::Global;

/// The policy of a text, or the first fault that stands in it, Q1 to Q5: `specs/PolicyTexts.antt`.
pub fn read_policy(alloc: Global, bytes: &[u8]) -> Read<Policy>
    ensures read { IsPolicyRead bytes.now result }
    ensures kept { IfOk result IsPolicy }
{
    check_head(alloc, Kind::Policy, bytes)?;
    let noted = note_lines(alloc, Kind::Policy, bytes)?;
    let expected = Expected {
        labels: noted.numbers.len,
        objects: noted.lines.len().saturating_sub(noted.edges),
        few_edges: noted.edges <= MAX_EDGES,
    };
    let known = Known::Lines {
        numbers: noted.numbers,
        near: noted.near,
    };
    check_lines(alloc, &known, expected, noted.lines.as_slice())?;
    let parts = Parts::of(alloc, noted.lines.as_slice())?;
    Ok(parts.into_policy(alloc)?)
}

/// The certificate of a text whose labels are those of the policy, or the first fault that stands in it, Q1, Q3 or Q5:
/// `specs/PolicyTexts.antt`.
pub fn read_cert(alloc: Global, bytes: &[u8], policy: &Policy) -> Read<EdgeTable>
    ensures read { IsCertRead policy.now bytes.now result }
    ensures labelled { IfOk result (AreLabelled policy.now) }
{
    check_head(alloc, Kind::Certificate, bytes)?;
    let noted = note_lines(alloc, Kind::Certificate, bytes)?;
    let expected = Expected {
        labels: 0,
        objects: 0,
        few_edges: noted.edges <= MAX_EDGES,
    };
    let numbers = numbers_of(alloc, policy.labels.as_slice())?;
    let known = Known::Labels {
        numbers,
        near: near_labels(policy.labels.as_slice()),
    };
    check_lines(alloc, &known, expected, noted.lines.as_slice())?;
    let parts = Parts::of(alloc, noted.lines.as_slice())?;
    Ok(EdgeTable::from_list(alloc, parts.edges.as_slice())?)
}

/// What the lines of a text say, in order, and in all: the numbers of its label lines, those among them that stand one behind
/// another from 0 on, and how many edge lines it has.
#[derive(Drop)]
pub struct Noted<'a> {
    pub numbers: Words<'a>,
    pub near: Vec<&'a [u8]>,
    pub edges: usize,
    pub lines: Vec<EntryLine<'a>>,
}

impl<'a> Noted<'a> {
    /// Takes in a line.
    fn add(&mut self, told: EntryLine<'a>) -> Made<()>
        ensures { OnOk result (Notes (told_line told.entry) self.old self.new) }
    {
        self.lines.push(told)?;
        match told.entry {
            Entry::Label { number, .. } => self.add_number(number),
            Entry::Object { .. } => Ok(()),
            Entry::Edge { .. } => {
                self.edges = self.edges.saturating_add(1);
                Ok(())
            }
        }
    }

    /// Takes in the number of a label line.
    fn add_number(&mut self, number: Digits<'a>) -> Made<()>
        ensures added { OnOk result (IsAdded number.entry.text.now self.old.numbers self.new.numbers) }
        ensures near { OnOk result (IsNear self.old.near.items self.old.numbers → IsNear self.new.near.items self.new.numbers) }
        ensures edges { self.new.edges ≡ self.old.edges }
        ensures lines { self.new.lines ≡ self.old.lines }
    {
        self.numbers.add(number.text)?;
        if number.value as usize == self.near.len() {
            self.near.push(number.text)?;
        }
        Ok(())
    }
}

/// What the lines of a text say in all, or the first line that says nothing of the text's forms.
fn note_lines(alloc: Global, kind: Kind, bytes: &[u8]) -> Read<Noted<'_>>
    ensures { AreNoted kind (body bytes.now) result }
{
    let mut noted = Noted {
        numbers: Words::with_room(alloc, 0)?,
        near: Vec::new(alloc),
        edges: 0,
        lines: Vec::new(alloc),
    };
    for line in body(bytes) {
        note_line(alloc, kind, line, &mut noted)?;
    }
    Ok(noted)
}

fn note_line<'a>(alloc: Global, kind: Kind, line: Line<'a>, noted: &mut Noted<'a>) -> Read<()>
    ensures { IsNoted kind (line_of line.entry) noted.old noted.new result }
{
    match read_entry(kind, line.text) {
        None => Err(refusal(alloc, line, TextCode::PolicySyntax, b"")),
        Some(entry) => Ok(noted.add(EntryLine { line, entry })?),
    }
}

/// Finds the first line with which something is wrong. Where there are few edge lines, none of them is past the limit.
fn check_lines<'a>(
    alloc: Global,
    known: &Known<'a>,
    expected: Expected,
    lines: &[EntryLine<'a>],
) -> Read<()>
    requires known { IsRight known.now }
    requires few { expected.few_edges ≡ true → HasFewEdges (told_lines lines.now) }
    ensures { FindsFault (first_wrong (knows known.now) [] (told_lines lines.now)) result }
{
    let mut seen = Seen::nothing(alloc, expected)?;
    for line in lines {
        seen.read_line(alloc, known, *line)?;
    }
    Ok(())
}
