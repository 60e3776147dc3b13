//! What the lines of a text say together.

ghost use Rattle.policy_text.specs.Entries.{label, object, edge};
ghost use Rattle.policy_text.specs.EntriesRead.{meant, told_lines};
ghost use Rattle.policy_text.specs.PartsBuilt.{IsBuilt, Builds, IsPolicyOf};
ghost use Rattle.std.specs.Prelude.{[], IfOk, OnOk};

use crate::entry::{Entry, EntryLine};
use crate::number::Digits;
use cam_base::{List, Made, Name, Text, is_name};
use cap_model::{Authority, Edge, EdgeTable, Policy};
use std::alloc::Global;
use std::collections::BTreeMap;

/// What lines say: labels by number, objects and edges in the order of their lines. Numbers that pass 32 bits, and words that are
/// no names, stand in no text without faults.
#[derive(Drop)]
pub struct Parts {
    pub labels: BTreeMap<u32, Text>,
    pub objects: List<(Name, u32)>,
    pub edges: Vec<Edge>,
}

impl Parts {
    fn none(alloc: Global) -> Parts
        ensures { IsBuilt result [] }
    {
        Parts {
            labels: BTreeMap::new(alloc),
            objects: List::new(alloc),
            edges: Vec::new(alloc),
        }
    }

    /// What the lines say.
    pub fn of(alloc: Global, lines: &[EntryLine]) -> Made<Parts>
        ensures { IfOk result (λ parts. IsBuilt parts (told_lines lines.now)) }
    {
        let mut parts = Parts::none(alloc);
        for line in lines {
            parts.add(alloc, line.entry)?;
        }
        Ok(parts)
    }

    fn add(&mut self, alloc: Global, entry: Entry) -> Made<()>
        ensures { OnOk result (Builds (meant entry.entry) self.old self.new) }
    {
        match entry {
            Entry::Label { number, name } => self.add_label(alloc, number, name),
            Entry::Object { word, number } => self.add_object(alloc, word, number),
            Entry::Edge {
                from,
                authority,
                to,
            } => self.add_edge(from, authority, to),
        }
    }

    fn add_label(&mut self, alloc: Global, number: Digits, name: &[u8]) -> Made<()>
        ensures { OnOk result (Builds (label number.entry.text.now name.now) self.old self.new) }
    {
        let text = Text::new(alloc, name)?;
        self.labels.insert(number.value, text)?;
        Ok(())
    }

    fn add_object(&mut self, alloc: Global, word: &[u8], number: Digits) -> Made<()>
        ensures { OnOk result (Builds (object word.now number.entry.text.now) self.old self.new) }
    {
        if !is_name(word) {
            return Ok(());
        }
        let name = Name::of_identifier(alloc, word)?;
        self.objects.push((name, number.value))
    }

    fn add_edge(&mut self, from: Digits, authority: Authority, to: Digits) -> Made<()>
        ensures { OnOk result (Builds (edge from.entry.text.now authority to.entry.text.now) self.old self.new) }
    {
        self.edges.push(Edge {
            from: from.value,
            authority,
            to: to.value,
        })?;
        Ok(())
    }

    /// The policy of the parts.
    pub fn into_policy(self, alloc: Global) -> Made<Policy>
        ensures { IfOk result (IsPolicyOf self) }
    {
        let Parts {
            labels,
            objects,
            edges,
        } = self;
        let edges = EdgeTable::from_list(alloc, edges.as_slice())?;
        let labels = labels.into_iter().collect(alloc)?;
        Ok(Policy {
            labels: List::from_vec(labels),
            objects,
            edges,
        })
    }
}
