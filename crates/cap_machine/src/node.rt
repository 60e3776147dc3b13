ghost use Rattle.cap_model.specs.Adds.{Adds};
ghost use Rattle.cap_machine.specs.Effects.{grown, without};
ghost use Rattle.cap_machine.specs.StateSources.{OfNode};
ghost use Rattle.cap_model.specs.State.{boot_slot, content_at, no_node};
ghost use Rattle.cap_model.specs.Kept.{rise};
ghost use Rattle.std.specs.BTreeMap.{IsOrdered};
ghost use Rattle.std.specs.List.{list_all};
ghost use Rattle.std.specs.Ordering.{nat_cmp};
ghost use Rattle.std.specs.Prelude.{◌≡◌, ◌<◌, ◌≤◌, ◌-◌, ◌^◌, map, true, nat_lt, OnOk, OnErr, IfOk};

use crate::edges::with_content;
use cam_base::Made;
use cap_model::{Cap, Content, Edge, Labels, Spec};
use std::alloc::Global;
use std::collections::BTreeMap;
use std::marker::Model;

/// What a CNode has at its numbers, and its next number.
#[derive(Drop)]
pub struct Node {
    contents: BTreeMap<u64, Content>,
    next: u64,
}

impl Model for Node {
    ghost use Rattle.cap_model.specs.State.{Node};
    ghost use Rattle.cap_machine.specs.Progress.{IsNumbered};

    ghost Value = { Node };

    ghost view = { λ n. record { slots = n.contents.entries; next = n.next } };

    ghost invariant = { λ n. IsNumbered (record { slots = n.contents.entries; next = n.next }) };
}

impl Node {
    /// What stands for an object that is no CNode.
    pub fn empty(alloc: Global) -> Node
        ensures { result ≡ no_node }
    {
        Node {
            contents: BTreeMap::new(alloc),
            next: 0,
        }
    }

    /// A CNode of so many bits at boot.
    pub fn boot(alloc: Global, bits: u8, slots: &[(u64, Cap)]) -> Made<Node>
        requires few { bits ≤ 16 }
        requires rising { rise slots.now ≡ true }
        requires below { list_all (λ slot. nat_lt slot.0 (2 ^ bits)) slots.now ≡ true }
        ensures { IfOk result (λ node. node ≡ record { slots = map boot_slot slots.now; next = 2 ^ bits }) }
    {
        Ok(Node {
            contents: boot_contents(alloc, slots)?,
            next: 1 << bits,
        })
    }

    /// What stands at a number.
    pub fn content(&self, i: u64) -> Option<Content>
        ensures { result ≡ content_at self.now i }
    {
        self.contents.get(&i).copied()
    }

    /// The edges and those of the contents, from the label of the CNode.
    pub fn with_edges(
        &self,
        edges: Vec<Edge>,
        spec: &Spec,
        labels: &Labels,
        from: u32,
    ) -> Made<Vec<Edge>>
        ensures { IfOk result (λ new. Adds (OfNode spec.now labels.now.by_object from self.now) edges.items new.items) }
    {
        let mut edges = edges;
        for (_, content) in &self.contents {
            edges = with_content(edges, spec, labels, from, content)?;
        }
        Ok(edges)
    }

    /// Puts something at the next number. Refused, it leaves the node as it was.
    pub fn add(&mut self, content: Content) -> Made<()>
        requires { self.old.next < 2 ^ 64 - 1 }
        ensures ok { OnOk result (self.new ≡ grown self.old content) }
        ensures err { OnErr result (self.new ≡ self.old) }
    {
        self.contents.insert(self.next, content)?;
        self.next += 1;
        Ok(())
    }

    /// Takes away what stands at a number.
    pub fn remove(&mut self, i: u64)
        ensures { self.new ≡ without self.old i }
    {
        self.contents.remove(&i);
    }
}

fn boot_contents(alloc: Global, slots: &[(u64, Cap)]) -> Made<BTreeMap<u64, Content>>
    requires { rise slots.now ≡ true }
    ensures entries { IfOk result (λ contents. contents.entries ≡ map boot_slot slots.now) }
    ensures ordered { IfOk result (λ contents. IsOrdered nat_cmp contents) }
{
    let mut contents = BTreeMap::new(alloc);
    for slot in slots {
        contents.insert(slot.0, Content::Capability(slot.1))?;
    }
    Ok(contents)
}
