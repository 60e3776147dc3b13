//! A report in the making: edges, and steps that show them.

ghost use Rattle.cap_machine.specs.Sources.{OfCap};
ghost use Rattle.cap_model.specs.Adds.{Is};
ghost use Rattle.cap_model.specs.Edges.{edge};
ghost use Rattle.cap_model.specs.ObjectLabels.{label_of};
ghost use Rattle.cap_model.specs.Tables.{Has, has};
ghost use Rattle.authorities.specs.declared.authority.Authority.TheVariants.{AsyncSend};
ghost use Rattle.authorities.specs.declared.authority.Authority.{Authority};
ghost use Rattle.cap_model.specs.declared.edge.Edge.{Edge};
ghost use Rattle.cap_audit.specs.Gains.{Gains, IsAll, IsSoFar, Notes};
ghost use Rattle.cap_audit.specs.Gates.{AreGates, AreParties, ArePlaces, AreRosters, OfParties, call_steps};
ghost use Rattle.cap_audit.specs.Kinds.{AreHeadRoots, AreMembers, stand_in};
ghost use Rattle.cap_audit.specs.Picks.{OfDeed, OwnsBoth, deed_step, pick_of, wanted_from, wanted_to};
ghost use Rattle.cap_model.specs.Auth.{Auth};
ghost use Rattle.cap_model.specs.Kept.{IsKept};
ghost use Rattle.cap_model.specs.State.{boot};
ghost use Rattle.cap_audit.specs.Search.{HoldsAt, held_by};
ghost use Rattle.std.specs.List.{filter_map};
ghost use Rattle.std.specs.Prelude.{Some, ◌≡◌, ◌==◌, ◌≢◌, ◌<◌, ◌+◌, ℕ, length, replicate, slice_get, ◌++◌, ◌∷◌, ◌↔◌, [], true, IfOk, IsTrue, OnOk, slice_set, slice_index};

use crate::found::put_next;
use crate::gates::{Company, Party, Place, gates, rosters};
use crate::kinds::{Kinds, head_roots, members, stand_in};
use crate::picks::{Pick, Wanted, picked, picks, places};
use crate::rows::Rows;
use crate::{Findings, Held, Pair, whole};
use cam_base::{Made, NoMemory};
use cap_machine::{Step, direct, with_cap, with_link};
use cap_model::{Authority, Cap, Edge, EdgeSet, EdgeTable, Labels, Spec};
use std::alloc::Global;
use std::marker::Model;

/// Steps that take two capabilities of one CNode: a space root and a frame, or an interrupt and a notification.
#[derive(Clone, Copy)]
pub enum Deed {
    Map,
    Bind,
}

impl Deed {
    /// What the edges are from.
    pub fn wanted_from(self) -> Wanted
        ensures { result ≡ wanted_from self }
    {
        match self {
            Deed::Map => Wanted::Space,
            Deed::Bind => Wanted::Irq,
        }
    }

    /// What the edges are to.
    pub fn wanted_to(self) -> Wanted
        ensures { result ≡ wanted_to self }
    {
        match self {
            Deed::Map => Wanted::Frame,
            Deed::Bind => Wanted::Bound,
        }
    }

    /// The step of the thread.
    fn step(self, t: u32, from: &Pick, to: &Pick) -> Step
        ensures { result ≡ deed_step self t from.now to.now }
    {
        match self {
            Deed::Map => Step::Map {
                t,
                i: to.number,
                j: from.number,
                r: whole(),
            },
            Deed::Bind => Step::Bind {
                t,
                i: from.number,
                j: to.number,
            },
        }
    }
}

/// Steps, and the next number of each CNode after them.
#[derive(Drop)]
pub struct Trail {
    pub steps: Vec<Step>,
    pub nexts: Vec<u64>,
}

/// What was found, and a report in the making.
#[derive(Drop)]
pub struct Making<'a> {
    alloc: Global,
    spec: &'a Spec,
    labels: &'a Labels,
    findings: &'a Findings,
    kinds: &'a Kinds,
    edges: EdgeSet,
    steps: Vec<Step>,
    nexts: Vec<u64>,
}

impl<'a> Model for Making<'a> {
    ghost use Rattle.cap_audit.specs.Gains.{Made};

    ghost Value = { Made };

    ghost view = { λ m. record {
      spec = m.spec.now;
      labels = m.labels.now.by_object;
      found = m.findings.now;
      faces = m.kinds.now.faces.items;
      heads = m.kinds.now.heads.items;
      edges = m.edges;
      steps = m.steps.items;
      nexts = m.nexts.items;
    } };
}

impl<'a> Making<'a> {
    /// No edges yet.
    pub fn new(
        alloc: Global,
        spec: &'a Spec,
        labels: &'a Labels,
        findings: &'a Findings,
        kinds: &'a Kinds,
        trail: Trail,
    ) -> Making<'a>
        ensures { result ≡ record {
          spec = spec.entry.now;
          labels = labels.entry.now.by_object;
          found = findings.entry.now;
          faces = kinds.entry.now.faces.items;
          heads = kinds.entry.now.heads.items;
          edges = [];
          steps = trail.steps.items;
          nexts = trail.nexts.items;
        } }
    {
        let Trail { steps, nexts } = trail;
        Making {
            alloc,
            spec,
            labels,
            findings,
            kinds,
            edges: EdgeSet::new(alloc),
            steps,
            nexts,
        }
    }

    /// How many objects there are.
    pub fn objects(&self) -> usize
        ensures { result ≡ length self.now.spec.entries }
    {
        self.spec.entries.len()
    }

    /// How many pairs were found.
    pub fn count(&self) -> usize
        ensures { result ≡ length self.now.found.queue }
    {
        self.findings.count()
    }

    /// The pair at a place.
    pub fn pair(&self, place: usize) -> Pair
        requires { place < length self.now.found.queue }
        ensures { slice_get self.now.found.queue place ≡ Some result }
    {
        self.findings.pair(place)
    }

    /// A value's capability.
    pub fn value(&self, value: usize) -> Option<Cap>
        ensures { result ≡ slice_get self.now.found.values value }
    {
        self.findings.value(value)
    }

    /// The value as a pick, where it is one of those.
    pub fn pick(&self, wanted: Wanted, held: Held) -> Option<Pick>
        ensures { result ≡ pick_of self.now.spec self.now.found wanted held }
    {
        picked(self.spec, self.findings, wanted, held)
    }

    /// Those of a CNode's capabilities.
    pub fn picks(&self, node: u32, wanted: Wanted) -> Made<Vec<Pick>>
        ensures { IfOk result (λ picks. picks.items ≡ filter_map (pick_of self.now.spec self.now.found wanted)
            (held_by self.now.found node)) }
    {
        picks(self.alloc, self.spec, self.findings, node, wanted)
    }

    /// The table of the edges of the boot state.
    pub fn boot_edges(&self) -> Made<EdgeTable>
        requires { length self.now.labels ≡ length self.now.spec.entries }
        ensures { IfOk result (λ table. (l : ℕ) (a : Authority) (m : ℕ) → (Has table l a m)
            ↔ Auth self.now.spec self.now.labels (boot self.now.spec) l a m) }
    {
        direct(self.alloc, self.spec, self.labels)
    }

    /// Whether the object is a face.
    pub fn is_face(&self, object: u32) -> bool
        ensures { result ≡ (stand_in self.now.faces object == object) }
    {
        stand_in(self.kinds.faces.as_slice(), object) == object
    }

    /// Whether the object is a head.
    pub fn is_head(&self, object: u32) -> bool
        ensures { result ≡ (stand_in self.now.heads object == object) }
    {
        stand_in(self.kinds.heads.as_slice(), object) == object
    }

    /// A thread of each root that is a head.
    pub fn roots(&self) -> Made<Vec<Option<u32>>>
        requires { IsKept self.now.spec }
        ensures { IfOk result (λ roots. AreHeadRoots self.now.spec self.now.heads roots.items) }
    {
        head_roots(self.alloc, self.spec, self.kinds.heads.as_slice())
    }

    /// Threads by their roots, objects by their heads, and heads by the endpoints that they may call.
    pub fn company(&self) -> Made<Company>
        requires kept { IsKept self.now.spec }
        requires all { IsAll self.now.spec self.now.found }
        requires as_many { length self.now.heads ≡ length self.now.spec.entries }
        ensures rosters { IfOk result (λ c. AreRosters self.now.spec c.rosters (length self.now.spec.entries)) }
        ensures members { IfOk result (λ c. AreMembers self.now.heads c.members (length self.now.heads)) }
        ensures gates { IfOk result (λ c. AreGates self.now.spec self.now.found self.now.heads c.gates
            (length self.now.found.queue)) }
    {
        let heads = self.kinds.heads.as_slice();
        let rosters = rosters(self.alloc, self.spec)?;
        let members = members(self.alloc, heads)?;
        let gates = gates(self.alloc, self.spec, self.findings, heads)?;
        Ok(Company {
            rosters,
            members,
            gates,
        })
    }

    /// Rows in which nobody has met.
    pub fn nobody(&self) -> Made<Rows<u32>>
        ensures { IfOk result (λ met. met ≡ replicate (length self.now.spec.entries) []) }
    {
        Rows::new(self.alloc, self.spec.entries.len())
    }

    /// Where these CNodes have the value.
    pub fn places(&self, nodes: &[u32], value: usize) -> Made<Vec<Place>>
        ensures { IfOk result (λ places. ArePlaces self.now.found nodes.now value places.items) }
    {
        let places = places(self.alloc, self.findings, nodes, value)?;
        Ok(places)
    }

    /// The edges as a table, and the steps.
    pub fn ended(self) -> Made<(EdgeTable, Vec<Step>)>
        ensures edges { IfOk result (λ ended. (e : Edge) → has ended.0 e ≡ has self.entry.edges e) }
        ensures steps { IfOk result (λ ended. ended.1.items ≡ self.entry.steps) }
    {
        let Making {
            alloc,
            spec: _,
            labels: _,
            findings: _,
            kinds: _,
            edges,
            steps,
            nexts: _nexts,
        } = self;
        let table = edges.table(alloc)?;
        Ok((table, steps))
    }

    /// Whether nothing is to be shown for this edge.
    fn is_settled(&self, edge: &Edge) -> bool
        ensures { IsTrue result → edge.now.from ≢ edge.now.to → has self.now.edges edge.now ≡ true }
    {
        edge.from == edge.to || self.edges.contains(edge)
    }

    /// Whether nothing is to be shown for these edges.
    fn are_settled(&self, edges: &[Edge]) -> bool
        ensures { IsTrue result → (e : Edge) → has edges.now e ≡ true → e.from ≢ e.to → has self.now.edges e ≡ true }
    {
        for edge in edges {
            if !self.is_settled(edge) {
                return false;
            }
        }
        true
    }

    /// Puts an edge in, where it lies between different labels.
    fn note(&mut self, edge: Edge) -> Made<()>
        ensures { OnOk result (Notes (Is edge) self.old self.new) }
    {
        if edge.from == edge.to {
            return Ok(());
        }
        self.edges.insert(edge)?;
        Ok(())
    }

    /// Puts edges in, where they lie between different labels.
    pub fn note_all(&mut self, edges: &[Edge]) -> Made<()>
        ensures { OnOk result (Notes (λ e. has edges.now e ≡ true) self.old self.new) }
    {
        for edge in edges {
            self.note(*edge)?;
        }
        Ok(())
    }

    /// Puts the edges of a table in, where they lie between different labels.
    pub fn note_table(&mut self, table: &EdgeTable) -> Made<()>
        ensures { OnOk result (Notes (λ e. has table.now e ≡ true) self.old self.new) }
    {
        for edge in table.iter() {
            self.note(edge)?;
        }
        Ok(())
    }

    fn push(&mut self, step: Step) -> Made<()>
        ensures { OnOk result (self.new ≡ record self.old { steps = self.old.steps ++ step ∷ [] }) }
    {
        self.steps.push(step)?;
        Ok(())
    }

    fn label(&self, object: u32) -> u32
        ensures { result ≡ label_of self.now.labels object }
    {
        self.labels.of(object)
    }

    /// What a capability confers, from a label.
    fn cap_edges(&self, from: u32, cap: &Cap) -> Made<Vec<Edge>>
        ensures { IfOk result (λ edges. (e : Edge) → (has edges.items e ≡ true)
            ↔ OfCap self.now.spec self.now.labels from cap.now e) }
    {
        let edges = with_cap(Vec::new(self.alloc), self.spec, self.labels, from, cap)?;
        Ok(edges)
    }

    /// Leave to send, from a label to that of an object.
    fn send_edges(&self, from: u32, object: u32) -> Made<Vec<Edge>>
        ensures { IfOk result (λ edges. (e : Edge) → (has edges.items e ≡ true)
            ↔ (e ≡ edge from AsyncSend (label_of self.now.labels object))) }
    {
        let edges = with_link(
            Vec::new(self.alloc),
            self.labels,
            from,
            Authority::AsyncSend,
            object,
        )?;
        Ok(edges)
    }

    /// Shows what a held capability confers.
    pub fn hold(&mut self, node: u32, pick: &Pick) -> Made<()>
        requires so_far { IsSoFar self.old }
        requires held { HoldsAt self.old.found node pick.now.number pick.now.cap }
        ensures { OnOk result (Gains (OfCap self.old.spec self.old.labels (label_of self.old.labels node) pick.now.cap)
            self.old self.new) }
    {
        let from = self.label(node);
        let edges = self.cap_edges(from, &pick.cap)?;
        self.note_all(edges.as_slice())?;
        Ok(())
    }

    /// The edges that the step makes.
    fn edges_of(&self, deed: Deed, from: &Pick, to: &Pick) -> Made<Vec<Edge>>
        ensures { IfOk result (λ edges. (e : Edge) → (has edges.items e ≡ true)
            ↔ OfDeed self.now.spec self.now.labels deed from.now.cap to.now.cap e) }
    {
        let label = self.label(from.cap.object);
        match deed {
            Deed::Map => self.cap_edges(label, &to.cap),
            Deed::Bind => self.send_edges(label, to.cap.object),
        }
    }

    /// Makes the thread take the step, where that shows an edge more.
    pub fn act(&mut self, deed: Deed, t: u32, from: &Pick, to: &Pick) -> Made<()>
        requires so_far { IsSoFar self.old }
        requires owns { OwnsBoth self.old.spec self.old.found t deed from.now to.now }
        ensures { OnOk result (Gains (OfDeed self.old.spec self.old.labels deed from.now.cap to.now.cap) self.old self.new) }
    {
        let edges = self.edges_of(deed, from, to)?;
        if self.are_settled(edges.as_slice()) {
            return Ok(());
        }
        self.push(deed.step(t, from, to))?;
        self.note_all(edges.as_slice())?;
        Ok(())
    }

    /// The edges of the call and of its save.
    fn replies(&self, caller: Party, listener: Party) -> [Edge; 2]
        ensures { (e : Edge) → (has result e ≡ true) ↔ OfParties self.now.labels caller listener e }
    {
        let to = self.label(caller.thread);
        let by_call = Edge {
            from: self.label(listener.thread),
            authority: Authority::Reply,
            to,
        };
        let by_save = Edge {
            from: self.label(listener.node),
            authority: Authority::Reply,
            to,
        };
        [by_call, by_save]
    }

    /// A call whose reply is saved, and given from there.
    fn push_call(&mut self, caller: Party, listener: Party) -> Made<()>
        ensures { OnOk result (self.new ≡ record self.old {
          steps = self.old.steps ++ call_steps self.old.nexts caller
              listener;
          nexts = slice_set self.old.nexts listener.node (slice_index self.old.nexts listener.node + 1);
        }) }
    {
        let number = match self.nexts.get(listener.node as usize) {
            Some(next) => *next,
            None => 0,
        };
        let next = match number.checked_add(1) {
            Some(next) => next,
            None => return Err(NoMemory),
        };
        self.steps.push(Step::Call {
            t: caller.thread,
            i: caller.number,
            u: listener.thread,
            j: listener.number,
        })?;
        self.steps.push(Step::Save { t: listener.thread })?;
        self.steps.push(Step::ReplyTo {
            t: listener.thread,
            i: number,
            copy: None,
        })?;
        put_next(&mut self.nexts, listener.node, next);
        Ok(())
    }

    /// Makes the one call the other, where that shows an edge more.
    pub fn call(&mut self, caller: Party, listener: Party) -> Made<()>
        requires so_far { IsSoFar self.old }
        requires parties { AreParties self.old.spec self.old.found caller listener }
        ensures { OnOk result (Gains (OfParties self.old.labels caller listener) self.old self.new) }
    {
        let edges = self.replies(caller, listener);
        if self.are_settled(&edges) {
            return Ok(());
        }
        self.push_call(caller, listener)?;
        self.note_all(&edges)?;
        Ok(())
    }
}
