ghost use Rattle.cap_machine.specs.Progress.{NextsFit};
ghost use Rattle.cap_machine.specs.Refused.{Refused};
ghost use Rattle.cap_model.specs.Adds.{Adds};
ghost use Rattle.cap_machine.specs.StateSources.{OfState};
ghost use Rattle.cap_machine.specs.StepTable.{StepTo};
ghost use Rattle.cap_model.specs.FitsSpec.{FitsSpec};
ghost use Rattle.cap_model.specs.State.{node_at, thread_at, irq_at, content_in};
ghost use Rattle.std.specs.Prelude.{◌≡◌, ◌<◌, ◌+◌, ◌-◌, ◌^◌, OnOk, OnErr, IfErr, IfOk, length, []};

use crate::edges::{with_irqs, with_mapped, with_nodes, with_spec_parts, with_threads};
use crate::node::Node;
use crate::perform::perform;
use crate::step::{Step, Why};
use cam_base::{Made, NoMemory};
use cap_model::{Content, Edge, Labels, Mapped, Spec, ThreadState};
use std::alloc::Global;
use std::marker::Model;

/// Why a step is refused.
#[derive(Clone, Copy)]
pub enum StepError {
    Illegal(Why),
    NoMemory,
}

/// A state of the machine, and the number of steps since boot.
#[derive(Drop)]
pub struct State {
    nodes: Vec<Node>,
    threads: Vec<ThreadState>,
    irqs: Vec<Option<u32>>,
    mapped: Vec<Mapped>,
    applied: u32,
}

impl Model for State {
    ghost use Rattle.cap_machine.specs.Progress.{Progress, NextsFit};

    ghost Value = { Progress };

    ghost view = { λ s. record {
      state = record { nodes = s.nodes.items; threads = s.threads.items; irqs = s.irqs.items; mapped = s.mapped.items };
      applied = s.applied;
    } };

    ghost invariant = { λ s. NextsFit s.nodes.items s.applied };
}

impl State {
    /// A state of these parts, with no step made.
    pub(crate) fn new(
        alloc: Global,
        nodes: Vec<Node>,
        threads: Vec<ThreadState>,
        irqs: Vec<Option<u32>>,
    ) -> State
        requires { NextsFit nodes.items 0 }
        ensures state { result.state ≡ record { nodes = nodes.items; threads = threads.items; irqs = irqs.items; mapped = [] } }
        ensures applied { result.applied ≡ 0 }
    {
        State {
            nodes,
            threads,
            irqs,
            mapped: Vec::new(alloc),
            applied: 0,
        }
    }

    /// The number of steps applied since boot. Takes no memory.
    pub fn applied(&self) -> u32
        ensures { result ≡ self.now.applied }
    {
        self.applied
    }

    /// A thread, with nothing where there is none.
    pub(crate) fn thread(&self, t: u32) -> ThreadState
        ensures { result ≡ thread_at self.now.state t }
    {
        match self.threads.get(t as usize) {
            Some(thread) => *thread,
            None => ThreadState {
                root: None,
                space: None,
                pending: None,
                waits: false,
            },
        }
    }

    /// What a CNode has at a number.
    pub(crate) fn content(&self, c: u32, i: u64) -> Option<Content>
        ensures { result ≡ content_in self.now.state c i }
    {
        match self.nodes.get(c as usize) {
            Some(node) => node.content(i),
            None => None,
        }
    }

    /// The edges and those of the state.
    pub(crate) fn with_edges(
        &self,
        edges: Vec<Edge>,
        spec: &Spec,
        labels: &Labels,
    ) -> Made<Vec<Edge>>
        requires fits { FitsSpec spec.now self.now.state }
        requires labelled { length labels.now.by_object ≡ length spec.now.entries }
        ensures { IfOk result (λ new. Adds (OfState spec.now labels.now.by_object self.now.state) edges.items new.items) }
    {
        let edges = with_nodes(edges, spec, labels, self.nodes.as_slice())?;
        let edges = with_threads(edges, labels, self.threads.as_slice())?;
        let edges = with_irqs(edges, labels, self.irqs.as_slice())?;
        let edges = with_mapped(edges, labels, self.mapped.as_slice())?;
        let edges = with_spec_parts(edges, spec, labels)?;
        Ok(edges)
    }

    /// Makes a step, or says why not and leaves all as it was. Takes no memory for `Call`, `Reply` and `ReplyTo` without
    /// a copy, `SetCspace`, `SetVspace`, `Bind` and `Drop`.
    pub fn apply(&mut self, spec: &Spec, step: &Step) -> Result<(), StepError>
        requires { self.old.applied < 2 ^ 32 - 1 }
        ensures ok { OnOk result (StepTo spec.now self.old.state step.now self.new.state) }
        ensures counted { OnOk result (self.new.applied ≡ self.old.applied + 1) }
        ensures refused { IfErr result (λ e. Refused spec.now self.old.state step.now e) }
        ensures kept { OnErr result (self.new ≡ self.old) }
        ensures fits { FitsSpec spec.now self.old.state → FitsSpec spec.now self.new.state }
    {
        let change = match self.decide(spec, step) {
            Ok(change) => change,
            Err(why) => return Err(StepError::Illegal(why)),
        };
        match perform(
            &mut self.nodes,
            &mut self.threads,
            &mut self.irqs,
            &mut self.mapped,
            change,
        ) {
            Ok(()) => {
                self.applied += 1;
                Ok(())
            }
            Err(_) => Err(StepError::NoMemory),
        }
    }
}
