//! The placing of components, each after the types of its instances.
//!
//! A component that can't be placed yet waits for one of its inner ones, the types of its instances. Once that one is
//! placed, the search for an inner one that isn't goes on where it stopped, so all of it takes one walk over the graph.

ghost use Rattle.adl_meaning.specs.Graph.{has, inner_of, InRange};
ghost use Rattle.adl_hierarchy.specs.Placing.{IsPlacing, Waits, Settles};
ghost use Rattle.std.specs.Prelude.{◌≡◌, ◌<◌, ◌≤◌, ◌^◌, ◌+◌, ℕ, true, false, [], length, take, slice_index, IfOk, OnOk};

use crate::number_set::NumberSet;
use cam_base::{List, Made};
use std::alloc::Global;

/// How far the placing has come.
#[derive(Drop)]
pub struct Placing {
    /// The components that are placed.
    pub placed: NumberSet,
    /// How many of its inner ones each component is past; these are placed.
    pub past: Vec<usize>,
    /// The components that wait for each one.
    pub waiting: Vec<List<u32>>,
}

/// The index of the next inner one that isn't placed, if there is one.
fn next_open(inner: &[u32], past: usize, placed: &NumberSet) -> usize
    requires range { (c : ℕ) → has inner.now c ≡ true → c < placed.now.size }
    requires past { (c : ℕ) → has (take past inner.now) c ≡ true → has placed.now.list c ≡ true }
    ensures past { (c : ℕ) → has (take result inner.now) c ≡ true → has placed.now.list c ≡ true }
    ensures unplaced { result < length inner.now → has placed.now.list (slice_index inner.now result) ≡ false }
{
    let mut next = past;
    while next < inner.len() && placed.contains(inner[next]) {
        next += 1;
    }
    next
}

impl Placing {
    /// Nothing is placed.
    pub fn new(alloc: Global, graph: &[List<u32>]) -> Made<Placing>
        requires { length graph.now < 2 ^ 32 }
        ensures { IfOk result (λ p. IsPlacing graph.now p) }
    {
        let mut waiting = Vec::new(alloc);
        for _ in graph {
            waiting.push(List::new(alloc))?;
        }
        Ok(Placing {
            placed: NumberSet::new(alloc, graph.len() as u32)?,
            past: vec![in alloc; 0; graph.len()]?,
            waiting,
        })
    }

    /// Places the component, or has it wait.
    pub fn settle(&mut self, graph: &[List<u32>], component: u32) -> Made<()>
        requires range { InRange graph.now }
        requires component { component < length graph.now }
        requires placing { IsPlacing graph.now self.old }
        ensures placing { OnOk result (IsPlacing graph.now self.new) }
        ensures settles { OnOk result (Settles graph.now self.old self.new (λ x. x ≡ component)) }
    {
        let inner = graph[component as usize].as_slice();
        let next = next_open(inner, self.past[component as usize], &self.placed);
        self.past[component as usize] = next;
        if next < inner.len() {
            self.waiting[inner[next] as usize].push(component)
        } else {
            self.placed.insert(component)
        }
    }

    /// Places each component, or has it wait.
    pub fn settle_all(&mut self, graph: &[List<u32>]) -> Made<()>
        requires range { InRange graph.now }
        requires few { length graph.now < 2 ^ 32 }
        requires placing { IsPlacing graph.now self.old }
        ensures placing { OnOk result (IsPlacing graph.now self.new) }
        ensures settles { OnOk result (Settles graph.now self.old self.new (λ x. x < length graph.now)) }
    {
        for component in 0..graph.len() as u32 {
            self.settle(graph, component)?;
        }
        Ok(())
    }

    /// Places each of the components, or has it wait for another.
    fn settle_each(&mut self, graph: &[List<u32>], components: &[u32]) -> Made<()>
        requires range { InRange graph.now }
        requires components { (x : ℕ) → has components.now x ≡ true → x < length graph.now }
        requires placing { IsPlacing graph.now self.old }
        ensures placing { OnOk result (IsPlacing graph.now self.new) }
        ensures settles { OnOk result (Settles graph.now self.old self.new (λ x. has components.now x ≡ true)) }
    {
        for component in components {
            self.settle(graph, *component)?;
        }
        Ok(())
    }

    /// Lets those go on that wait for the component that was placed as the one of this index.
    pub fn release(&mut self, alloc: Global, graph: &[List<u32>], index: usize) -> Made<()>
        requires range { InRange graph.now }
        requires index { index < length self.old.placed.list }
        requires placing { IsPlacing graph.now self.old }
        requires waits { (x : ℕ) → x < length graph.now → Waits graph.now index self.old x }
        ensures placing { OnOk result (IsPlacing graph.now self.new) }
        ensures waits { OnOk result ((x : ℕ) → x < length graph.now → Waits graph.now (index + 1) self.new x) }
    {
        let inner = self.placed.list()[index];
        let outer = std::mem::replace(&mut self.waiting[inner as usize], List::new(alloc));
        self.settle_each(graph, outer.as_slice())
    }
}
