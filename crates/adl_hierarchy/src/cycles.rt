//! Components that hold each other.
//!
//! A walk in depth over the graph turned round lists the components as it leaves them. From the last one on, each that
//! has no root yet is the root of all that it holds and that have none. From these roots in the other order, the same
//! over the graph turned round finds what holds each. Of the order in which this goes nothing is proved: in the end one
//! pass over the graph tests what was found. Where the test fails, which no graph is known to do, each question is
//! answered by a walk of its own.

ghost use Rattle.adl_meaning.specs.Graph.{has, inner_of, InRange, Holds, is_held};
ghost use Rattle.adl_hierarchy.specs.Cycles.{AreCycleNumbers, AreHeldBy, AreRoots, IsTurned, MayTell};
ghost use Rattle.std.specs.Prelude.{◌≡◌, ◌<◌, ◌^◌, ◌⊎◌, ℕ, true, false, length, slice_index, IfOk, OnOk};

use crate::holding::holds;
use crate::number_set::NumberSet;
use cam_base::{List, Made};
use std::alloc::Global;
use std::marker::Model;

/// A graph of components, with the cycles in it. Contracts see it as the graph.
#[derive(Drop)]
pub struct Cycles {
    graph: List<List<u32>>,
    /// A number for each component, one for all that hold each other.
    numbers: Option<List<u32>>,
}

impl Model for Cycles {
    ghost use Rattle.adl_hierarchy.specs.Cycles.{IsTold};
    ghost use Rattle.std.specs.Prelude.{List as Seq, ℕ};

    ghost Value = { Seq (Seq ℕ) };

    ghost view = { λ k. k.graph };

    ghost invariant = { λ k. IsTold k.graph k.numbers };
}

fn add_outer(inner: &[u32], component: u32, outer: &mut Vec<List<u32>>) -> Made<()>
    requires { (c : ℕ) → has inner.now c ≡ true → c < length outer.old.items }
    ensures size { OnOk result (length outer.new.items ≡ length outer.old.items) }
    ensures edges { OnOk result ((c a : ℕ) → has (inner_of outer.new.items c) a ≡ true
        → ((a ≡ component) × (has inner.now c ≡ true)) ⊎ (has (inner_of outer.old.items c) a ≡ true)) }
{
    for number in inner {
        outer[*number as usize].push(component)?;
    }
    Ok(())
}

fn no_lists(alloc: Global, count: usize) -> Made<Vec<List<u32>>>
    ensures size { IfOk result (λ v. length v.items ≡ count) }
    ensures none { IfOk result (λ v. (c a : ℕ) → has (inner_of v.items c) a ≡ false) }
{
    let mut lists = Vec::new(alloc);
    for _list in 0..count {
        lists.push(List::new(alloc))?;
    }
    Ok(lists)
}

/// For each component those that it is an inner one of.
fn turned(alloc: Global, graph: &[List<u32>]) -> Made<Vec<List<u32>>>
    requires range { InRange graph.now }
    requires few { length graph.now < 2 ^ 32 }
    ensures { IfOk result (λ t. IsTurned graph.now t.items) }
{
    let mut outer = no_lists(alloc, graph.len())?;
    for component in 0..graph.len() as u32 {
        add_outer(graph[component as usize].as_slice(), component, &mut outer)?;
    }
    Ok(outer)
}

/// Twice the components, and their inner ones: the walk in depth takes no more steps.
fn steps(graph: &[List<u32>]) -> usize {
    let mut steps = graph.len().saturating_mul(2);
    for inner in graph {
        steps = steps.saturating_add(inner.len());
    }
    steps
}

fn push_unseen(inner: &[u32], seen: &NumberSet, waiting: &mut Vec<u32>) -> Made<()>
    requires inner { (c : ℕ) → has inner.now c ≡ true → c < seen.now.size }
    requires waiting { (x : ℕ) → has waiting.old.items x ≡ true → x < seen.now.size }
    ensures { OnOk result ((x : ℕ) → has waiting.new.items x ≡ true → x < seen.now.size) }
{
    for number in inner {
        if !seen.contains(*number) {
            waiting.push(*number)?;
        }
    }
    Ok(())
}

fn all_below(alloc: Global, size: u32) -> Made<Vec<u32>>
    ensures { IfOk result (λ v. (x : ℕ) → has v.items x ≡ true → x < size) }
{
    let mut numbers = Vec::new(alloc);
    for number in 0..size {
        numbers.push(number)?;
    }
    Ok(numbers)
}

/// The components in the order in which a walk in depth leaves them.
fn leaving_order(alloc: Global, graph: &[List<u32>]) -> Made<List<u32>>
    requires range { InRange graph.now }
    requires few { length graph.now < 2 ^ 32 }
{
    let size = graph.len() as u32;
    let mut seen = NumberSet::new(alloc, size)?;
    let mut left = NumberSet::new(alloc, size)?;
    let mut waiting = all_below(alloc, size)?;
    for _step in 0..steps(graph) {
        let Some(component) = waiting.pop() else {
            break;
        };
        if seen.contains(component) {
            left.insert(component)?;
        } else {
            seen.insert(component)?;
            waiting.push(component)?;
            push_unseen(graph[component as usize].as_slice(), &seen, &mut waiting)?;
        }
    }
    Ok(left.into_list())
}

/// Gives the root to each inner one of a component that has none.
fn spread_once(
    graph: &[List<u32>],
    component: u32,
    root: u32,
    roots: &mut Vec<u32>,
    waiting: &mut Vec<u32>,
) -> Made<()>
    requires range { InRange graph.now }
    requires component { component < length graph.now }
    requires held { Holds graph.now root component }
    requires roots { AreRoots graph.now roots.old.items }
    requires waiting { AreHeldBy graph.now root waiting.old.items }
    ensures roots { OnOk result (AreRoots graph.now roots.new.items) }
    ensures waiting { OnOk result (AreHeldBy graph.now root waiting.new.items) }
{
    for inner in graph[component as usize].as_slice() {
        if roots[*inner as usize] as usize >= graph.len() {
            roots[*inner as usize] = root;
            waiting.push(*inner)?;
        }
    }
    Ok(())
}

/// Gives the root to all that it holds through components that have none.
fn spread(alloc: Global, graph: &[List<u32>], root: u32, roots: &mut Vec<u32>) -> Made<()>
    requires range { InRange graph.now }
    requires root { root < length graph.now }
    requires roots { AreRoots graph.now roots.old.items }
    ensures { OnOk result (AreRoots graph.now roots.new.items) }
{
    roots[root as usize] = root;
    let mut waiting = Vec::new(alloc);
    waiting.push(root)?;
    for next in 0..graph.len() {
        if next >= waiting.len() {
            break;
        }
        let component = waiting[next];
        spread_once(graph, component, root, roots, &mut waiting)?;
    }
    Ok(())
}

/// The root of each component: the starts are taken in turn, and each one that has no root is that of itself and of all
/// that it holds through components that have none.
fn roots_from(alloc: Global, graph: &[List<u32>], starts: &[u32]) -> Made<Vec<u32>>
    requires range { InRange graph.now }
    requires few { length graph.now < 2 ^ 32 }
    ensures { IfOk result (λ v. AreRoots graph.now v.items) }
{
    let none = graph.len() as u32;
    let mut roots = vec![in alloc; none; graph.len()]?;
    for start in starts {
        let start = *start;
        if start < none && roots[start as usize] == none {
            spread(alloc, graph, start, &mut roots)?;
        }
    }
    Ok(roots)
}

/// The place of each component in the list.
fn places(alloc: Global, list: &[u32], size: usize) -> Made<Vec<usize>>
    ensures { IfOk result (λ v. length v.items ≡ size) }
{
    let mut places = vec![in alloc; 0; size]?;
    for (place, number) in list.iter().enumerate() {
        if (*number as usize) < size {
            places[*number as usize] = place;
        }
    }
    Ok(places)
}

/// Those of the list that are roots.
fn own_roots(alloc: Global, list: &[u32], roots: &[u32]) -> Made<Vec<u32>> {
    let mut own = Vec::new(alloc);
    for number in list {
        if roots.get(*number as usize) == Some(number) {
            own.push(*number)?;
        }
    }
    Ok(own)
}

/// Whether both searches found the same root for each component.
fn agree(roots: &[u32], others: &[u32], size: usize) -> bool
    requires roots { length roots.now ≡ size }
    requires others { length others.now ≡ size }
    ensures { result ≡ true → (x : ℕ) → x < size
        → (slice_index roots.now x < size) × (slice_index roots.now x ≡ slice_index others.now x) }
{
    for x in 0..size {
        if roots[x] as usize >= size || roots[x] != others[x] {
            return false;
        }
    }
    true
}

/// Whether each inner one has the component's root, or one of a greater rank.
fn rises_at(inner: &[u32], root: u32, roots: &[u32], ranks: &[usize]) -> bool
    requires inner { (c : ℕ) → has inner.now c ≡ true → c < length roots.now }
    requires roots { (c : ℕ) → has inner.now c ≡ true → slice_index roots.now c < length ranks.now }
    requires root { root < length ranks.now }
    ensures { result ≡ true → (c : ℕ) → has inner.now c ≡ true
        → (slice_index roots.now c ≡ root) ⊎ (slice_index ranks.now root < slice_index ranks.now (slice_index roots.now c)) }
{
    for number in inner {
        let other = roots[*number as usize];
        if other != root && ranks[root as usize] >= ranks[other as usize] {
            return false;
        }
    }
    true
}

/// Whether the rank rises wherever an instance leads from one cycle to another.
fn rises(graph: &[List<u32>], roots: &[u32], ranks: &[usize]) -> bool
    requires range { InRange graph.now }
    requires size { length roots.now ≡ length graph.now }
    requires ranks { length ranks.now ≡ length graph.now }
    requires roots { (x : ℕ) → x < length graph.now → slice_index roots.now x < length graph.now }
    ensures { result ≡ true → (a c : ℕ) → a < length graph.now → has (inner_of graph.now a) c ≡ true
        → (slice_index roots.now c ≡ slice_index roots.now a)
        ⊎ (slice_index ranks.now (slice_index roots.now a) < slice_index ranks.now (slice_index roots.now c)) }
{
    for component in 0..graph.len() {
        if !rises_at(graph[component].as_slice(), roots[component], roots, ranks) {
            return false;
        }
    }
    true
}

/// The roots of all components, where the two searches and the ranks agree on them.
fn tested(
    graph: &[List<u32>],
    turned: &[List<u32>],
    roots: Vec<u32>,
    others: &[u32],
    ranks: &[usize],
) -> Option<List<u32>>
    requires range { InRange graph.now }
    requires turned { IsTurned graph.now turned.now }
    requires roots { AreRoots graph.now roots.items }
    requires others { AreRoots turned.now others.now }
    requires ranks { length ranks.now ≡ length graph.now }
    ensures { MayTell graph.now result }
{
    if agree(roots.as_slice(), others, graph.len()) && rises(graph, roots.as_slice(), ranks) {
        Some(List::from_vec(roots))
    } else {
        None
    }
}

/// The number of each component, where the search finds one for all that hold each other.
fn numbers(alloc: Global, graph: &[List<u32>]) -> Made<Option<List<u32>>>
    requires range { InRange graph.now }
    requires few { length graph.now < 2 ^ 32 }
    ensures { IfOk result (λ o. MayTell graph.now o) }
{
    let turned = turned(alloc, graph)?;
    let mut order = leaving_order(alloc, turned.as_slice())?.into_vec();
    let ranks = places(alloc, order.as_slice(), graph.len())?;
    order.reverse();
    let roots = roots_from(alloc, graph, order.as_slice())?;
    order.reverse();
    let own = own_roots(alloc, order.as_slice(), roots.as_slice())?;
    let others = roots_from(alloc, turned.as_slice(), own.as_slice())?;
    Ok(tested(
        graph,
        turned.as_slice(),
        roots,
        others.as_slice(),
        ranks.as_slice(),
    ))
}

impl Cycles {
    /// Finds the cycles, in time and memory along the size of the graph.
    pub fn of(alloc: Global, graph: List<List<u32>>) -> Made<Cycles>
        requires range { InRange graph }
        requires few { length graph < 2 ^ 32 }
        ensures { IfOk result (λ k. k ≡ graph) }
    {
        let numbers = numbers(alloc, graph.as_slice())?;
        Ok(Cycles { graph, numbers })
    }

    /// Whether the type of an instance, an inner one of the component that the instance stands in, is that component or
    /// holds it: a comparison, where the search found the cycles.
    pub fn holds_back(&self, alloc: Global, component: u32, inner: u32) -> Made<bool>
        requires component { component < length self.now }
        requires inner { has (inner_of self.now component) inner ≡ true }
        ensures { IfOk result (λ b. b ≡ is_held self.now inner component) }
    {
        match &self.numbers {
            Some(numbers) => {
                let numbers = numbers.as_slice();
                Ok(numbers[inner as usize] == numbers[component as usize])
            }
            None => {
                let held = holds(alloc, self.graph.as_slice(), inner, component)?;
                Ok(held)
            }
        }
    }
}
