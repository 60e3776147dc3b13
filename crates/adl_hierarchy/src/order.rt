//! The order of components.

ghost use Rattle.adl_meaning.specs.Graph.{InRange, IsAcyclic, IsInnerFirst};
ghost use Rattle.adl_hierarchy.specs.Placing.{IsPlacing, IsAtEnd};
ghost use Rattle.std.specs.Prelude.{◌≡◌, ◌<◌, ◌^◌, length, IfOk, IfSome, IfNone};

use crate::placing::Placing;
use cam_base::{List, Made};
use std::alloc::Global;

/// Places as many components as there is a place for.
fn place_all(alloc: Global, graph: &[List<u32>]) -> Made<Placing>
    requires range { InRange graph.now }
    requires few { length graph.now < 2 ^ 32 }
    ensures placing { IfOk result (λ p. IsPlacing graph.now p) }
    ensures end { IfOk result (λ p. IsAtEnd graph.now p.placed.list) }
{
    let mut placing = Placing::new(alloc, graph)?;
    placing.settle_all(graph)?;
    let mut index = 0;
    while index < placing.placed.list().len() {
        placing.release(alloc, graph, index)?;
        index += 1;
    }
    Ok(placing)
}

/// The components, each after the types of its instances. None where one of them holds itself. Takes time and memory
/// along the size of the graph.
pub fn inner_first(alloc: Global, graph: &[List<u32>]) -> Made<Option<List<u32>>>
    requires range { InRange graph.now }
    requires few { length graph.now < 2 ^ 32 }
    ensures order { IfOk result (λ found. IfSome found (λ order. IsInnerFirst graph.now order)) }
    ensures acyclic { IfOk result (λ found. IfSome found (λ order. IsAcyclic graph.now)) }
    ensures none { IfOk result (λ found. IfNone found (IsAcyclic graph.now → ⊥)) }
{
    let placing = place_all(alloc, graph)?;
    if placing.placed.is_full() {
        Ok(Some(placing.placed.into_list()))
    } else {
        Ok(None)
    }
}
