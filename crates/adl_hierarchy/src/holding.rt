//! Whether one component holds another.

ghost use Rattle.adl_meaning.specs.Graph.{has, InRange, Holds};
ghost use Rattle.adl_hierarchy.specs.Placing.{HasMore};
ghost use Rattle.std.specs.Prelude.{◌≡◌, ◌<◌, ◌^◌, ℕ, true, false, length, IfOk, OnOk};

use crate::number_set::NumberSet;
use cam_base::{List, Made};
use std::alloc::Global;

fn add_each(numbers: &[u32], found: &mut NumberSet) -> Made<()>
    requires { (c : ℕ) → has numbers.now c ≡ true → c < found.old.size }
    ensures { OnOk result (HasMore numbers.now found.old found.new) }
{
    for number in numbers {
        found.insert(*number)?;
    }
    Ok(())
}

/// Whether a component is another, or holds it, directly or through others. Takes time and memory along the size of the
/// graph.
pub fn holds(alloc: Global, graph: &[List<u32>], from: u32, to: u32) -> Made<bool>
    requires range { InRange graph.now }
    requires few { length graph.now < 2 ^ 32 }
    requires from { from < length graph.now }
    requires to { to < length graph.now }
    ensures yes { IfOk result (λ b. b ≡ true → Holds graph.now from to) }
    ensures no { IfOk result (λ b. b ≡ false → Holds graph.now from to → ⊥) }
{
    let mut found = NumberSet::new(alloc, graph.len() as u32)?;
    found.insert(from)?;
    let mut next = 0;
    while next < found.list().len() {
        let component = found.list()[next];
        add_each(graph[component as usize].as_slice(), &mut found)?;
        next += 1;
    }
    Ok(found.contains(to))
}
