//! The bodies that the assembly holds.

ghost use Rattle.adl_meaning.specs.Prelude.{leaves, list_any};
ghost use Rattle.adl_flatten.specs.AreTemplates.{AreHeld, IsReady};
ghost use Rattle.std.specs.Prelude.{All, IfOk, [], false, length, slice_index_or, ℕ, ◌&&◌, ◌<◌, ◌==◌, ◌^◌, ◌||◌, ◌≡◌};

use adl_program::{Part, Program};
use cam_base::Made;
use std::alloc::Global;

/// Marks the components of the instances of a body, if the body is marked.
fn mark_inner(number: u32, parts: &[Part<'_>], marks: &mut [bool])
    requires number { number < length marks.old }
    requires kinds { All (λ x. x.kind < length marks.old) parts.now }
    ensures { (k : ℕ) → slice_index_or marks.new k false ≡ (slice_index_or marks.old k false
        || (slice_index_or marks.old number false && list_any (λ x. k == x.kind) parts.now)) }
{
    if marks[number as usize] {
        for part in parts {
            marks[part.kind as usize] = true;
        }
    }
}

/// Whether the assembly holds each body by number. It counts as holding itself.
pub fn held_bodies(alloc: Global, program: &Program<'_>) -> Made<Vec<bool>>
    requires ready { IsReady program.now }
    requires few { length (leaves program.now) < 2 ^ 32 }
    ensures { IfOk result (λ v. AreHeld program.now [] v.items) }
{
    let top = program.top_number() as usize;
    let mut held = vec![in alloc; false; top + 1]?;
    held[top] = true;
    let order = program.order();
    for left in (0..order.len()).rev() {
        let number = order[left];
        mark_inner(number, program.body(number).parts(), held.as_mut_slice());
    }
    Ok(held)
}
