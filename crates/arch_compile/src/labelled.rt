//! The policy with the labels of objects.

ghost use Rattle.arch_compile.specs.Built.{labelled};
ghost use Rattle.arch_compile.specs.Steps.{with_objects};
ghost use Rattle.std.specs.Prelude.{◌≡◌, ◌<◌, ◌^◌, length, IfOk};

use cam_base::{List, Made, Name};
use cap_model::{Entry, Labels, Policy, Spec};
use std::alloc::Global;

/// The name of each object with its label.
fn labelled_objects(alloc: Global, entries: &[Entry], labels: &Labels) -> Made<List<(Name, u32)>>
    requires { length entries.now < 2 ^ 32 }
    ensures { IfOk result (λ objects. objects ≡ labelled entries.now labels.now.by_object) }
{
    let mut objects = Vec::with_capacity(alloc, entries.len())?;
    for (number, entry) in entries.iter().enumerate() {
        objects.push_reserved((entry.name.copy(alloc)?, labels.of(number as u32)));
    }
    Ok(List::from_vec(objects))
}

/// The same policy, in which the objects of the spec have these labels.
pub fn with_objects(alloc: Global, policy: Policy, spec: &Spec, labels: &Labels) -> Made<Policy>
    requires { length spec.now.entries < 2 ^ 32 }
    ensures { IfOk result (λ p. p ≡ with_objects policy spec.now labels.now) }
{
    let objects = labelled_objects(alloc, spec.entries.as_slice(), labels)?;
    Ok(Policy { objects, ..policy })
}
