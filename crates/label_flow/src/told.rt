ghost use Rattle.cap_model.specs.Policies.{NumbersDiffer};
ghost use Rattle.label_flow.specs.Told.{IsTold};
ghost use Rattle.std.specs.Prelude.{IfOk};

use crate::chains::chain_text;
use crate::flow;
use cam_base::{List, Made};
use cap_model::Policy;
use std::alloc::Global;

/// What is told of two labels of a policy.
#[derive(Drop)]
pub enum Told {
    /// These lines: something can pass from the first to the second.
    Flows(List<u8>),
    /// Nothing can.
    NoFlow,
    /// The first is no label.
    NoFrom,
    /// The second is no label.
    NoTo,
}

/// A shortest chain of edges by which something can pass from one label to another, as lines.
pub fn tell_flow(alloc: Global, policy: &Policy, from: &[u8], to: &[u8]) -> Made<Told>
    requires { NumbersDiffer policy.now.labels }
    ensures { IfOk result (IsTold policy.now from.now to.now) }
{
    let Some(from) = policy.number_of(from) else {
        return Ok(Told::NoFrom);
    };
    let Some(to) = policy.number_of(to) else {
        return Ok(Told::NoTo);
    };
    match flow(alloc, &policy.edges, from, to)? {
        Some(chain) => {
            let text = chain_text(alloc, policy, chain.as_slice())?;
            Ok(Told::Flows(text))
        }
        None => Ok(Told::NoFlow),
    }
}
