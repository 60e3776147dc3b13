//! What bound interrupts give devices.

ghost use Rattle.arch_policy.specs.Bound.{IsBound, IsBoundBy, bound_to};
ghost use Rattle.cap_model.specs.Adds.{Adds};
ghost use Rattle.std.specs.Prelude.{◌≡◌, ◌++◌, OnOk};

use cam_base::{List, Made};
use cap_model::{Authority, Edge, EdgeTable};

fn push_bound_to(handle: Edge, signal: Option<Edge>, edges: &mut List<Edge>) -> Made<()>
    ensures { OnOk result (edges.new ≡ edges.old ++ bound_to handle signal) }
{
    match signal {
        Some(signal) => edges.push(Edge {
            from: handle.to,
            authority: Authority::AsyncSend,
            to: signal.to,
        }),
        None => Ok(()),
    }
}

fn push_bound_by(handle: Edge, signals: &EdgeTable, edges: &mut List<Edge>) -> Made<()>
    ensures { OnOk result (Adds (IsBoundBy handle signals.now) edges.old edges.new) }
{
    let (first, past) = signals.out_of(handle.from);
    for at in first..past {
        push_bound_to(handle, signals.get(at), edges)?;
    }
    Ok(())
}

/// Puts what a device may signal, by the edges of handlers and those by which they signal, behind the others.
pub fn push_bound(handles: &EdgeTable, signals: &EdgeTable, edges: &mut List<Edge>) -> Made<()>
    ensures { OnOk result (Adds (IsBound handles.now signals.now) edges.old edges.new) }
{
    for handle in handles.iter() {
        push_bound_by(handle, signals, edges)?;
    }
    Ok(())
}
