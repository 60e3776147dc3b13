//! The boot state.

ghost use Rattle.cap_machine.specs.Progress.{Bootable, NextsFit};
ghost use Rattle.cap_model.specs.FitsSpec.{FitsSpec};
ghost use Rattle.cap_model.specs.Kept.{IsKept};
ghost use Rattle.cap_model.specs.State.{boot_node, boot_thread, boot_irq, boot};
ghost use Rattle.std.specs.List.{All};
ghost use Rattle.std.specs.Prelude.{◌≡◌, map, IfOk};

use crate::node::Node;
use crate::state::State;
use cam_base::Made;
use cap_model::{Entry, Object, Spec, ThreadState};
use std::alloc::Global;

fn boot_node(alloc: Global, object: &Object) -> Made<Node>
    requires { Bootable object.now }
    ensures { IfOk result (λ node. node ≡ boot_node object.now) }
{
    match object {
        Object::CNode { bits, slots } => Node::boot(alloc, *bits, slots.as_slice()),
        _ => Ok(Node::empty(alloc)),
    }
}

fn boot_thread(object: &Object) -> ThreadState
    ensures { result ≡ boot_thread object.now }
{
    match object {
        Object::Thread(tcb) => ThreadState {
            root: tcb.get().cspace,
            space: tcb.get().vspace,
            pending: None,
            waits: false,
        },
        _ => ThreadState {
            root: None,
            space: None,
            pending: None,
            waits: false,
        },
    }
}

fn boot_irq(object: &Object) -> Option<u32>
    ensures { result ≡ boot_irq object.now }
{
    match object {
        Object::Irq { notification } => *notification,
        _ => None,
    }
}

fn boot_nodes(alloc: Global, entries: &[Entry]) -> Made<Vec<Node>>
    requires { All (λ e. Bootable e.object) entries.now }
    ensures { IfOk result (λ nodes. nodes.items ≡ map (λ e. boot_node e.object) entries.now) }
{
    let mut nodes = Vec::new(alloc);
    for entry in entries {
        nodes.push(boot_node(alloc, &entry.object)?)?;
    }
    Ok(nodes)
}

fn boot_threads(alloc: Global, entries: &[Entry]) -> Made<Vec<ThreadState>>
    ensures { IfOk result (λ threads. threads.items ≡ map (λ e. boot_thread e.object) entries.now) }
{
    let mut threads = Vec::new(alloc);
    for entry in entries {
        threads.push(boot_thread(&entry.object))?;
    }
    Ok(threads)
}

fn boot_irqs(alloc: Global, entries: &[Entry]) -> Made<Vec<Option<u32>>>
    ensures { IfOk result (λ irqs. irqs.items ≡ map (λ e. boot_irq e.object) entries.now) }
{
    let mut irqs = Vec::new(alloc);
    for entry in entries {
        irqs.push(boot_irq(&entry.object))?;
    }
    Ok(irqs)
}

/// The state in which every run begins.
pub fn boot(alloc: Global, spec: &Spec) -> Made<State>
    requires { IsKept spec.now }
    ensures state { IfOk result (λ s. s.state ≡ boot spec.now) }
    ensures applied { IfOk result (λ s. s.applied ≡ 0) }
    ensures fits { IfOk result (λ s. FitsSpec spec.now s.state) }
{
    let entries = spec.entries.as_slice();
    let nodes = boot_nodes(alloc, entries)?;
    let threads = boot_threads(alloc, entries)?;
    let irqs = boot_irqs(alloc, entries)?;
    Ok(State::new(alloc, nodes, threads, irqs))
}
