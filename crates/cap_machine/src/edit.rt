ghost use Rattle.cap_machine.specs.Effects.{grown_at, without_at, waiting, with_pending, with_root, with_space};
ghost use Rattle.cap_model.specs.State.{no_node};
ghost use Rattle.std.specs.Prelude.{◌≡◌, ◌<◌, ◌-◌, ◌^◌, slice_index_or, slice_set, OnOk, OnErr, Some};

use crate::node::Node;
use cam_base::Made;
use cap_model::{Content, Pending, ThreadState};

/// Puts something at the next number of a CNode.
pub fn add_content(nodes: &mut [Node], c: u32, content: Content) -> Made<()>
    requires { (slice_index_or nodes.old c no_node).next < 2 ^ 64 - 1 }
    ensures ok { OnOk result (nodes.new ≡ grown_at nodes.old c content) }
    ensures err { OnErr result (nodes.new ≡ nodes.old) }
{
    let c = c as usize;
    if c < nodes.len() {
        let node = &mut nodes[c];
        node.add(content)?;
    }
    Ok(())
}

/// Takes away what stands at a number of a CNode.
pub fn remove_content(nodes: &mut [Node], c: u32, i: u64)
    ensures { nodes.new ≡ without_at nodes.old c i }
{
    let c = c as usize;
    if c < nodes.len() {
        let node = &mut nodes[c];
        node.remove(i);
    }
}

/// Says whether a thread waits.
pub fn set_waits(threads: &mut [ThreadState], t: u32, waits: bool)
    ensures { threads.new ≡ waiting threads.old t waits }
{
    let t = t as usize;
    if t < threads.len() {
        let thread = threads[t];
        threads[t] = ThreadState { waits, ..thread };
    }
}

/// Says which reply a thread owes.
pub fn set_pending(threads: &mut [ThreadState], t: u32, pending: Option<Pending>)
    ensures { threads.new ≡ with_pending threads.old t pending }
{
    let t = t as usize;
    if t < threads.len() {
        let thread = threads[t];
        threads[t] = ThreadState { pending, ..thread };
    }
}

/// Gives a thread another root.
pub fn set_root(threads: &mut [ThreadState], t: u32, root: u32)
    ensures { threads.new ≡ with_root threads.old t root }
{
    let t = t as usize;
    if t < threads.len() {
        let thread = threads[t];
        threads[t] = ThreadState {
            root: Some(root),
            ..thread
        };
    }
}

/// Gives a thread another space.
pub fn set_space(threads: &mut [ThreadState], t: u32, space: u32)
    ensures { threads.new ≡ with_space threads.old t space }
{
    let t = t as usize;
    if t < threads.len() {
        let thread = threads[t];
        threads[t] = ThreadState {
            space: Some(space),
            ..thread
        };
    }
}

/// Binds an interrupt.
pub fn set_irq(irqs: &mut [Option<u32>], d: u32, notification: u32)
    ensures { irqs.new ≡ slice_set irqs.old d (Some notification) }
{
    let d = d as usize;
    if d < irqs.len() {
        irqs[d] = Some(notification);
    }
}
