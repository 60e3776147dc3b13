//! Changes of a whole state.

ghost use Rattle.cap_machine.specs.Effects.{called_threads, replied_threads, waiting, without_at};
ghost use Rattle.cap_machine.specs.Perform.{RoomFor, Same, TakesMemory, Turned, parts};
ghost use Rattle.std.specs.Prelude.{◌≡◌, None, OnOk, OnErr, IsOk, false};

use crate::change::Change;
use crate::edit::{
    add_content, remove_content, set_irq, set_pending, set_root, set_space, set_waits,
};
use crate::node::Node;
use cam_base::Made;
use cap_model::{Content, Mapped, Pending, ThreadState};

fn call(threads: &mut [ThreadState], t: u32, u: u32, grants: bool)
    ensures { threads.new ≡ called_threads threads.old t u grants }
{
    set_pending(threads, u, Some(Pending { caller: t, grants }));
    set_waits(threads, t, true);
}

fn reply(threads: &mut [ThreadState], t: u32, caller: u32)
    ensures { threads.new ≡ replied_threads threads.old t caller }
{
    set_pending(threads, t, None);
    set_waits(threads, caller, false);
}

fn release(nodes: &mut [Node], threads: &mut [ThreadState], c: u32, number: u64, caller: u32)
    ensures nodes { nodes.new ≡ without_at nodes.old c number }
    ensures threads { threads.new ≡ waiting threads.old caller false }
{
    remove_content(nodes, c, number);
    set_waits(threads, caller, false);
}

/// Makes the change, or, without memory, leaves all as it was.
pub fn perform(
    nodes: &mut Vec<Node>,
    threads: &mut Vec<ThreadState>,
    irqs: &mut Vec<Option<u32>>,
    mapped: &mut Vec<Mapped>,
    change: Change,
) -> Made<()>
    requires { RoomFor nodes.old.items change }
    ensures ok { OnOk result (Turned change (parts nodes.old.items threads.old.items irqs.old.items mapped.old.items)
        (parts nodes.new.items threads.new.items irqs.new.items mapped.new.items)) }
    ensures err { OnErr result (Same (parts nodes.old.items threads.old.items irqs.old.items mapped.old.items)
        (parts nodes.new.items threads.new.items irqs.new.items mapped.new.items)) }
    ensures memory { (TakesMemory change → ⊥) → IsOk result }
{
    match change {
        Change::Add { node, cap } => add_content(nodes, node, Content::Capability(cap))?,
        Change::Call { t, u, grants } => call(threads, t, u, grants),
        Change::Reply { t, caller } => reply(threads, t, caller),
        Change::ReplyAdd {
            t,
            caller,
            node,
            cap,
        } => {
            add_content(nodes, node, Content::Capability(cap))?;
            reply(threads, t, caller);
        }
        Change::Root { thread, node } => set_root(threads, thread, node),
        Change::Space { thread, root } => set_space(threads, thread, root),
        Change::Map { added } => mapped.push(added)?,
        Change::Bind { irq, notification } => set_irq(irqs, irq, notification),
        Change::Drop { node, number } => remove_content(nodes, node, number),
        Change::Save { t, node, pending } => {
            add_content(nodes, node, Content::SavedReply(pending))?;
            set_pending(threads, t, None);
        }
        Change::Release {
            node,
            number,
            caller,
        } => {
            release(nodes, threads, node, number, caller);
        }
        Change::ReleaseAdd {
            node,
            number,
            caller,
            to,
            cap,
        } => {
            add_content(nodes, to, Content::Capability(cap))?;
            release(nodes, threads, node, number, caller);
        }
    }
    Ok(())
}
