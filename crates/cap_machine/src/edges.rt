//! The authorities of a state.

ghost use Rattle.cap_machine.specs.Sources.{OfLink, OfOption};
ghost use Rattle.cap_model.specs.Adds.{Adds};
ghost use Rattle.cap_model.specs.Tables.{Has};
ghost use Rattle.authorities.specs.declared.authority.Authority.{Authority};
ghost use Rattle.cap_machine.specs.StateSources.{OfContent, OfNodes, OfThread, OfThreads, OfIrqs, OfAdded, OfMapped, OfFixed, OfSpecParts, OfState};
ghost use Rattle.cap_model.specs.Auth.{Auth};
ghost use Rattle.cap_model.specs.FitsSpec.{FitsSpec};
ghost use Rattle.std.specs.Prelude.{◌≡◌, ◌↔◌, ℕ, length, IfOk};

use crate::node::Node;
use crate::state::State;
use crate::{with_cap, with_each_slot, with_link, with_optional_cap, with_optional_link};
use cam_base::Made;
use cap_model::{
    Authority, Content, Edge, EdgeTable, Labels, Mapped, Object, Pending, Spec, ThreadState,
    frame_conferred, with_set,
};
use std::alloc::Global;

/// The table of the authorities of a state under a labelling.
pub fn authorities(alloc: Global, spec: &Spec, state: &State, labels: &Labels) -> Made<EdgeTable>
    requires fits { FitsSpec spec.now state.now.state }
    requires labelled { length labels.now.by_object ≡ length spec.now.entries }
    ensures { IfOk result (λ table. (l : ℕ) (a : Authority) (m : ℕ) → (Has table l a m)
        ↔ Auth spec.now labels.now.by_object state.now.state l a m) }
{
    let edges = state.with_edges(Vec::new(alloc), spec, labels)?;
    let table = EdgeTable::from_list(alloc, edges.as_slice())?;
    Ok(table)
}

/// The edges and those of what a CNode has at a number.
pub fn with_content(
    edges: Vec<Edge>,
    spec: &Spec,
    labels: &Labels,
    from: u32,
    content: &Content,
) -> Made<Vec<Edge>>
    ensures { IfOk result (λ new. Adds (OfContent spec.now labels.now.by_object from content.now) edges.items new.items) }
{
    match content {
        Content::Capability(cap) => with_cap(edges, spec, labels, from, cap),
        Content::SavedReply(reply) => {
            with_link(edges, labels, from, Authority::Reply, reply.caller)
        }
    }
}

/// The edges and those of CNodes.
pub fn with_nodes(edges: Vec<Edge>, spec: &Spec, labels: &Labels, nodes: &[Node]) -> Made<Vec<Edge>>
    requires { length labels.now.by_object ≡ length nodes.now }
    ensures { IfOk result (λ new. Adds (OfNodes spec.now labels.now.by_object nodes.now) edges.items new.items) }
{
    let mut edges = edges;
    let from = labels.by_object.as_slice();
    for place in 0..nodes.len() {
        edges = nodes[place].with_edges(edges, spec, labels, from[place])?;
    }
    Ok(edges)
}

fn with_pending(
    edges: Vec<Edge>,
    labels: &Labels,
    from: u32,
    pending: Option<Pending>,
) -> Made<Vec<Edge>>
    ensures { IfOk result (λ new. Adds (OfOption (λ reply. OfLink labels.now.by_object from Authority.Reply reply.caller)
        pending) edges.items new.items) }
{
    match pending {
        Some(reply) => with_link(edges, labels, from, Authority::Reply, reply.caller),
        None => Ok(edges),
    }
}

fn with_thread(
    edges: Vec<Edge>,
    labels: &Labels,
    from: u32,
    thread: &ThreadState,
) -> Made<Vec<Edge>>
    ensures { IfOk result (λ new. Adds (OfThread labels.now.by_object from thread.now) edges.items new.items) }
{
    let edges = with_optional_link(edges, labels, from, Authority::Control, thread.root)?;
    let edges = with_optional_link(edges, labels, from, Authority::Control, thread.space)?;
    let edges = with_pending(edges, labels, from, thread.pending)?;
    Ok(edges)
}

/// The edges and those of threads.
pub fn with_threads(edges: Vec<Edge>, labels: &Labels, threads: &[ThreadState]) -> Made<Vec<Edge>>
    requires { length labels.now.by_object ≡ length threads.now }
    ensures { IfOk result (λ new. Adds (OfThreads labels.now.by_object threads.now) edges.items new.items) }
{
    let mut edges = edges;
    let from = labels.by_object.as_slice();
    for place in 0..threads.len() {
        edges = with_thread(edges, labels, from[place], &threads[place])?;
    }
    Ok(edges)
}

/// The edges and those of interrupts.
pub fn with_irqs(edges: Vec<Edge>, labels: &Labels, irqs: &[Option<u32>]) -> Made<Vec<Edge>>
    requires { length labels.now.by_object ≡ length irqs.now }
    ensures { IfOk result (λ new. Adds (OfIrqs labels.now.by_object irqs.now) edges.items new.items) }
{
    let mut edges = edges;
    let from = labels.by_object.as_slice();
    for place in 0..irqs.len() {
        let bound = irqs[place];
        edges = with_optional_link(edges, labels, from[place], Authority::AsyncSend, bound)?;
    }
    Ok(edges)
}

fn with_added(edges: Vec<Edge>, labels: &Labels, added: &Mapped) -> Made<Vec<Edge>>
    ensures { IfOk result (λ new. Adds (OfAdded labels.now.by_object added.now) edges.items new.items) }
{
    let from = labels.of(added.space);
    let to = labels.of(added.frame);
    with_set(edges, from, frame_conferred(added.rights), to)
}

/// The edges and those of frames that were added to spaces.
pub fn with_mapped(edges: Vec<Edge>, labels: &Labels, mapped: &[Mapped]) -> Made<Vec<Edge>>
    ensures { IfOk result (λ new. Adds (OfMapped labels.now.by_object mapped.now) edges.items new.items) }
{
    let mut edges = edges;
    for added in mapped {
        edges = with_added(edges, labels, added)?;
    }
    Ok(edges)
}

fn with_fixed(
    edges: Vec<Edge>,
    spec: &Spec,
    labels: &Labels,
    from: u32,
    object: &Object,
) -> Made<Vec<Edge>>
    ensures { IfOk result (λ new. Adds (OfFixed spec.now labels.now.by_object from object.now) edges.items new.items) }
{
    match object {
        Object::Thread(tcb) => { with_optional_cap(edges, spec, labels, from, &tcb.get().buffer) }
        Object::Pages { slots, .. } => with_each_slot(edges, spec, labels, from, slots.as_slice()),
        _ => Ok(edges),
    }
}

/// The edges and those of what stays as in the spec.
pub fn with_spec_parts(edges: Vec<Edge>, spec: &Spec, labels: &Labels) -> Made<Vec<Edge>>
    requires { length labels.now.by_object ≡ length spec.now.entries }
    ensures { IfOk result (λ new. Adds (OfSpecParts spec.now labels.now.by_object) edges.items new.items) }
{
    let mut edges = edges;
    let entries = spec.entries.as_slice();
    let from = labels.by_object.as_slice();
    for place in 0..entries.len() {
        edges = with_fixed(edges, spec, labels, from[place], &entries[place].object)?;
    }
    Ok(edges)
}
