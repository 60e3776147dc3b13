//! The edges of the boot state.

ghost use Rattle.cap_machine.specs.Sources.{OfObject, OfSpec, OfTcb};
ghost use Rattle.cap_model.specs.Adds.{Adds};
ghost use Rattle.cap_model.specs.Tables.{Has};
ghost use Rattle.authorities.specs.declared.authority.Authority.{Authority};
ghost use Rattle.cap_model.specs.Auth.{Auth};
ghost use Rattle.cap_model.specs.State.{boot};
ghost use Rattle.std.specs.Prelude.{◌≡◌, ◌≤◌, ◌^◌, ◌<◌, ◌↔◌, ℕ, length, IfOk};

use crate::collect::{with_each_slot, with_optional_cap, with_optional_link};
use cam_base::Made;
use cap_model::{Authority, Edge, EdgeTable, Labels, Object, Spec, Tcb};
use std::alloc::Global;

/// The edges of the boot state under a labelling, object by object; an edge may stand several times.
fn edges_at_boot(alloc: Global, spec: &Spec, labels: &Labels) -> Made<Vec<Edge>>
    requires { length labels.now.by_object ≡ length spec.now.entries }
    ensures { IfOk result (λ edges. (l : ℕ) (a : Authority) (m : ℕ) → (Has edges.items l a m)
        ↔ Auth spec.now labels.now.by_object (boot spec.now) l a m) }
{
    let edges = with_each_object(Vec::new(alloc), spec, labels)?;
    Ok(edges)
}

/// The table of the edges of the boot state under a labelling.
pub fn direct(alloc: Global, spec: &Spec, labels: &Labels) -> Made<EdgeTable>
    requires { length labels.now.by_object ≡ length spec.now.entries }
    ensures { IfOk result (λ table. (l : ℕ) (a : Authority) (m : ℕ) → (Has table l a m)
        ↔ Auth spec.now labels.now.by_object (boot spec.now) l a m) }
{
    let edges = edges_at_boot(alloc, spec, labels)?;
    let table = EdgeTable::from_list(alloc, edges.as_slice())?;
    Ok(table)
}

fn with_each_object(edges: Vec<Edge>, spec: &Spec, labels: &Labels) -> Made<Vec<Edge>>
    requires { length labels.now.by_object ≡ length spec.now.entries }
    ensures { IfOk result (λ new. Adds (OfSpec spec.now labels.now.by_object) edges.items new.items) }
{
    let mut edges = edges;
    let entries = spec.entries.as_slice();
    let from = labels.by_object.as_slice();
    for place in 0..entries.len() {
        edges = with_object(edges, spec, labels, from[place], &entries[place].object)?;
    }
    Ok(edges)
}

/// The edges and those that an object with this label is the source of at boot.
pub fn with_object(
    edges: Vec<Edge>,
    spec: &Spec,
    labels: &Labels,
    from: u32,
    object: &Object,
) -> Made<Vec<Edge>>
    ensures { IfOk result (λ new. Adds (OfObject spec.now labels.now.by_object from object.now) edges.items new.items) }
{
    match object {
        Object::CNode { slots, .. } => with_each_slot(edges, spec, labels, from, slots.as_slice()),
        Object::Pages { slots, .. } => with_each_slot(edges, spec, labels, from, slots.as_slice()),
        Object::Thread(tcb) => with_tcb(edges, spec, labels, from, tcb.get()),
        Object::Irq { notification } => {
            with_optional_link(edges, labels, from, Authority::AsyncSend, *notification)
        }
        _ => Ok(edges),
    }
}

fn with_tcb(edges: Vec<Edge>, spec: &Spec, labels: &Labels, from: u32, tcb: &Tcb) -> Made<Vec<Edge>>
    ensures { IfOk result (λ new. Adds (OfTcb spec.now labels.now.by_object from tcb.now) edges.items new.items) }
{
    let edges = with_optional_link(edges, labels, from, Authority::Control, tcb.cspace)?;
    let edges = with_optional_link(edges, labels, from, Authority::Control, tcb.vspace)?;
    let edges = with_optional_cap(edges, spec, labels, from, &tcb.buffer)?;
    Ok(edges)
}
