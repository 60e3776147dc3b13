//! The first rule: the edges of the boot state.

ghost use Rattle.authorities.specs.AuthoritySets.{set_has};
ghost use Rattle.cap_model.specs.Tables.{has, Finds};
ghost use Rattle.authorities.specs.declared.authority.Authority.{Authority};
ghost use Rattle.cap_model.specs.Confers.{confers};
ghost use Rattle.cert_check.specs.Parts.{CapLack, SlotsLack, LinkLack, ObjectLack, ThreadLack, BufferLack, LesserEdge};
ghost use Rattle.cert_check.specs.Violations.{BreaksBoot};
ghost use Rattle.std.specs.Prelude.{◌≡◌, ◌<◌, ℕ, length, false};

use cap_model::{
    Authority, AuthoritySet, Cap, Edge, EdgeTable, Labels, Object, Spec, Tcb, conferred,
};

/// The least edge of the boot state that the certificate lacks; of structural edges those between different labels
/// count.
pub fn find_unheld(spec: &Spec, labels: &Labels, cert: &EdgeTable) -> Option<Edge>
    requires { length labels.now.by_object ≡ length spec.now.entries }
    ensures { Finds (BreaksBoot spec.now labels.now.by_object cert.now) result }
{
    let entries = spec.entries.as_slice();
    let from = labels.by_object.as_slice();
    let mut best: Option<Edge> = None;
    for place in 0..entries.len() {
        let lack = object_lack(spec, labels, cert, from[place], &entries[place].object);
        best = lesser_edge(best, lack);
    }
    best
}

/// The least edge that the rule asks for because of an object and the certificate lacks.
fn object_lack(
    spec: &Spec,
    labels: &Labels,
    cert: &EdgeTable,
    from: u32,
    object: &Object,
) -> Option<Edge>
    ensures { Finds (ObjectLack spec.now labels.now.by_object cert.now from object.now) result }
{
    match object {
        Object::CNode { slots, .. } => slots_lack(spec, labels, cert, true, from, slots.as_slice()),
        Object::Pages { slots, .. } => {
            slots_lack(spec, labels, cert, false, from, slots.as_slice())
        }
        Object::Thread(tcb) => thread_lack(spec, labels, cert, from, tcb.get()),
        Object::Irq { notification } => {
            link_lack(labels, cert, from, Authority::AsyncSend, *notification)
        }
        _ => None,
    }
}

fn thread_lack(spec: &Spec, labels: &Labels, cert: &EdgeTable, from: u32, tcb: &Tcb) -> Option<Edge>
    ensures { Finds (ThreadLack spec.now labels.now.by_object cert.now from tcb.now) result }
{
    let root = link_lack(labels, cert, from, Authority::Control, tcb.cspace);
    let space = link_lack(labels, cert, from, Authority::Control, tcb.vspace);
    let buffer = buffer_lack(spec, labels, cert, from, tcb.buffer);
    lesser_edge(root, lesser_edge(space, buffer))
}

fn buffer_lack(
    spec: &Spec,
    labels: &Labels,
    cert: &EdgeTable,
    from: u32,
    buffer: Option<Cap>,
) -> Option<Edge>
    ensures { Finds (BufferLack spec.now labels.now.by_object cert.now from buffer) result }
{
    match buffer {
        Some(cap) => cap_lack(spec, cert, false, from, labels.of(cap.object), &cap),
        None => None,
    }
}

/// The edge to what a link names, where it goes to another label and the certificate lacks it.
fn link_lack(
    labels: &Labels,
    cert: &EdgeTable,
    from: u32,
    authority: Authority,
    link: Option<u32>,
) -> Option<Edge>
    ensures { Finds (LinkLack labels.now.by_object cert.now from authority link) result }
{
    match link {
        None => None,
        Some(object) => {
            let edge = Edge {
                from,
                authority,
                to: labels.of(object),
            };
            if edge.from != edge.to && !cert.contains(&edge) {
                Some(edge)
            } else {
                None
            }
        }
    }
}

/// The least edge that one of the capabilities confers and the certificate lacks.
fn slots_lack(
    spec: &Spec,
    labels: &Labels,
    cert: &EdgeTable,
    within: bool,
    from: u32,
    slots: &[(u64, Cap)],
) -> Option<Edge>
    ensures { Finds (SlotsLack spec.now labels.now.by_object cert.now within from slots.now (length slots.now)) result }
{
    let mut best: Option<Edge> = None;
    for slot in slots {
        let to = labels.of(slot.1.object);
        best = lesser_edge(best, cap_lack(spec, cert, within, from, to, &slot.1));
    }
    best
}

/// The least edge that the capability confers and the certificate lacks. An edge within a label counts only if `within`.
fn cap_lack(
    spec: &Spec,
    cert: &EdgeTable,
    within: bool,
    from: u32,
    to: u32,
    cap: &Cap,
) -> Option<Edge>
    ensures { Finds (CapLack spec.now cert.now within from to cap.now) result }
{
    if !within && from == to {
        return None;
    }
    let set = conferred_any(spec, cap);
    for n in 0..12u8 {
        if let Some(authority) = Authority::of_number(n) {
            let edge = Edge {
                from,
                authority,
                to,
            };
            if set.has(authority) && !cert.contains(&edge) {
                return Some(edge);
            }
        }
    }
    None
}

/// The authorities that a capability confers, none where its object isn't in the spec.
fn conferred_any(spec: &Spec, cap: &Cap) -> AuthoritySet
    ensures { (a : Authority) → set_has result.bits a ≡ confers spec.now cap.now a }
{
    if (cap.object as usize) < spec.entries.len() {
        conferred(spec, cap)
    } else {
        AuthoritySet::empty()
    }
}

/// The lesser of two edges, the former where neither is less.
fn lesser_edge(best: Option<Edge>, found: Option<Edge>) -> Option<Edge>
    ensures { LesserEdge best found result }
{
    match (best, found) {
        (None, _) => found,
        (Some(_), None) => best,
        (Some(old), Some(new)) => { if new.is_before(&old) { found } else { best } }
    }
}
