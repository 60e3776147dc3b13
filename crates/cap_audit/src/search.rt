//! One pair is looked at after the other, until there is none left.

ghost use Rattle.cap_audit.specs.Covering.{AreAlike, AreHubs, AreRoots, Covers, CoversPair, GoesOn, IsFoundAt, IsSearch, Links};
ghost use Rattle.cap_audit.specs.Search.{held_by, HoldsAt, IsFound};
ghost use Rattle.cap_audit.specs.Spread.{HasRoot, IsClosed};
ghost use Rattle.cap_audit.specs.Ways.{IsWeb};
ghost use Rattle.cap_model.specs.Kept.{IsKept};
ghost use Rattle.cap_model.specs.Kinds.{is_at};
ghost use Rattle.cap_model.specs.declared.kind.Kind.TheVariants as kinds;
ghost use Rattle.std.specs.List.{Contains};
ghost use Rattle.std.specs.Prelude.{◌≡◌, ◌<◌, ◌+◌, true, None, length, slice_index_or, IfOk, OnOk};

use crate::begin::{begin, roots};
use crate::found::{Course, Findings, Pair, Way};
use crate::hubs::{Hubs, Member};
use crate::ways::{Net, Web, go_along};
use cam_base::Made;
use cap_model::{Kind, Spec};
use std::alloc::Global;

/// Connects a root with the CNode that it has a capability to, there and back.
fn link(web: &mut Web, spec: &Spec, member: Member) -> Made<()>
    requires web { IsWeb spec.now web.old }
    requires root { HasRoot spec.now member.thread member.node }
    requires at { HoldsAt web.old.findings member.node member.number member.cap }
    requires is { is_at spec.now kinds.CNode member.cap.object ≡ true }
    ensures { OnOk result (Links spec.now web.old member.node member.cap.object web.new) }
{
    if web.net.are_joined(member.node, member.cap.object) {
        return Ok(());
    }
    let there = Way {
        to: member.cap.object,
        course: Course::Put {
            t: member.thread,
            i: member.number,
        },
    };
    web.connect(spec, member.node, there)?;
    let back = Way {
        to: member.node,
        course: Course::Take {
            t: member.thread,
            i: member.number,
        },
    };
    web.connect(spec, member.cap.object, back)?;
    web.net.join(member.node, member.cap.object);
    Ok(())
}

/// Does what the rules ask for because a root has this capability.
fn cover_cap(web: &mut Web, hubs: &mut Hubs, spec: &Spec, member: Member) -> Made<()>
    requires web { IsWeb spec.now web.old }
    requires hubs { AreHubs spec.now web.old hubs.old }
    requires root { HasRoot spec.now member.thread member.node }
    requires at { HoldsAt web.old.findings member.node member.number member.cap }
    ensures { OnOk result (Covers spec.now web.old hubs.old member.node member.cap web.new hubs.new) }
{
    if is_kind(spec, member.cap.object, Kind::CNode) {
        link(web, spec, member)?;
        return Ok(());
    }
    if is_kind(spec, member.cap.object, Kind::Endpoint) {
        hubs.attend(web, spec, member)?;
        return Ok(());
    }
    Ok(())
}

/// Whether an object is of a kind.
pub fn is_kind(spec: &Spec, object: u32, kind: Kind) -> bool
    ensures { result ≡ is_at spec.now kind object }
{
    match spec.kind(object) {
        Some(here) => here.is(kind),
        None => false,
    }
}

/// The thread whose root the CNode is, if it is one's.
pub(crate) fn thread_of(roots: &[Option<u32>], c: u32) -> Option<u32>
    ensures { result ≡ slice_index_or roots.now c None }
{
    match roots.get(c as usize) {
        Some(thread) => *thread,
        None => None,
    }
}

/// Does what the rules ask for because of this pair.
fn cover(web: &mut Web, hubs: &mut Hubs, spec: &Spec, roots: &[Option<u32>], pair: Pair) -> Made<()>
    requires web { IsWeb spec.now web.old }
    requires hubs { AreHubs spec.now web.old hubs.old }
    requires roots { AreRoots spec.now roots.now }
    requires held { Contains (held_by web.old.findings pair.node) pair.held }
    ensures { OnOk result (CoversPair spec.now web.old hubs.old pair web.new hubs.new) }
{
    let thread = match thread_of(roots, pair.node) {
        Some(thread) => thread,
        None => return Ok(()),
    };
    let cap = match web.findings.value(pair.held.value) {
        Some(cap) => cap,
        None => return Ok(()),
    };
    let member = Member {
        node: pair.node,
        thread,
        number: pair.held.number,
        cap,
    };
    cover_cap(web, hubs, spec, member)?;
    Ok(())
}

/// Looks at the pair at a place of the queue.
fn look(
    web: &mut Web,
    hubs: &mut Hubs,
    spec: &Spec,
    roots: &[Option<u32>],
    place: usize,
) -> Made<()>
    requires search { IsSearch spec.now web.old hubs.old place }
    requires inside { place < length web.old.findings.queue }
    requires roots { AreRoots spec.now roots.now }
    ensures { OnOk result (GoesOn spec.now web.old (place + 1) web.new hubs.new) }
{
    let pair = web.findings.pair(place);
    let ways = web.net.ways(pair.node);
    go_along(&mut web.findings, spec, pair.node, ways, pair.held)?;
    cover(web, hubs, spec, roots, pair)?;
    Ok(())
}

/// Looks at all pairs, also those that are found on the way.
fn search(web: &mut Web, hubs: &mut Hubs, spec: &Spec, roots: &[Option<u32>]) -> Made<()>
    requires search { IsSearch spec.now web.old hubs.old 0 }
    requires roots { AreRoots spec.now roots.now }
    ensures { OnOk result (GoesOn spec.now web.old (length web.new.findings.queue) web.new hubs.new) }
{
    let mut done = 0;
    while done < web.findings.count() {
        look(web, hubs, spec, roots, done)?;
        done += 1;
    }
    Ok(())
}

/// What can spread, with steps that bring it about; and the class of each object: those of one class have the same.
#[derive(Drop)]
pub struct Classed {
    pub findings: Findings,
    pub classes: Vec<u32>,
}

/// What can spread, by the rules of `specs/Spread`. Takes time by what is found: each value once along each way.
pub fn spread(alloc: Global, spec: &Spec) -> Made<Classed>
    requires { IsKept spec.now }
    ensures found { IfOk result (λ s. IsFound spec.now s.findings) }
    ensures closed { IfOk result (λ s. IsClosed spec.now (IsFoundAt s.findings)) }
    ensures alike { IfOk result (λ s. AreAlike spec.now s.findings s.classes.items) }
{
    let n = spec.entries.len();
    let findings = begin(alloc, spec)?;
    let net = Net::new(alloc, n)?;
    let mut web = Web {
        alloc,
        findings,
        net,
    };
    let mut hubs = Hubs::new(alloc, n)?;
    let roots = roots(alloc, spec)?;
    search(&mut web, &mut hubs, spec, roots.as_slice())?;
    let Web {
        alloc: _,
        findings,
        net,
    } = web;
    Ok(Classed {
        findings,
        classes: net.into_classes(),
    })
}
