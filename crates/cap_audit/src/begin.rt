//! Where a search begins: with the capabilities of all slots.

ghost use Rattle.cap_audit.specs.Covering.{AreRoots, HasSlots};
ghost use Rattle.cap_audit.specs.Search.{IsFound};
ghost use Rattle.cap_audit.specs.Spread.{root_of, slots_of, slots_at};
ghost use Rattle.cap_audit.specs.Start.{rooted, HasValue, Marks, Starts};
ghost use Rattle.cap_model.specs.Kept.{IsKept};
ghost use Rattle.std.specs.Prelude.{◌≡◌, ◌<◌, ◌+◌, Some, None, length, replicate, IfOk, OnOk};

use crate::found::{Findings, Held};
use cam_base::Made;
use cap_model::{Cap, Object, Spec};
use std::alloc::Global;
use std::collections::BTreeMap;

/// The root of a thread, none of another object.
pub(crate) fn root_of(object: &Object) -> Option<u32>
    ensures { result ≡ root_of (Some object.now) }
{
    match object {
        Object::Thread(tcb) => tcb.get().cspace,
        _ => None,
    }
}

fn put_root(roots: &mut [Option<u32>], root: Option<u32>, t: u32)
    ensures { roots.new ≡ rooted roots.old root t }
{
    if let Some(c) = root {
        let c = c as usize;
        if c < roots.len() {
            roots[c] = Some(t);
        }
    }
}

fn no_roots(alloc: Global, n: usize) -> Made<Vec<Option<u32>>>
    ensures { IfOk result (λ roots. roots.items ≡ replicate n None) }
{
    let mut roots = Vec::new(alloc);
    for _ in 0..n {
        roots.push(None)?;
    }
    Ok(roots)
}

fn put_roots(roots: &mut [Option<u32>], spec: &Spec)
    requires kept { IsKept spec.now }
    requires none { roots.old ≡ replicate (length spec.now.entries) None }
    ensures { AreRoots spec.now roots.new }
{
    let entries = spec.entries.as_slice();
    for t in 0..entries.len() {
        put_root(roots, root_of(&entries[t].object), t as u32);
    }
}

/// Each root CNode with a thread whose root it is.
pub fn roots(alloc: Global, spec: &Spec) -> Made<Vec<Option<u32>>>
    requires { IsKept spec.now }
    ensures { IfOk result (λ roots. AreRoots spec.now roots.items) }
{
    let mut roots = no_roots(alloc, spec.entries.len())?;
    put_roots(roots.as_mut_slice(), spec);
    Ok(roots)
}

/// The slots of a CNode, none of another object.
pub fn slots_of(object: &Object) -> &[(u64, Cap)]
    ensures { result.now ≡ slots_of (Some object.now) }
{
    match object {
        Object::CNode { slots, .. } => slots.as_slice(),
        _ => &[],
    }
}

/// A capability as a key: its object, its rights as one number, and its badge.
fn key_of(cap: Cap) -> (u32, u8, u64)
    ensures object { result.0 ≡ cap.object }
    ensures badge { result.2 ≡ cap.badge }
{
    let rights = [
        cap.rights.read,
        cap.rights.write,
        cap.rights.grant,
        cap.rights.reply,
    ];
    let mut number = 0;
    for right in rights {
        number = number << 1 | right as u8;
    }
    (cap.object, number, cap.badge)
}

/// The place of a value, behind all others where it is a new one. `places` say where equal ones may stand.
fn value_of(
    findings: &mut Findings,
    places: &mut BTreeMap<(u32, u8, u64), usize>,
    cap: Cap,
) -> Made<usize>
    ensures { IfOk result (HasValue findings.old cap findings.new) }
{
    let key = key_of(cap);
    if let Some(place) = places.get(&key) {
        if findings.has_value(*place, cap) {
            return Ok(*place);
        }
    }
    let place = findings.add_value(cap)?;
    places.insert(key, place)?;
    Ok(place)
}

fn own_slots(
    findings: &mut Findings,
    places: &mut BTreeMap<(u32, u8, u64), usize>,
    spec: &Spec,
    c: u32,
    slots: &[(u64, Cap)],
) -> Made<()>
    requires starts { Starts spec.now findings.old c 0 }
    requires slots { slots.now ≡ slots_at spec.now c }
    requires inside { c < length spec.now.entries }
    ensures { OnOk result (Starts spec.now findings.new (c + 1) 0) }
{
    for slot in slots {
        let value = value_of(findings, places, slot.1)?;
        let number = slot.0;
        findings.own(c, Held { value, number })?;
    }
    Ok(())
}

/// All capabilities of slots, those that are equal as one value.
fn own_all(alloc: Global, findings: &mut Findings, spec: &Spec) -> Made<()>
    requires kept { IsKept spec.now }
    requires starts { Starts spec.now findings.old 0 0 }
    ensures { OnOk result (Starts spec.now findings.new (length spec.now.entries) 0) }
{
    let mut places = BTreeMap::new(alloc);
    let entries = spec.entries.as_slice();
    for place in 0..entries.len() {
        let slots = slots_of(&entries[place].object);
        own_slots(findings, &mut places, spec, place as u32, slots)?;
    }
    Ok(())
}

fn mark_all(findings: &mut Findings, spec: &Spec)
    requires marks { Marks spec.now findings.old 0 }
    ensures { Marks spec.now findings.new (length findings.new.queue) }
{
    let count = findings.count();
    for place in 0..count {
        let pair = findings.pair(place);
        findings.mark(pair);
    }
}

/// What is found before the first step.
pub fn begin(alloc: Global, spec: &Spec) -> Made<Findings>
    requires { IsKept spec.now }
    ensures found { IfOk result (λ f. IsFound spec.now f) }
    ensures slots { IfOk result (λ f. HasSlots spec.now f) }
{
    let mut findings = Findings::blank(alloc, spec)?;
    own_all(alloc, &mut findings, spec)?;
    findings.open_rows(alloc, spec)?;
    mark_all(&mut findings, spec);
    Ok(findings)
}
