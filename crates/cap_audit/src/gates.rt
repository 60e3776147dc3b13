//! Who may call at each endpoint, and which threads have which root.

ghost use Rattle.cap_audit.specs.Gains.{IsAll};
ghost use Rattle.cap_audit.specs.Gates.{AreGates, AreRosters, caller_of, enrolled, gated};
ghost use Rattle.cap_model.specs.Kept.{IsKept};
ghost use Rattle.std.specs.Prelude.{◌≡◌, [], IfOk, OnOk, length, replicate};

use crate::begin::root_of;
use crate::kinds::stand_in;
use crate::picks::{Pick, Wanted, picked};
use crate::rows::Rows;
use crate::{Findings, Pair};
use cam_base::Made;
use cap_model::Spec;
use std::alloc::Global;

/// A number in a CNode.
#[derive(Clone, Copy)]
pub struct Place {
    pub node: u32,
    pub number: u64,
}

/// A thread with its root, and the number at which a capability stands there.
#[derive(Clone, Copy)]
pub struct Party {
    pub thread: u32,
    pub node: u32,
    pub number: u64,
}

fn enrol(rosters: &mut Rows<u32>, root: Option<u32>, t: u32) -> Made<()>
    ensures { OnOk result (rosters.new ≡ enrolled rosters.old root t) }
{
    match root {
        Some(c) => rosters.push(c, t),
        None => Ok(()),
    }
}

fn enrol_all(rosters: &mut Rows<u32>, spec: &Spec) -> Made<()>
    requires kept { IsKept spec.now }
    requires none { rosters.old ≡ replicate (length spec.now.entries) [] }
    ensures { OnOk result (AreRosters spec.now rosters.new (length spec.now.entries)) }
{
    let entries = spec.entries.as_slice();
    for t in 0..entries.len() {
        enrol(rosters, root_of(&entries[t].object), t as u32)?;
    }
    Ok(())
}

/// The threads by their roots.
pub fn rosters(alloc: Global, spec: &Spec) -> Made<Rows<u32>>
    requires { IsKept spec.now }
    ensures { IfOk result (λ rosters. AreRosters spec.now rosters (length spec.now.entries)) }
{
    let mut rosters = Rows::new(alloc, spec.entries.len())?;
    enrol_all(&mut rosters, spec)?;
    Ok(rosters)
}

fn let_in(gates: &mut Rows<Pair>, door: Pair, pick: Option<Pick>) -> Made<()>
    ensures { OnOk result (gates.new ≡ gated gates.old door pick) }
{
    match pick {
        Some(pick) => gates.push(pick.cap.object, door),
        None => Ok(()),
    }
}

/// The capability of a pair by which it may call, where its CNode stands for itself.
fn caller(spec: &Spec, findings: &Findings, heads: &[u32], pair: Pair) -> Option<Pick>
    ensures { result ≡ caller_of spec.now findings.now heads.now pair }
{
    if stand_in(heads, pair.node) == pair.node {
        picked(spec, findings, Wanted::Caller, pair.held)
    } else {
        None
    }
}

fn let_all_in(gates: &mut Rows<Pair>, spec: &Spec, findings: &Findings, heads: &[u32]) -> Made<()>
    requires all { IsAll spec.now findings.now }
    requires none { gates.old ≡ replicate (length spec.now.entries) [] }
    ensures { OnOk result (AreGates spec.now findings.now heads.now gates.new (length findings.now.queue)) }
{
    for place in 0..findings.count() {
        let pair = findings.pair(place);
        let_in(gates, pair, caller(spec, findings, heads, pair))?;
    }
    Ok(())
}

/// By endpoints, those that stand for themselves and may call there.
pub fn gates(alloc: Global, spec: &Spec, findings: &Findings, heads: &[u32]) -> Made<Rows<Pair>>
    requires { IsAll spec.now findings.now }
    ensures { IfOk result (λ gates. AreGates spec.now findings.now heads.now gates (length findings.now.queue)) }
{
    let mut gates = Rows::new(alloc, spec.entries.len())?;
    let_all_in(&mut gates, spec, findings, heads)?;
    Ok(gates)
}

/// Threads by their roots, objects by who stands for them, and who may call by endpoints.
#[derive(Drop)]
pub struct Company {
    pub rosters: Rows<u32>,
    pub members: Rows<u32>,
    pub gates: Rows<Pair>,
}
