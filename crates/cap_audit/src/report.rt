//! The audit: a refusal, or every edge that runs reach, with steps that show each.

ghost use Rattle.cap_audit.specs.Counts.{caps_of, cnodes_of};
ghost use Rattle.cap_audit.specs.Gains.{Gains};
ghost use Rattle.cap_audit.specs.Reports.{AuditRefused, IsReport};
ghost use Rattle.cap_audit.specs.Showing.{IsBegun, OfAllCalls, OfAllDeeds, OfBoot};
ghost use Rattle.cap_model.specs.Kept.{IsKept};
ghost use Rattle.cap_audit.specs.Audited.{Audited};
ghost use Rattle.cap_audit.specs.Spread.{HoldsNoThread};
ghost use Rattle.std.specs.Prelude.{◌≡◌, ◌≤◌, ◌*◌, IfErr, IfOk, OnOk, length};

use crate::count::Counts;
use crate::kinds::Kinds;
use crate::making::{Deed, Making, Trail};
use crate::{Classed, first_thread, spread};
use cam_base::{List, Made, NoMemory};
use cap_machine::Step;
use cap_model::{EdgeTable, Labels, Spec};
use std::alloc::Global;

/// The edges between different labels that runs reach, and steps that show each.
#[derive(Drop)]
pub struct AuditReport {
    pub edges: EdgeTable,
    pub steps: List<Step>,
}

/// Why there is no report: a CNode holds a capability to a thread, first at this slot; there are so many CNodes and
/// capabilities in them that their product is above 4,000,000; or want of memory.
#[derive(Clone, Copy)]
pub enum AuditRefusal {
    HoldsTcb { cnode: u32, slot: u64 },
    Limit { cnodes: u64, caps: u64 },
    NoMemory,
}

/// Every edge between different labels that some run of the spec reaches, and a run that shows each.
pub fn audit(alloc: Global, spec: &Spec, labels: &Labels) -> Result<AuditReport, AuditRefusal>
    requires kept { IsKept spec.now }
    requires labelled { length labels.now.by_object ≡ length spec.now.entries }
    ensures report { IfOk result (λ r. IsReport spec.now labels.now.by_object r.edges r.steps) }
    ensures allowed { IfOk result (λ r. HoldsNoThread spec.now × (cnodes_of spec.now * caps_of spec.now ≤ 4000000)) }
    ensures refused { IfErr result (AuditRefused spec.now) }
{
    if let Some((cnode, slot)) = first_thread(spec) {
        return Err(AuditRefusal::HoldsTcb { cnode, slot });
    }
    let counts = Counts::of(spec);
    if counts.are_many() {
        return Err(AuditRefusal::Limit {
            cnodes: counts.cnodes,
            caps: counts.caps,
        });
    }
    match report(alloc, spec, labels) {
        Ok(report) => Ok(report),
        Err(NoMemory) => Err(AuditRefusal::NoMemory),
    }
}

fn report(alloc: Global, spec: &Spec, labels: &Labels) -> Made<AuditReport>
    requires kept { IsKept spec.now }
    requires labelled { length labels.now.by_object ≡ length spec.now.entries }
    requires none { HoldsNoThread spec.now }
    ensures { IfOk result (λ r. IsReport spec.now labels.now.by_object r.edges r.steps) }
{
    let Classed {
        findings: found,
        classes,
    } = spread(alloc, spec)?;
    let kinds = Kinds::of(alloc, spec, labels, classes.as_slice())?;
    let (findings, steps, nexts) = found.parted(alloc);
    let trail = Trail { steps, nexts };
    let making = Making::new(alloc, spec, labels, &findings, &kinds, trail);
    let report = shown(making)?;
    Ok(report)
}

/// The report in which all is shown.
fn shown(making: Making<'_>) -> Made<AuditReport>
    requires begun { IsBegun making }
    requires none { HoldsNoThread making.spec }
    ensures { IfOk result (λ r. IsReport making.entry.spec making.entry.labels r.edges r.steps) }
{
    let mut making = making;
    show(&mut making)?;
    let (edges, steps) = making.ended()?;
    Ok(AuditReport {
        edges,
        steps: List::from_vec(steps),
    })
}

fn show(making: &mut Making<'_>) -> Made<()>
    requires { IsBegun making.old }
    ensures { OnOk result (Gains (λ e. Audited making.old.spec making.old.labels e.from e.authority e.to) making.old making.new) }
{
    show_boot(making)?;
    making.hold_all()?;
    show_deeds(making)?;
    show_calls(making)?;
    Ok(())
}

/// The edges of the boot state.
fn show_boot(making: &mut Making<'_>) -> Made<()>
    requires { IsBegun making.old }
    ensures { OnOk result (Gains (OfBoot making.old.spec making.old.labels) making.old making.new) }
{
    let table = making.boot_edges()?;
    making.note_table(&table)?;
    Ok(())
}

/// The edges of maps and binds.
fn show_deeds(making: &mut Making<'_>) -> Made<()>
    requires { IsBegun making.old }
    ensures { OnOk result (Gains (OfAllDeeds making.old.spec making.old.labels making.old.found making.old.heads)
        making.old making.new) }
{
    let roots = making.roots()?;
    making.act_at_all(Deed::Map, roots.as_slice())?;
    making.act_at_all(Deed::Bind, roots.as_slice())?;
    Ok(())
}

/// The edges of calls and saved replies.
fn show_calls(making: &mut Making<'_>) -> Made<()>
    requires { IsBegun making.old }
    ensures { OnOk result (Gains (OfAllCalls making.old.spec making.old.labels) making.old making.new) }
{
    let company = making.company()?;
    let mut met = making.nobody()?;
    making.listen_all(&company, &mut met)?;
    Ok(())
}
