//! What is decided of systems that are read: `specs/Decisions.antt`.

ghost use Rattle.boot_plan.specs.Regions.{are_regions};
ghost use Rattle.cap_model.specs.Kept.{IsKept};
ghost use Rattle.std.specs.Prelude.{◌≡◌, ◌≤◌, length, true};
ghost use Rattle.text_commands.specs.Decisions.{IsAudit, IsCertificateOf, IsPlan};

use crate::fault::Found;
use crate::hindered::{refuse_audit, refuse_close, refuse_plan};
use crate::{KeptSpec, Outcome};
use boot_plan::{Untyped, plan};
use cap_audit::audit;
use cap_model::{Labels, Spec};
use least_cert::close_cert;
use policy_text::Names;
use std::alloc::Global;

/// The edges that runs of a system reach, with steps that show each, or the refusal, told of the capDL's file.
pub fn audit_system(alloc: Global, cdl: &str, spec: Spec, labels: &Labels, names: Names) -> Found
    requires kept { IsKept spec }
    requires labelled { length labels.now.by_object ≡ length spec.entries }
    ensures { IsAudit cdl.now spec labels.now.by_object names result }
{
    match audit(alloc, &spec, labels) {
        Ok(report) => {
            // A look at the table shows that it is sorted.
            let _count = report.edges.len();
            Ok(Outcome::Audited {
                report,
                spec,
                names,
            })
        }
        Err(refusal) => Err(refuse_audit(alloc, cdl, &spec, refusal)),
    }
}

/// The least certificate of a system, or the refusal, told of the capDL's file.
pub fn certify_system(alloc: Global, cdl: &str, spec: &Spec, labels: &Labels) -> Found
    requires { length labels.now.by_object ≡ length spec.now.entries }
    ensures { IsCertificateOf cdl.now spec.now labels.now.by_object result }
{
    match close_cert(alloc, spec, labels) {
        Ok(cert) => {
            // A look at the table shows that it is sorted.
            let _count = cert.len();
            Ok(Outcome::Certified { cert })
        }
        Err(error) => Err(refuse_close(alloc, cdl, error)),
    }
}

/// Places of the objects of a system in regions, or the first refusal, told of the capDL's file or of the regions'.
pub fn plan_system(
    alloc: Global,
    cdl: &str,
    untypeds: &str,
    spec: Spec,
    regions: &[Untyped],
) -> Found
    requires kept { IsKept spec }
    requires few { length regions.now ≤ 4096 }
    requires sound { are_regions regions.now ≡ true }
    ensures { IsPlan cdl.now untypeds.now spec regions.now result }
{
    match plan(alloc, &spec, regions) {
        Ok(plan) => Ok(Outcome::Planned {
            plan,
            spec: KeptSpec::of(spec),
        }),
        Err(refusal) => Err(refuse_plan(alloc, cdl, untypeds, &spec, refusal)),
    }
}
