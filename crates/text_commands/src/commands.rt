//! The commands: inputs are read in written order, then objects are labelled, then the question is answered.

ghost use Rattle.cam_io.specs.Reading.{InAll, KeepsFiles, LearnsOnly};
ghost use Rattle.std.specs.Prelude.{[], ◌∷◌};
ghost use Rattle.text_commands.specs.Commands.{IsAudited, IsCertified, IsChecked, IsPlanned, IsRun, IsTabled};
ghost use Rattle.text_commands.specs.Inputs.{AlikeAsRead, AlikeInInputs};

use crate::Outcome;
use crate::decisions::{audit_system, certify_system, plan_system};
use crate::fault::Found;
use crate::replay::replay;
use crate::turns::{
    label_system, read_edges, read_image, read_labels, read_regions, read_run, read_system,
};
use cam_io::Files;
use cert_check::check;
use policy_text::Names;
use std::alloc::Global;

/// Whether the certificate keeps the rules for the capDL and the policy.
pub fn check_texts<F: Files>(
    alloc: Global,
    files: &mut F,
    cdl: &str,
    policy: &str,
    cert: &str,
) -> Found
    ensures kept { KeepsFiles F.told F.faults files.old files.new }
    ensures learned { LearnsOnly F.told (AlikeInInputs (cdl.now ∷ policy.now ∷ cert.now ∷ [])) files.old files.new }
    ensures checked { InAll (F.told files.new) (λ m. IsChecked m (F.faults files.old) (F.faults files.new) cdl.now policy.now
        cert.now result) }
{
    let spec = read_system(alloc, files, cdl)?;
    let allowed = read_labels(alloc, files, policy)?;
    let edges = read_edges(alloc, files, cert, &allowed)?;
    let labels = label_system(alloc, policy, &spec, &allowed)?;
    let verdict = check(&spec, &labels, &allowed.edges, &edges);
    Ok(Outcome::Checked {
        verdict,
        names: Names::of(allowed),
    })
}

/// What the steps lead to in the capDL's system.
pub fn replay_texts<F: Files>(
    alloc: Global,
    files: &mut F,
    cdl: &str,
    policy: &str,
    steps: &str,
) -> Found
    ensures kept { KeepsFiles F.told F.faults files.old files.new }
    ensures learned { LearnsOnly F.told (AlikeInInputs (cdl.now ∷ policy.now ∷ steps.now ∷ [])) files.old files.new }
    ensures ran { InAll (F.told files.new) (λ m. IsRun m (F.faults files.old) (F.faults files.new) cdl.now policy.now
        steps.now result) }
{
    let spec = read_system(alloc, files, cdl)?;
    let allowed = read_labels(alloc, files, policy)?;
    let list = read_run(alloc, files, steps, &spec)?;
    let labels = label_system(alloc, policy, &spec, &allowed)?;
    let replayed = replay(alloc, &spec, &labels, list.as_slice())?;
    Ok(Outcome::Ran {
        replayed,
        names: Names::of(allowed),
    })
}

/// The section table of an ELF file.
pub fn table_of_elf<F: Files>(alloc: Global, files: &mut F, elf: &str) -> Found
    ensures kept { KeepsFiles F.told F.faults files.old files.new }
    ensures learned { LearnsOnly F.told (AlikeAsRead elf.now) files.old files.new }
    ensures tabled { InAll (F.told files.new) (λ m. IsTabled m (F.faults files.old) (F.faults files.new) elf.now result) }
{
    let image = read_image(alloc, files, elf)?;
    Ok(Outcome::Tabled { image })
}

/// The edges that runs of the capDL's system reach, with steps that show each.
pub fn audit_texts<F: Files>(alloc: Global, files: &mut F, cdl: &str, policy: &str) -> Found
    ensures kept { KeepsFiles F.told F.faults files.old files.new }
    ensures learned { LearnsOnly F.told (AlikeInInputs (cdl.now ∷ policy.now ∷ [])) files.old files.new }
    ensures audited { InAll (F.told files.new) (λ m. IsAudited m (F.faults files.old) (F.faults files.new) cdl.now policy.now
        result) }
{
    let spec = read_system(alloc, files, cdl)?;
    let allowed = read_labels(alloc, files, policy)?;
    let labels = label_system(alloc, policy, &spec, &allowed)?;
    audit_system(alloc, cdl, spec, &labels, Names::of(allowed))
}

/// The least certificate of the capDL's system.
pub fn certify_texts<F: Files>(alloc: Global, files: &mut F, cdl: &str, policy: &str) -> Found
    ensures kept { KeepsFiles F.told F.faults files.old files.new }
    ensures learned { LearnsOnly F.told (AlikeInInputs (cdl.now ∷ policy.now ∷ [])) files.old files.new }
    ensures certified { InAll (F.told files.new) (λ m. IsCertified m (F.faults files.old) (F.faults files.new) cdl.now policy.now
        result) }
{
    let spec = read_system(alloc, files, cdl)?;
    let allowed = read_labels(alloc, files, policy)?;
    let labels = label_system(alloc, policy, &spec, &allowed)?;
    certify_system(alloc, cdl, &spec, &labels)
}

/// Places of the objects of the capDL's system in regions of untyped memory.
pub fn plan_texts<F: Files>(alloc: Global, files: &mut F, cdl: &str, untypeds: &str) -> Found
    ensures kept { KeepsFiles F.told F.faults files.old files.new }
    ensures learned { LearnsOnly F.told (AlikeInInputs (cdl.now ∷ untypeds.now ∷ [])) files.old files.new }
    ensures planned { InAll (F.told files.new) (λ m. IsPlanned m (F.faults files.old) (F.faults files.new) cdl.now untypeds.now
        result) }
{
    let spec = read_system(alloc, files, cdl)?;
    let regions = read_regions(alloc, files, untypeds)?;
    plan_system(alloc, cdl, untypeds, spec, regions.as_slice())
}
