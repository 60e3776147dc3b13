//! The turns of inputs: each is read whole, and then read as a text of its kind.

ghost use Rattle.cap_model.specs.Policies.{NumbersDiffer};
ghost use Rattle.boot_plan.specs.Regions.{are_regions};
ghost use Rattle.cam_io.specs.Reading.{InAll, KeepsFiles, LearnsOnly};
ghost use Rattle.cap_model.specs.Kept.{IsKept};
ghost use Rattle.policy_text.specs.Labelled.{IsLabelling};
ghost use Rattle.std.specs.Prelude.{◌≡◌, ◌<◌, ◌≤◌, ◌^◌, IfOk, length, true};
ghost use Rattle.text_commands.specs.Codes.{tell_text};
ghost use Rattle.text_commands.specs.Commands.{AreRegions, AreSteps, IsCert, IsImage, IsPolicy, IsSystem};
ghost use Rattle.text_commands.specs.Inputs.{AlikeAsRead, IsTold};

use crate::fault::Given;
use crate::input::{refuse_elf, refuse_text, refuse_untyped, see_input};
use boot_plan::{Untyped, read_untypeds};
use cam_base::{List, Name, Unread};
use cam_io::Files;
use cap_machine::Step;
use cap_model::{EdgeTable, Labels, Policy, Spec};
use capdl_read::read_spec;
use policy_text::{label_objects, read_cert, read_policy};
use sect_table::{Image, read_elf};
use std::alloc::Global;
use step_text::read_steps;

/// The system of a capDL file.
pub fn read_system<F: Files>(alloc: Global, files: &mut F, file: &str) -> Given<Spec>
    ensures kept { KeepsFiles F.told F.faults files.old files.new }
    ensures learned { LearnsOnly F.told (AlikeAsRead file.now) files.old files.new }
    ensures system { InAll (F.told files.new) (λ m. IsSystem m (F.faults files.old) (F.faults files.new) file.now result) }
    ensures kept_spec { IfOk result IsKept }
{
    let bytes = see_input(alloc, files, file)?;
    match read_spec(alloc, bytes.lend(files, file)) {
        Ok(spec) => Ok(spec),
        Err(refusal) => Err(refuse_text(alloc, file, refusal)),
    }
}

/// The policy of a file.
pub fn read_labels<F: Files>(alloc: Global, files: &mut F, file: &str) -> Given<Policy>
    ensures kept { KeepsFiles F.told F.faults files.old files.new }
    ensures learned { LearnsOnly F.told (AlikeAsRead file.now) files.old files.new }
    ensures policy { InAll (F.told files.new) (λ m. IsPolicy m (F.faults files.old) (F.faults files.new) file.now result) }
    ensures apart { IfOk result (λ policy. NumbersDiffer policy.labels) }
{
    let bytes = see_input(alloc, files, file)?;
    match read_policy(alloc, bytes.lend(files, file)) {
        Ok(policy) => Ok(policy),
        Err(refusal) => Err(refuse_text(alloc, file, refusal)),
    }
}

/// The certificate of a file, over the labels of a policy.
pub fn read_edges<F: Files>(
    alloc: Global,
    files: &mut F,
    file: &str,
    policy: &Policy,
) -> Given<EdgeTable>
    ensures kept { KeepsFiles F.told F.faults files.old files.new }
    ensures learned { LearnsOnly F.told (AlikeAsRead file.now) files.old files.new }
    ensures edges { InAll (F.told files.new) (λ m. IsCert m (F.faults files.old) (F.faults files.new) policy.now file.now
        result) }
{
    let bytes = see_input(alloc, files, file)?;
    match read_cert(alloc, bytes.lend(files, file), policy) {
        Ok(edges) => Ok(edges),
        Err(refusal) => Err(refuse_text(alloc, file, refusal)),
    }
}

/// The steps of a file, of the threads of a system.
pub fn read_run<F: Files>(
    alloc: Global,
    files: &mut F,
    file: &str,
    spec: &Spec,
) -> Given<List<Step>>
    requires { length spec.now.entries < 2 ^ 32 }
    ensures kept { KeepsFiles F.told F.faults files.old files.new }
    ensures learned { LearnsOnly F.told (AlikeAsRead file.now) files.old files.new }
    ensures steps { InAll (F.told files.new) (λ m. AreSteps m (F.faults files.old) (F.faults files.new) spec.now file.now
        result) }
    ensures few { IfOk result (λ steps. length steps ≤ 100000) }
{
    let bytes = see_input(alloc, files, file)?;
    match read_steps(alloc, spec, bytes.lend(files, file)) {
        Ok(steps) => Ok(steps),
        Err(refusal) => Err(refuse_text(alloc, file, refusal)),
    }
}

/// The image of an ELF file.
pub fn read_image<F: Files>(alloc: Global, files: &mut F, file: &str) -> Given<Image>
    ensures kept { KeepsFiles F.told F.faults files.old files.new }
    ensures learned { LearnsOnly F.told (AlikeAsRead file.now) files.old files.new }
    ensures image { InAll (F.told files.new) (λ m. IsImage m (F.faults files.old) (F.faults files.new) file.now result) }
{
    let bytes = see_input(alloc, files, file)?;
    let name = match Name::new(alloc, b"image") {
        Ok(name) => name,
        Err(_) => return Err(Unread::NoMemory),
    };
    match read_elf(alloc, &name, bytes.lend(files, file)) {
        Ok(image) => Ok(image),
        Err(refusal) => Err(refuse_elf(alloc, file, refusal)),
    }
}

/// The regions of untyped memory of a file.
pub fn read_regions<F: Files>(alloc: Global, files: &mut F, file: &str) -> Given<List<Untyped>>
    ensures kept { KeepsFiles F.told F.faults files.old files.new }
    ensures learned { LearnsOnly F.told (AlikeAsRead file.now) files.old files.new }
    ensures regions { InAll (F.told files.new) (λ m. AreRegions m (F.faults files.old) (F.faults files.new) file.now result) }
    ensures few { IfOk result (λ regions. length regions ≤ 4096) }
    ensures sound { IfOk result (λ regions. are_regions regions ≡ true) }
{
    let bytes = see_input(alloc, files, file)?;
    match read_untypeds(alloc, bytes.lend(files, file)) {
        Ok(regions) => Ok(regions),
        Err(refusal) => Err(refuse_untyped(alloc, file, refusal)),
    }
}

/// The labels of a system's objects, as the policy of a file gives them.
pub fn label_system(alloc: Global, file: &str, spec: &Spec, policy: &Policy) -> Given<Labels>
    ensures labels { IsTold tell_text file.now (IsLabelling spec.now policy.now) result }
    ensures each { IfOk result (λ labels. length labels.by_object ≡ length spec.now.entries) }
{
    match label_objects(alloc, spec, policy) {
        Ok(labels) => Ok(labels),
        Err(refusal) => Err(refuse_text(alloc, file, refusal)),
    }
}
