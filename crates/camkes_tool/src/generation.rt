//! The generated source, compiled and checked.

ghost use Rattle.arch_compile.specs.Compiled.{IsCompiled};
ghost use Rattle.camkes_tool.specs.TriosValid.{IsTrioValid};
ghost use Rattle.camkes_tool.specs.Generated.{IsAccepted, IsGenerated};
ghost use Rattle.camkes_tool.specs.GeneratedFiles.{generated, root_name};
ghost use Rattle.policy_text.specs.Labelled.{IsLabelling};
ghost use Rattle.std.specs.Prelude.{◌≡◌, length, map, IfOk, Ok};

use crate::{ROOT, generated};
use arch_compile::{Build, Summary, compile};
use cam_base::{List, Made, Name, NoMemory, SourceError, Unread};
use cap_model::Labels;
use cert_check::{Verdict, check};
use std::alloc::Global;

/// What is compiled of the source that is generated for so many clients, in numbers. The checker accepts it.
///
/// # Errors
///
/// The first fault of the generated files, with the name of the file in which it stands; want of memory.
pub fn generate(alloc: Global, count: u64) -> Result<Summary, SourceError>
    ensures { IsGenerated count result }
{
    match compiled(alloc, count) {
        Ok(build) => match accepted(alloc, &build) {
            Ok(summary) => Ok(summary),
            Err(NoMemory) => Err(Unread::NoMemory),
        },
        Err(error) => Err(error),
    }
}

/// The source that is generated for so many clients, compiled from memory, where no read fails.
fn compiled(alloc: Global, count: u64) -> Result<Build, SourceError>
    ensures { IsCompiled root_name (generated count) (λ name. 0) (λ name. 0) result }
{
    let Ok(mut files) = generated(alloc, count) else {
        return Err(Unread::NoMemory);
    };
    compile(alloc, &mut files, ROOT)
}

/// What a build has, in numbers, once the checker has accepted its certificate.
fn accepted(alloc: Global, build: &Build) -> Made<Summary>
    requires { IsTrioValid build.now }
    ensures { IfOk result (IsAccepted build.now) }
{
    let labels = labels_of(alloc, build)?;
    match check(&build.spec, &labels, &build.policy.edges, &build.cert) {
        Verdict::Yes => Ok(Summary::of(&build.meaning.flat, &build.spec, &build.policy.edges)),
        Verdict::No { .. } => unreachable!(),
    }
}

/// The labels that stand beside names, in order.
fn labels_beside(alloc: Global, objects: &[(Name, u32)]) -> Made<Vec<u32>>
    ensures { IfOk result (λ labels. labels.items ≡ map (λ o. o.1) objects.now) }
{
    let labels = objects.iter().map(|object| object.1).collect(alloc)?;
    Ok(labels)
}

/// The labels that a build's policy gives the objects of its spec, which stand in its order.
fn labels_of(alloc: Global, build: &Build) -> Made<Labels>
    requires { IsTrioValid build.now }
    ensures labels { IfOk result (λ labels. IsLabelling build.now.spec build.now.policy (Ok labels)) }
    ensures each { IfOk result (λ labels. length labels.by_object ≡ length build.now.spec.entries) }
{
    let labels = labels_beside(alloc, build.policy.objects.as_slice())?;
    Ok(Labels {
        by_object: List::from_vec(labels),
    })
}
