//! The phases up to the settings, and the policy.

ghost use Rattle.adl_import.specs.Loaded.{AlikeInSource};
ghost use Rattle.adl_meaning.specs.Prelude.{AreFew, AreNamesSound, HaveFewMembers, Refuses, flat_of, hierarchy_of};
ghost use Rattle.adl_settings.specs.Settled.{settled_of};
ghost use Rattle.adl_types.specs.TypeFaults.{first_type_fault};
ghost use Rattle.cam_io.specs.Reading.{InAll, KeepsFiles, LearnsOnly};
ghost use Rattle.front_end.specs.First.{first_front_fault, name_of_file};
ghost use Rattle.front_end.specs.Fronts.{IsFront, IsMeaning};
ghost use Rattle.front_end.specs.Refusals.{IsRefused};
ghost use Rattle.front_end.specs.Steps.{Assigns, HasMeaning, Means};
ghost use Rattle.std.specs.Prelude.{◌≡◌, IfOk};

use adl_ast::Source;
use adl_flatten::flatten_program;
use adl_import::load;
use adl_meaning::{Flat, Settled};
use adl_names::check_names;
use adl_program::{Program, program_of};
use adl_settings::settle_program;
use adl_types::type_fault;
use arch_policy::{LabelNumbers, policy_of};
use cam_base::{Fault, Made, NoMemory, Refused, SourceError, Text, Unread};
use cam_io::Files;
use cap_model::Policy;
use std::alloc::Global;

/// A source and what it means: its flat system, and the settings of that.
#[derive(Drop)]
pub struct Meaning {
    pub source: Source,
    pub flat: Flat,
    pub settled: Settled,
}

/// A source, what it means, and its policy.
#[derive(Drop)]
pub struct FrontEnd {
    pub source: Source,
    pub flat: Flat,
    pub settled: Settled,
    /// It labels no object.
    pub policy: Policy,
    /// The numbers of its labels.
    pub numbers: LabelNumbers,
}

/// What a source means.
#[derive(Drop)]
struct Parts {
    flat: Flat,
    settled: Settled,
}

/// The source of the root, and what it means.
///
/// # Errors
///
/// The first fault of the phases up to the settings, with the name of its file; a failed read; want of memory.
pub fn meaning_of<F: Files>(
    alloc: Global,
    files: &mut F,
    root: &str,
) -> Result<Meaning, SourceError>
    ensures kept { KeepsFiles F.told F.faults files.old files.new }
    ensures learned { LearnsOnly F.told (AlikeInSource root.now) files.old files.new }
    ensures meaning { InAll (F.told files.new) (λ m. IsMeaning root.now m (F.faults files.old) (F.faults files.new) result) }
{
    match load(alloc, files, root) {
        Ok(source) => with_parts(alloc, source),
        Err(error) => Err(error),
    }
}

/// The source of the root, what it means, and its policy.
///
/// # Errors
///
/// The first fault of the phases up to the settings, and where there is none the limit on edges, with the name of its file; a
/// failed read; want of memory.
pub fn front<F: Files>(alloc: Global, files: &mut F, root: &str) -> Result<FrontEnd, SourceError>
    ensures kept { KeepsFiles F.told F.faults files.old files.new }
    ensures learned { LearnsOnly F.told (AlikeInSource root.now) files.old files.new }
    ensures front { InAll (F.told files.new) (λ m. IsFront root.now m (F.faults files.old) (F.faults files.new) result) }
{
    match meaning_of(alloc, files, root) {
        Ok(meaning) => with_policy(alloc, meaning),
        Err(error) => Err(error),
    }
}

/// What is meant, with its policy.
///
/// # Errors
///
/// The limit on edges, where it is passed, with the name of its file; want of memory.
pub fn with_policy(alloc: Global, meaning: Meaning) -> Result<FrontEnd, SourceError>
    requires { HasMeaning meaning.source meaning.flat meaning.settled }
    ensures { Assigns meaning result }
{
    let Meaning {
        source,
        flat,
        settled,
    } = meaning;
    match policy_of(alloc, &source, &flat, &settled) {
        Ok(assigned) => Ok(FrontEnd {
            source,
            flat,
            settled,
            policy: assigned.policy,
            numbers: assigned.numbers,
        }),
        Err(refused) => Err(in_file(alloc, &source, refused)),
    }
}

fn with_parts(alloc: Global, source: Source) -> Result<Meaning, SourceError>
    requires few { AreFew source }
    requires members { HaveFewMembers source }
    ensures { Means source result }
{
    match parts_of(alloc, &source) {
        Ok(Parts { flat, settled }) => Ok(Meaning {
            source,
            flat,
            settled,
        }),
        Err(refused) => Err(in_file(alloc, &source, refused)),
    }
}

/// The program of a source in which no fault of names stands.
///
/// # Errors
///
/// The first fault of types, exactly where one stands; want of memory.
fn typed_program<'a>(alloc: Global, source: &'a Source) -> Result<Program<'a>, Refused<Fault>>
    requires few { AreFew source.now }
    requires sound { AreNamesSound source.now }
    ensures fault { Refuses result (first_type_fault source.now) }
    ensures program { IfOk result (λ p. p ≡ hierarchy_of source.now) }
{
    let program = program_of(alloc, source)?;
    match type_fault(&program).refuse(alloc) {
        Ok(()) => Ok(program),
        Err(refused) => Err(refused),
    }
}

fn parts_of(alloc: Global, source: &Source) -> Result<Parts, Refused<Fault>>
    requires few { AreFew source.now }
    requires members { HaveFewMembers source.now }
    ensures fault { Refuses result (first_front_fault source.now) }
    ensures flat { IfOk result (λ m. m.flat ≡ flat_of source.now) }
    ensures settled { IfOk result (λ m. m.settled ≡ settled_of source.now) }
{
    check_names(alloc, source)?;
    let program = typed_program(alloc, source)?;
    let flat = flatten_program(alloc, source, &program)?;
    let settled = settle_program(alloc, &program, source, &flat)?;
    Ok(Parts { flat, settled })
}

/// The refusal, with the name of the file in which the fault stands.
pub fn in_file(alloc: Global, source: &Source, refused: Refused<Fault>) -> SourceError
    ensures { IsRefused source.now refused result }
{
    match refused {
        Refused::NoMemory => Unread::NoMemory,
        Refused::Fault(fault) => match name_of_file(alloc, source, fault.place.file) {
            Ok(file) => Unread::Fault(fault, file),
            Err(NoMemory) => Unread::NoMemory,
        },
    }
}

/// The name of the file of this number.
fn name_of_file(alloc: Global, source: &Source, number: u32) -> Made<Text>
    ensures { IfOk result (λ name. name ≡ name_of_file source.now number) }
{
    match source.files.as_slice().get(number as usize) {
        Some(file) => file.name.copy(alloc),
        None => Ok(Text::empty(alloc)),
    }
}
