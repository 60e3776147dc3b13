//! Refusals of what is asked of a system, told as faults of files: `specs/Decisions.antt`.

ghost use Rattle.std.specs.Prelude.{◌≡◌, IfErr, IfOk, decimal};
ghost use Rattle.text_commands.specs.Decisions.{hindered, tell_audit, tell_close, tell_plan, words};
ghost use Rattle.text_commands.specs.Inputs.{IsErrorFor, IsErrorOf};
ghost use Rattle.cam_base.specs.declared.error.Unread.TheVariants.{NoMemory as InputNoMemory};

use crate::input::in_file;
use crate::{Hindrance, InputCode, InputError, InputFault};
use boot_plan::PlanRefusal;
use cam_base::{Made, NoMemory, Text, Unread, hexadecimal};
use cap_audit::AuditRefusal;
use cap_model::Spec;
use itoa::Buffer;
use least_cert::CloseError;
use std::alloc::Global;

/// Two words, with a space between them.
fn words(alloc: Global, first: &[u8], second: &[u8]) -> Made<Text>
    ensures { IfOk result (λ text. text ≡ words first.now second.now) }
{
    let mut text = first.to_vec(alloc)?;
    text.extend_from_slice(b" ")?;
    text.extend_from_slice(second)?;
    Ok(Text::from_vec(text))
}

/// Two numbers in decimal, with a space between them.
fn numbers(alloc: Global, first: u64, second: u64) -> Made<Text>
    ensures { IfOk result (λ text. text ≡ words (decimal first) (decimal second)) }
{
    let (mut front, mut back) = (Buffer::new(), Buffer::new());
    words(
        alloc,
        front.format(first).as_bytes(),
        back.format(second).as_bytes(),
    )
}

/// Three numbers in decimal, with spaces between them.
fn three_numbers(alloc: Global, first: u8, second: u64, third: u64) -> Made<Text>
    ensures { IfOk result (λ text. text ≡ words (decimal first) (words (decimal second) (decimal third))) }
{
    let rest = numbers(alloc, second, third)?;
    let mut front = Buffer::new();
    words(alloc, front.format(first).as_bytes(), rest.as_bytes())
}

/// What hinders, told of a whole file.
fn hindered(alloc: Global, file: &str, hindrance: Hindrance, name: Made<Text>) -> InputError
    ensures named { IfOk name (λ name. IsErrorOf (hindered hindrance name) file.now result) }
    ensures none { IfErr name (λ _. result ≡ InputNoMemory) }
{
    match name {
        Ok(name) => in_file(
            alloc,
            file,
            InputFault {
                code: InputCode::Hindered(hindrance),
                first: 0,
                end: 0,
                name,
            },
        ),
        Err(NoMemory) => Unread::NoMemory,
    }
}

/// Why there is no plan, told of the file of the capDL or of the regions.
pub fn refuse_plan(
    alloc: Global,
    cdl: &str,
    untypeds: &str,
    spec: &Spec,
    refusal: PlanRefusal,
) -> InputError
    ensures { IsErrorFor (tell_plan cdl.now untypeds.now spec.now) refusal result }
{
    match refusal {
        PlanRefusal::Overlap { first, second } => hindered(
            alloc,
            untypeds,
            Hindrance::Overlap,
            numbers(alloc, first as u64, second as u64),
        ),
        PlanRefusal::NoDevice { frame } => hindered(
            alloc,
            cdl,
            Hindrance::NoDevice,
            Text::new(alloc, spec.name(frame)),
        ),
        PlanRefusal::SharedFrame { frame } => hindered(
            alloc,
            cdl,
            Hindrance::SharedFrame,
            Text::new(alloc, spec.name(frame)),
        ),
        PlanRefusal::NoRoom { bits, need, have } => hindered(
            alloc,
            untypeds,
            Hindrance::NoRoom,
            three_numbers(alloc, bits, need, have),
        ),
        PlanRefusal::NoMemory => Unread::NoMemory,
    }
}

/// Why there is no report, told of the file of the capDL.
pub fn refuse_audit(alloc: Global, cdl: &str, spec: &Spec, refusal: AuditRefusal) -> InputError
    ensures { IsErrorFor (tell_audit cdl.now spec.now) refusal result }
{
    match refusal {
        AuditRefusal::HoldsTcb { cnode, slot } => {
            let mut digits = [0; 18];
            let slot = hexadecimal(slot, &mut digits);
            let name = words(alloc, spec.name(cnode), slot);
            hindered(alloc, cdl, Hindrance::HoldsTcb, name)
        }
        AuditRefusal::Limit { cnodes, caps } => hindered(
            alloc,
            cdl,
            Hindrance::AuditLimit,
            numbers(alloc, cnodes, caps),
        ),
        AuditRefusal::NoMemory => Unread::NoMemory,
    }
}

/// Why there is no certificate, told of the file of the capDL.
pub fn refuse_close(alloc: Global, cdl: &str, error: CloseError) -> InputError
    ensures { IsErrorFor (tell_close cdl.now) error result }
{
    match error {
        CloseError::Limit => hindered(
            alloc,
            cdl,
            Hindrance::CertificateLimit,
            Ok(Text::empty(alloc)),
        ),
        CloseError::NoMemory => Unread::NoMemory,
    }
}
