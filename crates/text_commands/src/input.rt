ghost use Rattle.cam_io.specs.FileBytes.{with_bytes};
ghost use Rattle.cam_io.specs.Reading.{InAll, KeepsFiles, LearnsOnly};
ghost use Rattle.text_commands.specs.Codes.{tell_elf, tell_text, tell_untyped};
ghost use Rattle.text_commands.specs.Inputs.{AlikeAsRead, IsErrorOf, IsInput, IsReadFaultOf, IsRefusalOf, of_file};

use crate::fault::Given;
use crate::{InputCode, InputError, InputFault};
use boot_plan::UntypedFault;
use cam_base::{NoMemory, Refused, Text, TextCode, TextFault, Unread};
use cam_io::{FileBytes, Files, WholeError, see_whole};
use sect_table::ElfFault;
use std::alloc::Global;

/// The most bytes of an input.
const MOST_BYTES: u64 = 67_108_864;

/// Sees an input whole: `specs/Inputs.antt`.
///
/// # Errors
///
/// That it is absent or too long, that a read failed, or want of memory.
pub fn see_input<F: Files>(alloc: Global, files: &mut F, name: &str) -> Given<FileBytes>
    ensures kept { KeepsFiles F.told F.faults files.old files.new }
    ensures learned { LearnsOnly F.told (AlikeAsRead name.now) files.old files.new }
    ensures input { InAll (F.told files.new) (λ m. IsInput m (F.faults files.old) (F.faults files.new) name.now
        (with_bytes result (F.lends files.new name.now))) }
{
    match see_whole(alloc, files, name, MOST_BYTES) {
        Ok(bytes) => Ok(bytes),
        Err(WholeError::Absent) => Err(of_file(alloc, TextCode::NoFile, name)),
        Err(WholeError::TooLong) => Err(of_file(alloc, TextCode::TooLong, name)),
        Err(WholeError::ReadFault) => Err(read_fault(alloc, name)),
        Err(WholeError::NoMemory) => Err(Unread::NoMemory),
    }
}

/// The fault of a whole input, with its name.
fn of_file(alloc: Global, code: TextCode, file: &str) -> InputError
    ensures { IsErrorOf (of_file code file.now) file.now result }
{
    match Text::new(alloc, file.as_bytes()) {
        Ok(name) => in_file(
            alloc,
            file,
            InputFault {
                code: InputCode::Text(code),
                first: 0,
                end: 0,
                name,
            },
        ),
        Err(NoMemory) => Unread::NoMemory,
    }
}

/// The fault, with the name of its file.
pub fn in_file(alloc: Global, file: &str, fault: InputFault) -> InputError
    ensures { IsErrorOf fault file.now result }
{
    match Text::new(alloc, file.as_bytes()) {
        Ok(file) => Unread::Fault(fault, file),
        Err(NoMemory) => Unread::NoMemory,
    }
}

fn read_fault(alloc: Global, file: &str) -> InputError
    ensures { IsReadFaultOf file.now result }
{
    match Text::new(alloc, file.as_bytes()) {
        Ok(file) => Unread::ReadFault(file),
        Err(NoMemory) => Unread::NoMemory,
    }
}

/// The refusal of a text, told of its file.
pub fn refuse_text(alloc: Global, file: &str, refusal: Refused<TextFault>) -> InputError
    ensures { IsRefusalOf tell_text file.now refusal result }
{
    match refusal {
        Refused::Fault(fault) => in_file(
            alloc,
            file,
            InputFault {
                code: InputCode::Text(fault.code),
                first: fault.first,
                end: fault.end,
                name: fault.name,
            },
        ),
        Refused::NoMemory => Unread::NoMemory,
    }
}

/// The refusal of an ELF file, told of it.
pub fn refuse_elf(alloc: Global, file: &str, refusal: Refused<ElfFault>) -> InputError
    ensures { IsRefusalOf tell_elf file.now refusal result }
{
    match refusal {
        Refused::Fault(fault) => in_file(
            alloc,
            file,
            InputFault {
                code: InputCode::Elf(fault.code),
                first: fault.first,
                end: fault.end,
                name: Text::empty(alloc),
            },
        ),
        Refused::NoMemory => Unread::NoMemory,
    }
}

/// The refusal of a text of regions, told of its file.
pub fn refuse_untyped(alloc: Global, file: &str, refusal: Refused<UntypedFault>) -> InputError
    ensures { IsRefusalOf tell_untyped file.now refusal result }
{
    match refusal {
        Refused::Fault(fault) => in_file(
            alloc,
            file,
            InputFault {
                code: InputCode::Untyped(fault.code),
                first: fault.first,
                end: fault.end,
                name: Text::empty(alloc),
            },
        ),
        Refused::NoMemory => Unread::NoMemory,
    }
}
