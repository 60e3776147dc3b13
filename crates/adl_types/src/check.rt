//! The check of types.

ghost use Rattle.adl_meaning.specs.Prelude.{AreFew, AreNamesSound, Refuses};
ghost use Rattle.adl_types.specs.TypeFaults.{first_type_fault};

use crate::faults::type_fault;
use adl_ast::Source;
use adl_items::Names;
use adl_program::program_of;
use cam_base::{Fault, Refused};
use std::alloc::Global;

/// Checks the types of all connections of a source in which no fault of names stands. What its names stand for isn't read.
///
/// # Errors
///
/// The first fault of types, exactly where one stands: `specs/TypeFaults.antt`. Want of memory.
pub fn check_types(alloc: Global, source: &Source, _names: &Names) -> Result<(), Refused<Fault>>
    requires few { AreFew source.now }
    requires sound { AreNamesSound source.now }
    ensures { Refuses result (first_type_fault source.now) }
{
    let program = program_of(alloc, source)?;
    type_fault(&program).refuse(alloc)
}
