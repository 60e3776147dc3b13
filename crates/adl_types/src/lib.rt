//! The types of connections: of which kind the ends of a connection are, whether they agree, and how many there are.
//!
//! Nothing here looks at a path, a group or a setting. The leaf interface of an end is `adl_program`'s to find; the faults
//! stand in `specs/TypeFaults.antt`.
#![tactic(auto)]

mod check;
mod faults;
mod laws;

pub use check::check_types;
pub use faults::type_fault;
pub use laws::ends_are_typed;
