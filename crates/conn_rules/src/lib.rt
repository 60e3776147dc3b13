//! The connector table: what each end of a connection joins, which capabilities it gets, and which authorities these are
//! for.
//!
//! Nothing here knows a connection, a path or a setting. The capabilities and authorities stand in `specs/Row.antt`, the
//! interfaces and counts of ends in `specs/Ends.antt`, and what a row's rights confer in `specs/Confer.antt`.
#![tactic(auto)]

mod end;
mod laws;
mod rule;
mod table;

pub use end::EndRule;
pub use laws::{rights_confer_just_the_authorities, sets_are_their_lists};
pub use rule::{ObjectKind, RuleRow};
pub use table::{RuleTable, row, rules};
