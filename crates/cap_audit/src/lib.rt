//! The audit of a spec: every edge that its runs reach, with steps that show each.
//!
//! Where the capabilities of a spec can spread, and which edges that makes, is searched first, to an end with steps by which
//! all of it is reached (`specs/{Spread, Audited}.antt`); what is reported stands in `specs/{Rows, Reports}.antt`.
#![tactic(auto)]

mod begin;
mod count;
mod found;
mod gates;
mod hubs;
mod kinds;
mod loops;
mod making;
mod picks;
mod refuse;
mod report;
mod rows;
mod search;
mod spread_laws;
mod ways;

pub use begin::{roots, slots_of};
pub use found::{Course, Findings, Held, Pair, Way, whole};
pub use least_cert::{CloseError, close_cert};
pub use refuse::first_thread;
pub use report::{AuditRefusal, AuditReport, audit};
pub use search::{Classed, is_kind, spread};
pub use spread_laws::{reached_edges_are_audited, runs_lie_in_the_spread, the_spread_is_least};
pub use step_text::write_steps;
