//! The tables of a domain of a compiled system: its slots, its threads, its windows and its pages, as rows and as text.
//!
//! What stands in them is in `specs/Tables.antt`; the pages are found from the root of the domain's space down, by
//! `specs/Pages.antt`. Nothing here reads or writes.
#![tactic(auto)]

mod domain;
mod page;
mod row;
mod rows;
mod table;
mod words;

pub use domain::{domain_called, domain_labels};
pub use row::{Rows, push_row};
pub use system_spec::member_name;
pub use table::{DomainTables, heading, tables_in, tables_of};
pub use words::leaf_text;
