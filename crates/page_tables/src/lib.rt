//! The page tables of an address space, over the levels of an architecture.
//!
//! Nothing here lays addresses, makes a frame, or knows what is mapped. The levels stand in `specs/Shapes.antt`, which
//! tables of a level there are in `specs/Runs.antt`, the tables of all levels in `specs/Levels.antt`, how many there are
//! for a list of addresses in `specs/Counts.antt`, and how an address is found from the root in `specs/Walks.antt`.
#![tactic(auto)]

mod counts;
mod laws;
mod mapping;
mod runs;
mod shape;
mod tables;

pub use counts::{levels_of, table_count};
pub use laws::{
    counts_are_of_addresses, levels_are_of_addresses, pages_are_found, root_is_one,
    runs_are_tables, shapes_are_levels, slots_rise, tables_are_kept, tables_hold_what_is_mapped,
};
pub use mapping::{Addressed, Mapping};
pub use shape::{Shape, shapes};
pub use tables::push_tables_of;
