//! Hierarchies: which components hold which, and what the definitions of hierarchies promise together.
//!
//! Components are told by number, and a graph lists for each one the types of its instances, its inner ones: an order in which
//! each comes after the types of its instances, whether one holds another, and which hold each other. What holding and such an
//! order are stands in `specs/Graph.antt` of `adl_meaning`, what tells cycles in `specs/Cycles.antt`.
//!
//! A source is read as a hierarchy in `specs/Hierarchy.antt` of `adl_meaning`, its paths, leaves, domains and joins stand
//! beside it, and each law of `laws.rt` ties a walk over the hierarchy to the relation that it is to be.
#![tactic(auto)]

mod cycles;
mod graph_laws;
mod holding;
mod laws;
mod number_set;
mod order;
mod placing;

pub use cycles::Cycles;
pub use graph_laws::{acyclic_is_unheld, cycle_numbers_are_exact, held_is_held, walks_are_short};
pub use holding::holds;
pub use laws::{
    climbing_is_looking_down, connections_are_the_connections, domains_are_the_domains,
    ends_are_what_joins, leaf_numbers_are_places, leaves_are_the_leaves,
    sound_hierarchies_are_finite, spelled_names_are_dotted,
};
pub use order::inner_first;
