//! Flattening: the leaves, domains and connections of a source, or the first limit that is passed or fault of joins.
//!
//! Nothing here reads a file or looks at a setting. What a source means as a hierarchy, and as a flat system, stands in
//! the definitions of `adl_meaning`. Templates hold the leaves and connections of each body, made once from those of its
//! instances' components (`specs/Templates.antt`): the flat system is the template of the assembly.
#![tactic(auto)]

mod end_counts;
mod faults;
mod flat;
mod held;
mod leaves;
mod limits;
mod place;
mod placed;
mod template;
mod template_laws;

pub use flat::{flatten, flatten_program};
pub use placed::{PlacedConnection, PlacedEnd, PlacedLeaf};
pub use template::{Template, assembly_template};
pub use template_laws::templates_are_placed;
