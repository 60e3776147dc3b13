//! The items of a source, each with its place, and what is read off an item alone: what names stand for is told above.
//!
//! Nothing here notes a fault, or looks into a composition.
#![tactic(auto)]

mod component;
mod line;
mod located;
mod names;

pub use component::{Declared, composition_of, declared_under, is_device};
pub use line::instances_by;
pub use located::{Located, SourceItems, all_items, components, first_assembly};
pub use names::{Names, component_numbers, last_name};
