//! A source, resolved once: its bodies by number, and for each end of their connections where it leads.
//!
//! Contracts see a program as the hierarchy of its source, so that what is said of hierarchies is said of it. Where names
//! lead stands in `specs/LeafInterfaces.antt` and `specs/Leads.antt`.
#![tactic(auto)]

mod bodies;
mod body;
mod leads;
mod part;
mod program;
mod wires;

pub use bodies::{Bodies, bodies_of};
pub use body::{Body, Leaf, Port};
pub use leads::{Lead, port_in};
pub use part::{Part, PartAt};
pub use program::{Program, program_of};
pub use wires::{LedEnd, LedWire};
