//! The objects of a system with its address spaces: its spec, the label of each object, and the map.
//!
//! `build` makes the spec and the labels, both from one list of parts, `build_with_map` the lines of the map as well, and
//! `write_map` writes them. All of them are defined here; nothing here knows how slots and spaces were laid out.
//!
//! Which parts there are, where each stands and what it is of is in `specs/Parts.antt`; what object each is in
//! `specs/Objects.antt`; the spec and the labels in `specs/Made.antt`; what `build` asks of the tables in
//! `specs/Buildable.antt`; the lines of the map in `specs/MapLines.antt` and their text in `specs/MapText.antt`.
#![tactic(auto)]

mod bits;
mod caps;
mod ends;
mod irq_lines;
mod landmarks;
mod laws;
mod levels;
mod listing;
mod made;
mod map_line;
mod map_listing;
mod map_text;
mod object;
mod part;
mod places;
mod series;
mod tables;
mod tcbs;

pub use laws::{
    bits_are_least, objects_stand_at_their_places, parts_are_of_what_there_is,
    parts_stand_at_their_places,
};
pub use made::{System, build, build_with_map, map_lines};
pub use map_line::MapLine;
pub use map_text::{MapNames, member_name, write_map};
pub use part::{Owned, PageTable, Part, What};
pub use series::Series;
pub use tables::Tables;
