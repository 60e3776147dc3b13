//! Compiling: the source of a root, what it means and what it assigns, its spec with its labels, its certificate and its map;
//! or the first fault of the first phase that has one. Then the texts of a build, and its summary.
//!
//! Which fault is the first stands in `specs/LayoutFaults.antt`, what is made of a source in `specs/Built.antt`, what
//! `compile` answers in `specs/Compiled.antt`, and the text of the map in `specs/Maps.antt`: it begins no output, and nothing but
//! the map is written. That the slots, threads, regions, pages, frames and labels of what is made, and its map, are what the
//! source says stands in `specs/OfSource.antt`, and that its policy, its certificate and its spec agree with the source and with
//! each other, whatever the threads do, in `specs/Sound.antt`. Which texts a build has, under which names and in which order, is
//! in `specs/BuildTexts.antt`, the line of its numbers in `specs/Summary.antt`; writing them decides nothing and takes no memory.
#![tactic(auto)]

mod building;
mod imaging;
mod labelled;
mod laws;
mod laying;
mod making;
mod map;
mod names;
mod summary;
mod summary_line;
mod write;

pub use building::{Build, compile};
pub use front_end::{BuildError, FrontEnd, Meaning, front};
pub use laws::answers_are_one;
pub use map::write_map;
pub use names::TextNames;
pub use summary::Summary;
pub use summary_line::write_summary;
pub use system_spec::MapLine;
pub use write::write_texts;
