//! Loading a source: the root file and all that it imports, each read once, in the order in which they are met.
//!
//! Nothing here knows what a tree stands for, and an include names no file. How paths are folded stands in
//! `specs/Folding.antt`, which names the imports of a file give in `specs/Imports.antt`, what the files of a source are
//! in `specs/Sources.antt`, the turns of the files and their faults in `specs/Turns.antt`, and what `load` answers in
//! `specs/Loaded.antt`.
#![tactic(auto)]

mod folding;
mod imports;
mod laws;
mod loading;
mod turn;

pub use cam_base::SourceError as LoadError;
pub use folding::{BadPath, fold, fold_root};
pub use laws::{answers_are_one, loaded_sources_are_whole, sources_are_one};
pub use loading::load;
