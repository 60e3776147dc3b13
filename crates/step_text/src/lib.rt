//! Texts of steps: bytes to one list of steps or to the first fault, and a list of steps as its one text, which is read back.
//!
//! Nothing here takes a step, looks at a state, or reads a file. What a text says stands in `specs/StepTexts.antt`, how a
//! step is spelled in `specs/Spelling.antt`. What is written takes no memory, a line for each step.
#![tactic(auto)]

mod back_laws;
mod laws;
mod line;
mod reader;
mod rights;
mod spelled;
mod threads;
mod verb;
mod write;

pub use back_laws::{runs_are_readable, written_steps_are_read_back};
pub use laws::{lines_spell_steps, unknown_names_are_no_threads};
pub use reader::{MAX_BYTES, MAX_STEPS, Read, read_steps};
pub use write::{write_step_lines, write_steps};
