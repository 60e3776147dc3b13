//! The top call: what the program does with its words, over any files and outputs.
//!
//! `run` decides first and then performs. Deciding reads the files, takes memory, and answers with a value (`Answer`);
//! performing does what that answer's script says and takes no memory.
//! `specs/Answers.antt` says when each answer comes and what it does, `specs/Learning.antt` which files it may look at; the words
//! stand in `command_words`, and what is compiled in `arch_compile`.
//!
//! `generate` compiles a source from memory, as many clients as asked for and one server (`specs/GeneratedFiles.antt`), and asks
//! the checker whether what is compiled keeps the rules (`specs/Generated.antt`). What can't influence what, of whatever is
//! compiled and of whatever is checked, and that the memory of what is compiled is static (`specs/Static.antt`), are the laws of
//! `build_flow.rt`.
//!
//! What is written of a build is read back, its capDL, its policy and its certificate (`specs/ReadBack.antt`). Threads of what is
//! read reach between labels exactly what the source assigns, and it is judged with a yes: what a build's parts are to each
//! other stands in `specs/TriosValid.antt`, and what holds of whatever is read of its texts in `specs/AsRead.antt`. These are the
//! laws of `back_laws.rt`.
#![tactic(auto)]

mod answer;
mod asking;
mod back_laws;
mod build_flow;
mod decide;
mod files;
mod generate_laws;
mod generation;
mod laws;
mod perform;
mod top;
mod write;

pub use answer::Answer;
pub use back_laws::{texts_are_read_back, texts_hold_as_read, trios_are_valid};
pub use build_flow::{
    builds_are_separated, checked_texts_are_separated, memory_of_builds_is_static,
    plain_memory_is_static,
};
pub use files::{ROOT, generated};
pub use generate_laws::generated_answers_are_one;
pub use generation::generate;
pub use laws::{
    answers_are_one, failures_have_a_cause, refusals_touch_one_channel_alone, statuses_are_exact,
    success_writes_a_whole_text,
};
pub use top::run;
pub use write::write_generated;
