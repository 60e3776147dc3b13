//! Commands over texts: the inputs that they name are read whole, and one question about them is answered.
//!
//! Nothing here reads the words of the command line or decides a status. `specs/Inputs.antt` says how inputs are read one after
//! another, and which fault is told; `specs/Commands.antt` what each command answers; `specs/Decisions.antt` what is decided of
//! systems, and how a refusal is told; `specs/Lines.antt` and `specs/Outcomes.antt` what is printed.
#![tactic(auto)]

mod code;
mod commands;
mod decisions;
mod fault;
mod hindered;
mod input;
mod kept;
mod laws;
mod lines;
mod outcome;
mod replay;
mod turns;

pub use code::{Hindrance, InputCode};
pub use commands::{
    audit_texts, certify_texts, check_texts, plan_texts, replay_texts, table_of_elf,
};
pub use fault::{Found, Given, InputError, InputFault};
pub use kept::KeptSpec;
pub use laws::{
    answers_are_one, audits_are_replayed, certificates_are_read_back, tables_are_read_back,
};
pub use lines::{write_code, write_fault, write_place};
pub use outcome::Outcome;
pub use replay::Replayed;
