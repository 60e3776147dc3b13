use crate::{InputCode, Outcome};
use cam_base::{Text, Unread};

/// What inputs give, or why they give nothing.
pub type Given<T> = Result<T, InputError>;

/// What a command finds.
pub type Found = Given<Outcome>;

/// A fault of an input, from its first byte to the byte past its last, with what it names or an empty name.
#[derive(Drop)]
pub struct InputFault {
    pub code: InputCode,
    pub first: u64,
    pub end: u64,
    pub name: Text,
}

/// Why a command has no answer.
pub type InputError = Unread<InputFault>;
