ghost use Rattle.cam_base.specs.declared.grammar_error.ReadError.TheVariants.{NoMemory as ReadNoMemory};
ghost use Rattle.std.specs.Prelude.{◌≡◌};

use crate::NoMemory;
use std::alloc::{AllocError, AllocFailed};
use thiserror::Error;

/// Why reading stopped.
#[derive(Clone, Copy, Debug)]
pub enum Why {
    /// The form goes on with no such token; or it can't end where the tokens end.
    Unexpected,
    /// The form goes on with this token, but nests deeper than the limit.
    TooDeep,
}

/// Where reading stopped, and why. `specs/Faults.antt` says where that is.
#[derive(Clone, Copy, Debug)]
pub struct Stop {
    pub why: Why,
    /// The number of tokens that are left there, the one at fault among them; 0 is the end.
    pub left: usize,
}

/// Why a parser gave up: its tokens, or want of memory.
#[derive(Debug, Drop, Error)]
pub enum ReadError {
    /// Want of memory.
    #[error("no memory")]
    NoMemory,
    /// The tokens stop being those of the form.
    #[error("not of the form")]
    Stop(Stop),
}

impl From<NoMemory> for ReadError {
    ghost from_gives = { λ _ e. e ≡ ReadNoMemory };

    fn from(_: NoMemory) -> ReadError {
        ReadError::NoMemory
    }
}

impl From<AllocError> for ReadError {
    ghost from_gives = { λ _ e. e ≡ ReadNoMemory };

    fn from(_: AllocError) -> ReadError {
        ReadError::NoMemory
    }
}

impl<T: Drop> From<AllocFailed<T>> for ReadError {
    ghost from_gives = { λ _ e. e ≡ ReadNoMemory };

    fn from(_: AllocFailed<T>) -> ReadError {
        ReadError::NoMemory
    }
}
