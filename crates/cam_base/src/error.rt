ghost use Rattle.cam_base.specs.declared.error.Refused.TheVariants.{NoMemory as RefusedNoMemory};
ghost use Rattle.cam_base.specs.declared.error.Unread.TheVariants.{NoMemory as UnreadNoMemory};
ghost use Rattle.std.specs.Prelude.{◌≡◌};

use crate::place::Fault;
use crate::text::Text;
use std::alloc::{AllocError, AllocFailed};
use thiserror::Error;

/// Want of memory.
#[derive(Clone, Copy, Debug, Error)]
#[error("no memory")]
pub struct NoMemory;

/// What is made, unless memory runs out.
pub type Made<T> = Result<T, NoMemory>;

impl From<AllocError> for NoMemory {
    ghost from_gives = { λ _ _. Unit {0} };

    fn from(_: AllocError) -> NoMemory {
        NoMemory
    }
}

impl<T: Drop> From<AllocFailed<T>> for NoMemory {
    ghost from_gives = { λ _ _. Unit {0} };

    fn from(_: AllocFailed<T>) -> NoMemory {
        NoMemory
    }
}

/// Why a call that reads an input gave up: a fault of the input, or want of memory.
#[derive(Debug, Drop, Error)]
pub enum Refused<F> {
    #[error("a fault of the input")]
    Fault(F),
    #[error("no memory")]
    NoMemory,
}

impl<F> From<NoMemory> for Refused<F> {
    ghost from_gives = { λ _ r. r ≡ RefusedNoMemory };

    fn from(_: NoMemory) -> Refused<F> {
        Refused::NoMemory
    }
}

impl<F> From<AllocError> for Refused<F> {
    ghost from_gives = { λ _ r. r ≡ RefusedNoMemory };

    fn from(_: AllocError) -> Refused<F> {
        Refused::NoMemory
    }
}

impl<F, T: Drop> From<AllocFailed<T>> for Refused<F> {
    ghost from_gives = { λ _ r. r ≡ RefusedNoMemory };

    fn from(_: AllocFailed<T>) -> Refused<F> {
        Refused::NoMemory
    }
}

/// Why files weren't read to their end: the first fault of one of them, a failed read, or want of memory.
#[derive(Debug, Drop, Error)]
pub enum Unread<F> {
    /// The first fault, and the name of the file in which it stands.
    #[error("a fault of a file")]
    Fault(F, Text),
    /// A read of the file of this name failed.
    #[error("read fault")]
    ReadFault(Text),
    #[error("no memory")]
    NoMemory,
}

/// Why nothing was made of a source.
pub type SourceError = Unread<Fault>;

impl<F> From<NoMemory> for Unread<F> {
    ghost from_gives = { λ _ e. e ≡ UnreadNoMemory };

    fn from(_: NoMemory) -> Unread<F> {
        Unread::NoMemory
    }
}
