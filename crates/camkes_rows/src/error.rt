use std::alloc::{AllocError, AllocFailed};
use thiserror::Error;

/// Why a text has no cases.
#[derive(Clone, Copy, Debug, PartialEq, Eq, Error)]
pub enum Why {
    #[error("no memory")]
    NoMemory,
    #[error("no such escape")]
    Escape,
    #[error("a number is wanted")]
    Number,
    #[error("no such text to be used")]
    NoText,
    #[error("no such line")]
    Head,
    #[error("a case, or a run of it, is wanted in front of this")]
    OutOfPlace,
    #[error("a name or a word that isn't UTF-8")]
    NotUtf8,
}

/// Why a text has no cases, and the number of the line that begins the part in which that stands.
#[derive(Clone, Copy, Debug, PartialEq, Eq, Error)]
#[error("{line}: {why}")]
pub struct RowError {
    pub line: u64,
    pub why: Why,
}

impl From<AllocError> for Why {
    fn from(_: AllocError) -> Why {
        Why::NoMemory
    }
}

impl<T: Drop> From<AllocFailed<T>> for Why {
    fn from(_: AllocFailed<T>) -> Why {
        Why::NoMemory
    }
}
