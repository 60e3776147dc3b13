use crate::{Code, Text};

/// Bytes of a file: from the first byte to the byte past the last, counted from 0.
#[derive(Clone, Copy, Debug, PartialEq, Eq)]
pub struct Place {
    /// The file's number: 0 for the root, the others in the order in which they are first met.
    pub file: u32,
    pub first: u64,
    pub end: u64,
}

/// What is wrong with a source, where, and the name that it speaks of or an empty one.
#[derive(Debug, Drop)]
pub struct Fault {
    pub code: Code,
    pub place: Place,
    pub name: Text,
}
