//! Cases, as row files tell them.

use std::alloc::Global;

/// A file or an output: its name and all of its bytes.
#[derive(Drop)]
pub struct NamedText {
    pub name: String,
    pub bytes: Vec<u8>,
}

/// Files, and runs over them.
#[derive(Drop)]
pub struct Case {
    pub name: String,
    pub files: Vec<NamedText>,
    pub runs: Vec<Run>,
}

/// The program whose words a run has.
#[derive(Clone, Copy)]
pub enum Program {
    /// `camkes`.
    Camkes,
    /// `camkes_view`.
    View,
}

/// The words of a run, which of its calls fail, and what it must do.
#[derive(Drop)]
pub struct Run {
    pub program: Program,
    pub words: Vec<String>,
    /// The read that fails, counted from 1; 0 for none.
    pub failing_read: u64,
    /// The begin or write of an output that fails, counted from 1; 0 for none.
    pub failing_write: u64,
    pub status: u8,
    /// What stands on standard output.
    pub print: Vec<u8>,
    /// What stands on standard error.
    pub error: Vec<u8>,
    /// The outputs that are begun, in their order.
    pub outputs: Vec<NamedText>,
    /// Lines of outputs, where the outputs aren't told whole: each text's lines stand in the output of its name, in their
    /// order.
    pub lines: Vec<NamedText>,
    /// Standard output and the outputs are not looked at.
    pub any: bool,
    /// Standard output need only begin with what is told.
    pub front: bool,
    /// The file of each read, where each is to fail in turn.
    pub reads: Option<Vec<String>>,
    /// Each begin and write is to fail in turn.
    pub writes: bool,
}

impl Run {
    /// A run that must end with status 0 and tell nothing.
    pub(crate) fn new(alloc: Global, program: Program, words: Vec<String>) -> Run {
        Run {
            program,
            words,
            failing_read: 0,
            failing_write: 0,
            status: 0,
            print: Vec::new(alloc),
            error: Vec::new(alloc),
            outputs: Vec::new(alloc),
            lines: Vec::new(alloc),
            any: false,
            front: false,
            reads: None,
            writes: false,
        }
    }
}
