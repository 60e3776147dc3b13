use arch_compile::{Build, Summary, TextNames};
use cam_base::{Fault, Text};
use explain::Answer as Reply;
use source_commands::Listing;
use text_commands::{InputFault, Outcome};

/// What a command has to say, before it says it.
#[derive(Drop)]
pub enum Answer {
    /// What is made of the source, to be written under these names.
    Compiled { names: TextNames, build: Build },
    /// The labels of a source's system and its assigned edges.
    Listed { listing: Listing },
    /// Why a triple is assigned, or that it isn't.
    Explained { answer: Reply },
    /// What a command over texts found.
    Told { outcome: Outcome },
    /// What is compiled of a generated source, in numbers.
    Generated { summary: Summary },
    /// A fault of the source, and the file in which it stands.
    Faulted { file: Text, fault: Fault },
    /// A fault of an input, and the input's name.
    Refused { file: Text, fault: InputFault },
    /// The words are no command.
    Usage,
    /// A read of this file failed.
    ReadFault { file: Text },
    NoMemory,
}
