//! Files and outputs: what a command reads from and writes to, with what each call did as a value.
//!
//! `Files` tells what its files hold and how often reads of a name have failed; `Outputs` tells which channels are
//! begun, under which names, and what each holds. `see_whole`, `read_whole` and `write_all` are the loops over them, `Writer`
//! says a text to one open channel in few calls, and `FileBytes` lends what the files keep.
//! There are files and outputs in memory, whose faults are stated beforehand, and those of the host: its files keep what
//! they have answered, and tell the contents that have it; its outputs tell only which channels are begun. That a read of
//! the host gives a file's bytes, and that a write puts them there, is trusted.
//!
//! Nothing here knows what a file means, and nothing that writes takes memory. The definitions that the contracts cite
//! stand in `specs/`; the lemmas for what is said piece by piece, for writes in a row and for scripts stand in
//! `proofs/Saying.antt`, `proofs/Sequence.antt` and `proofs/Scripted.antt`.
#![tactic(auto)]

mod file_bytes;
mod files;
mod fixed_files;
mod host_files;
mod host_outputs;
mod mem_channel;
mod mem_files;
mod mem_outputs;
mod named_file;
mod outputs;
mod seen;
mod whole;
mod write;
mod writer;

pub use file_bytes::FileBytes;
pub use files::{Failed, Files, Got};
pub use fixed_files::FixedFiles;
pub use host_files::HostFiles;
pub use host_outputs::HostOutputs;
pub use mem_files::MemFiles;
pub use mem_outputs::MemOutputs;
pub use outputs::{Outputs, Written};
pub use whole::{WholeError, read_whole, see_whole, take_whole};
pub use write::write_all;
pub use writer::Writer;
