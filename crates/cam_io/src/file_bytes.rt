//! All bytes of a file, which its files keep or which were read.

ghost use Rattle.cam_io.specs.FileBytes.{bytes_in};
ghost use Rattle.std.specs.Prelude.{◌≡◌, IfOk};

use crate::Files;
use cam_base::{List, Made};
use std::alloc::Global;

/// All bytes of a file: those that its files keep, or else those that were read.
#[derive(Drop)]
pub enum FileBytes {
    Kept,
    Read(List<u8>),
}

impl FileBytes {
    /// The bytes, of the file of this name.
    pub fn lend<'a, F: Files>(&'a self, files: &'a F, name: &str) -> &'a [u8]
        ensures { result.now ≡ bytes_in self.now (F.lends files.now name.now) }
    {
        match self {
            FileBytes::Kept => files.seen(name).unwrap_or(&[]),
            FileBytes::Read(bytes) => bytes.as_slice(),
        }
    }

    /// The bytes as a list, copied where the files keep them.
    pub fn into_list<F: Files>(self, alloc: Global, files: &F, name: &str) -> Made<List<u8>>
        ensures { IfOk result (λ list. list ≡ bytes_in self (F.lends files.now name.now)) }
    {
        match self {
            FileBytes::Kept => List::from_slice(alloc, files.seen(name).unwrap_or(&[])),
            FileBytes::Read(bytes) => Ok(bytes),
        }
    }
}
