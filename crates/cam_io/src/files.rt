ghost use Rattle.cam_io.specs.Causes.{Rose};
ghost use Rattle.cam_io.specs.Contents.{Contents};
ghost use Rattle.cam_io.specs.Reading.{InAll, TookAtMost, IsFailure, IsGot, KeepsFiles, HaveSameFront, LearnsOnly};
ghost use Rattle.std.specs.FinMap as map;
ghost use Rattle.std.specs.Option.{option_copied};
ghost use Rattle.std.specs.Prelude.{◌≡◌, ◌<◌, ◌+◌, ℕ, List as Items, Option, length, IfOk, IfSome, OnErr};

use cam_base::{List, Made, Refused};
use std::alloc::Global;
use thiserror::Error;

/// A read, a begin or a write failed, and its count of faults rose.
#[derive(Clone, Copy, Debug, Error)]
#[error("failed")]
pub struct Failed;

/// What a read found.
#[derive(Clone, Copy)]
pub enum Got {
    /// There is no file of this name.
    Absent,
    /// The file has no byte at this place or behind it.
    End,
    /// So many bytes, at least one, stand at the buffer's beginning.
    Bytes(usize),
}

/// Files, read from a place on.
pub trait Files {
    /// Nothing that these files have answered so far speaks against these contents.
    ghost told: { Self → Contents → Type 0 };

    /// How often reads of a name have failed.
    ghost faults: { Self → Items ℕ → ℕ };

    /// All bytes of a name's file, where these files keep them.
    ghost lends: { Self → Items ℕ → Option (Items ℕ) };

    /// Looks at the first bytes of a file, at most so many and one more, where these files keep what they have read, so that
    /// no read of them fails from then on. `Failed` only where the count of this name rose.
    fn see(&mut self, name: &str, limit: u64) -> Result<(), Refused<Failed>>
        ensures kept { KeepsFiles told faults self.old self.new }
        ensures failed { IsFailure result → Rose (faults self.old name.now) (faults self.new name.now) }
        ensures learned { LearnsOnly told (HaveSameFront name.now (limit + 1)) self.old self.new }
    {
        Ok(())
    }

    /// All bytes of a file, where these files keep them.
    fn seen(&self, name: &str) -> Option<&[u8]>
        ensures lends { option_copied result ≡ lends self.now name.now }
        ensures told { InAll (told self.now) (λ m. IfSome result (λ bytes. map.get m name.now ≡ Some bytes.now)) };

    /// All bytes of a file, where these files keep them. They needn't keep them from then on: a later read of the name may fail.
    fn give(&mut self, alloc: Global, name: &str) -> Made<Option<List<u8>>>
        ensures kept { KeepsFiles told faults self.old self.new }
        ensures same { InAll (told self.old) (told self.new) }
        ensures given { IfOk result (λ bytes. bytes ≡ lends self.old name.now) }
    {
        match self.seen(name) {
            Some(bytes) => Ok(Some(List::from_slice(alloc, bytes)?)),
            None => Ok(None),
        }
    }

    /// Reads bytes of a file from the byte `at` on: those that all contents have that are told then. `Failed` only where the
    /// count of this name rose. No more of the file is looked at than has room in the buffer.
    fn read(&mut self, name: &str, at: u64, buf: &mut [u8]) -> Result<Got, Failed>
        requires { 0 < length buf.old }
        ensures kept { KeepsFiles told faults self.old self.new }
        ensures failed { OnErr result (Rose (faults self.old name.now) (faults self.new name.now)) }
        ensures some { IfOk result (TookAtMost (length buf.new)) }
        ensures got { InAll (told self.new) (λ m. IfOk result (IsGot (map.get m name.now) at buf.new)) }
        ensures learned { LearnsOnly told (HaveSameFront name.now (at + length buf.old)) self.old self.new };

    /// There are always such contents.
    ghost some: { (files : Self) → (m : Contents) × told files m };
}
