ghost use Rattle.cam_io.specs.Causes.{Rose, next_call};
ghost use Rattle.cam_io.specs.Contents.{Contents};
ghost use Rattle.cam_io.specs.MemFiles.{IsHeld, held, counts, calls, failing, CountsFault};
ghost use Rattle.cam_io.specs.Reading.{InAll, TookAtMost, IsGot, KeepsFiles, HaveSameFront, LearnsOnly};
ghost use Rattle.std.specs.FinMap as map;
ghost use Rattle.std.specs.Prelude.{List as Items, ◌≡◌, ◌<◌, ◌∷◌, [], ◌++◌, ◌+◌, ◌↔◌, ℕ, Contains, IsErr, IfOk, OnOk, OnErr, length};

use crate::named_file::{NamedFile, count_fault, put_file, read_file};
use crate::{Failed, Files, Got};
use cam_base::{List, Made};
use std::alloc::Global;

/// Files in memory. A read fails exactly where the number of its call was stated; calls are counted from 1, and one
/// past number 2^64 - 1 keeps that number.
#[derive(Drop)]
pub struct MemFiles {
    files: Vec<NamedFile>,
    others: u64,
    calls: u64,
    failing: List<u64>,
    alloc: Global,
}

impl MemFiles {
    /// No files, no call that fails, and every count 0. Takes no memory.
    #[tactic(auto, using(crate::proofs::Lookups::contents_empty))]
    pub fn new(alloc: Global) -> MemFiles
        ensures contents { held result ≡ map.empty }
        ensures counts { (r : Items ℕ) → counts result r ≡ 0 }
        ensures calls { calls result ≡ 0 }
        ensures failing { failing result ≡ [] }
    {
        MemFiles {
            files: Vec::new(alloc),
            others: 0,
            calls: 0,
            failing: List::new(alloc),
            alloc,
        }
    }

    /// Gives a name these bytes in place of those that it has. Refused, it leaves the files as they were.
    pub fn add(&mut self, name: &str, bytes: &[u8]) -> Made<()>
        ensures ok { OnOk result (held self.new ≡ map.insert (held self.old) name.now bytes.now) }
        ensures err { OnErr result (held self.new ≡ held self.old) }
        ensures counts { (r : Items ℕ) → counts self.new r ≡ counts self.old r }
        ensures calls { calls self.new ≡ calls self.old }
        ensures failing { failing self.new ≡ failing self.old }
    {
        put_file(
            self.alloc,
            &mut self.files,
            self.others,
            name.as_bytes(),
            bytes,
        )
    }

    /// States that the call of this number fails. Refused, it leaves the files as they were.
    pub fn fail_at(&mut self, call: u64) -> Made<()>
        ensures ok { OnOk result (failing self.new ≡ failing self.old ++ call ∷ []) }
        ensures err { OnErr result (failing self.new ≡ failing self.old) }
        ensures contents { held self.new ≡ held self.old }
        ensures counts { (r : Items ℕ) → counts self.new r ≡ counts self.old r }
        ensures calls { calls self.new ≡ calls self.old }
    {
        self.failing.push(call)
    }
}

impl Files for MemFiles {
    ghost use Rattle.std.specs.Prelude.{None, refl};
    ghost use Rattle.cam_io.specs.MemFiles.{IsHeld, held, counts};

    ghost told = { IsHeld };

    ghost faults = { counts };

    ghost lends = { λ _ _. None };

    fn seen(&self, _name: &str) -> Option<&[u8]> {
        None
    }

    fn read(&mut self, name: &str, at: u64, buf: &mut [u8]) -> Result<Got, Failed>
        requires { 0 < length buf.old }
        ensures kept { KeepsFiles IsHeld counts self.old self.new }
        ensures failed { OnErr result (Rose (counts self.old name.now) (counts self.new name.now)) }
        ensures some { IfOk result (TookAtMost (length buf.new)) }
        ensures got { InAll (IsHeld self.new) (λ m. IfOk result (IsGot (map.get m name.now) at buf.new)) }
        ensures learned { LearnsOnly IsHeld (HaveSameFront name.now (at + length buf.old)) self.old self.new }
        ensures same { held self.new ≡ held self.old }
        ensures exactly { IsErr result ↔ Contains (failing self.old) (next_call (calls self.old)) }
        ensures calls { calls self.new ≡ next_call (calls self.old) }
        ensures failing { failing self.new ≡ failing self.old }
        ensures quiet { OnOk result ((r : Items ℕ) → counts self.new r ≡ counts self.old r) }
        ensures counted { OnErr result (CountsFault (held self.old) name.now (counts self.old) (counts self.new)) }
    {
        self.calls = self.calls.saturating_add(1);
        if self.failing.as_slice().contains(&self.calls) {
            count_fault(&mut self.files, &mut self.others, name.as_bytes());
            return Err(Failed);
        }
        Ok(read_file(&self.files, name.as_bytes(), at, buf))
    }

    ghost some = { λ s. (held s, refl) };
}
