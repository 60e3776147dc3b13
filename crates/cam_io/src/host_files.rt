ghost use Rattle.cam_io.specs.Causes.{Rose, one_more};
ghost use Rattle.cam_io.specs.Contents.{Contents};
ghost use Rattle.cam_io.specs.Host.{host_told, host_faults};
ghost use Rattle.cam_io.specs.Reading.{InAll, TookAtMost, IsFailure, IsGot, KeepsFiles, HaveSameFront, LearnsOnly};
ghost use Rattle.cam_io.specs.Seen.{seen_of, replaced};
ghost use Rattle.cam_io.specs.declared.seen.Seen.{Seen as Entry};
ghost use Rattle.std.specs.FinMap as map;
ghost use Rattle.std.specs.Prelude.{◌≡◌, ◌<◌, ◌≤◌, ◌+◌, length, slice_get, slice_set, IfOk, OnOk, OnErr};

use crate::seen::{Seen, place_of};
use crate::{Failed, Files, Got};
use cam_base::{List, Made, Refused};
use std::alloc::Global;

/// The files of the host. What they answer of a name they keep, and answer again, so that no two of their answers ever
/// differ, and each file is read once, however often it is asked for. The contents that they tell are those that have all that
/// was answered. Bytes that are given away may be let go: a later read of the name fails. They have one count of faults for all
/// names, which rises at each error.
#[derive(Drop)]
pub struct HostFiles {
    rt: HostRuntime,
    seen: Vec<Seen>,
    faults: u64,
    /// Whether bytes that are given away aren't kept.
    lets_go: bool,
}

impl HostFiles {
    /// Nothing was read, and the count is 0. Takes no memory.
    pub fn new(rt: HostRuntime) -> HostFiles
        ensures told { (m : Contents) → host_told result m }
        ensures faults { host_faults result ≡ 0 }
    {
        let seen = Vec::new(rt.alloc());
        HostFiles {
            rt,
            seen,
            faults: 0,
            lets_go: false,
        }
    }

    /// The same, of which bytes that are given away aren't kept.
    pub fn letting_go(rt: HostRuntime) -> HostFiles
        ensures told { (m : Contents) → host_told result m }
        ensures faults { host_faults result ≡ 0 }
    {
        HostFiles {
            lets_go: true,
            ..HostFiles::new(rt)
        }
    }

    fn fault(&mut self) -> Failed
        ensures faults { self.new.faults ≡ one_more self.old.faults }
        ensures rose { Rose self.old.faults self.new.faults }
        ensures later { self.old.faults ≤ self.new.faults }
        ensures seen { self.new.seen.items ≡ self.old.seen.items }
    {
        self.faults = self.faults.saturating_add(1);
        Failed
    }

    /// The place of a name's entry, which is made where there is none.
    fn place(&mut self, name: &str) -> Made<usize>
        ensures told { InAll (host_told self.new) (host_told self.old) }
        ensures learned { InAll (host_told self.old) (host_told self.new) }
        ensures faults { self.new.faults ≡ self.old.faults }
        ensures within { IfOk result (λ i. i < length self.new.seen.items) }
        ensures found { IfOk result (λ i. seen_of self.new.seen.items name.now ≡ slice_get self.new.seen.items i) }
        ensures replace { IfOk result (λ i. (s : Entry) → slice_set self.new.seen.items i s
            ≡ replaced self.new.seen.items name.now s) }
    {
        if let Some(place) = place_of(self.seen.as_slice(), name.as_bytes()) {
            return Ok(place);
        }
        let entry = Seen::new(self.rt.alloc(), name.as_bytes())?;
        let place = self.seen.as_slice().len();
        self.seen.push(entry)?;
        Ok(place)
    }

    /// Sees the first bytes of a name's file.
    fn see_named(&mut self, name: &str, limit: u64) -> Result<(), Refused<Failed>>
        ensures told { InAll (host_told self.new) (host_told self.old) }
        ensures faults { self.new.faults ≡ self.old.faults }
        ensures learned { LearnsOnly host_told (HaveSameFront name.now (limit + 1)) self.old self.new }
    {
        let place = self.place(name)?;
        self.seen[place].see(&self.rt, name, limit)
    }

    /// Reads what was seen of a name, or asks the host and sees it.
    fn read_named(&mut self, name: &str, at: u64, buf: &mut [u8]) -> Result<Got, Failed>
        requires { 0 < length buf.old }
        ensures told { InAll (host_told self.new) (host_told self.old) }
        ensures faults { self.new.faults ≡ self.old.faults }
        ensures some { IfOk result (TookAtMost (length buf.new)) }
        ensures got { InAll (host_told self.new) (λ m. IfOk result (IsGot (map.get m name.now) at buf.new)) }
        ensures learned { LearnsOnly host_told (HaveSameFront name.now (at + length buf.old)) self.old self.new }
    {
        let Ok(place) = self.place(name) else {
            return Err(Failed);
        };
        self.seen[place].read(&self.rt, name, at, buf)
    }
}

impl Files for HostFiles {
    ghost use Rattle.cam_io.specs.Host.{host_told, host_faults, host_lends};
    ghost use Rattle.cam_io.specs.Seen.{least};
    ghost use Rattle.cam_io.specs.LeastSeen.{least_agrees};

    ghost told = { host_told };

    ghost faults = { λ s _. host_faults s };

    ghost lends = { host_lends };

    fn see(&mut self, name: &str, limit: u64) -> Result<(), Refused<Failed>>
        ensures kept { KeepsFiles host_told (λ s _. host_faults s) self.old self.new }
        ensures failed { IsFailure result → Rose (host_faults self.old) (host_faults self.new) }
        ensures learned { LearnsOnly host_told (HaveSameFront name.now (limit + 1)) self.old self.new }
        ensures quiet { OnOk result (host_faults self.new ≡ host_faults self.old) }
        ensures counted { IsFailure result → host_faults self.new ≡ one_more (host_faults self.old) }
    {
        match self.see_named(name, limit) {
            Ok(()) => Ok(()),
            Err(Refused::Fault(Failed)) => Err(Refused::Fault(self.fault())),
            Err(Refused::NoMemory) => Err(Refused::NoMemory),
        }
    }

    fn seen(&self, name: &str) -> Option<&[u8]> {
        let place = place_of(self.seen.as_slice(), name.as_bytes())?;
        self.seen[place].whole()
    }

    fn give(&mut self, alloc: Global, name: &str) -> Made<Option<List<u8>>> {
        let Some(place) = place_of(self.seen.as_slice(), name.as_bytes()) else {
            return Ok(None);
        };
        let entry = &mut self.seen[place];
        if !self.lets_go {
            return match entry.whole() {
                Some(bytes) => Ok(Some(List::from_slice(alloc, bytes)?)),
                None => Ok(None),
            };
        }
        match entry.give(alloc) {
            Some(bytes) => Ok(Some(List::from_vec(bytes))),
            None => Ok(None),
        }
    }

    fn read(&mut self, name: &str, at: u64, buf: &mut [u8]) -> Result<Got, Failed>
        requires { 0 < length buf.old }
        ensures kept { KeepsFiles host_told (λ s _. host_faults s) self.old self.new }
        ensures failed { OnErr result (Rose (host_faults self.old) (host_faults self.new)) }
        ensures some { IfOk result (TookAtMost (length buf.new)) }
        ensures got { InAll (host_told self.new) (λ m. IfOk result (IsGot (map.get m name.now) at buf.new)) }
        ensures learned { LearnsOnly host_told (HaveSameFront name.now (at + length buf.old)) self.old self.new }
        ensures quiet { OnOk result (host_faults self.new ≡ host_faults self.old) }
        ensures counted { OnErr result (host_faults self.new ≡ one_more (host_faults self.old)) }
    {
        match self.read_named(name, at, buf) {
            Ok(got) => Ok(got),
            Err(Failed) => Err(self.fault()),
        }
    }

    ghost some = { λ s. (least s.seen.items, least_agrees s.seen.items) };
}
