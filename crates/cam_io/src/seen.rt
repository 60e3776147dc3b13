//! What the host has answered of a name, and reading on from there.

ghost use Rattle.cam_io.specs.Reading.{TookAtMost, IsGot};
ghost use Rattle.cam_io.specs.Seen.{seen_of, replaced, HasSeen, IsBehind, IsReached, Grows, Learns, wanted, whole_of};
ghost use Rattle.cam_io.specs.declared.seen.Seen.{Seen as Entry};
ghost use Rattle.std.specs.Option.{option_copied};
ghost use Rattle.std.specs.Prelude.{List as Items, ◌≡◌, ◌<◌, ◌≤◌, ◌+◌, ◌⊎◌, ◌↔◌, ℕ, [], true, false, Option, IfNone, IfOk, IfSome, IsTrue, length, option_map, slice_get, slice_set};

use crate::named_file::{copy_from, read_from, same};
use crate::{Failed, Got, Written};
use cam_base::{Made, Refused, Text};
use std::alloc::Global;
use std::fs;
use std::fs::File;
use std::io::{ErrorKind, Read};
use std::mem::replace;
use std::snapshot::Snapshot;

/// How many bytes are read at once.
const CHUNK: usize = 16384;

/// How much of a file was seen.
#[derive(Drop)]
pub(crate) enum Extent {
    /// Nothing was asked.
    Unasked,
    /// There is no file.
    Absent,
    /// Its beginning.
    Begun,
    /// All of it.
    Whole,
    /// All of it, and it was given away.
    Given(Snapshot<Vec<u8>>),
}

/// What the host has answered of a name, and the bytes that it gave. A file that was begun stays open, behind these bytes.
#[derive(Drop)]
pub(crate) struct Seen {
    pub(crate) name: Text,
    pub(crate) extent: Extent,
    pub(crate) bytes: Vec<u8>,
    file: Option<File>,
}

/// Where the name's entry stands.
pub(crate) fn place_of(seen: &[Seen], name: &[u8]) -> Option<usize>
    ensures none { IfNone result (seen_of seen.now name.now ≡ None) }
    ensures within { IfSome result (λ i. i < length seen.now) }
    ensures found { IfSome result (λ i. seen_of seen.now name.now ≡ slice_get seen.now i) }
    ensures replace { IfSome result (λ i. (s : Entry) → slice_set seen.now i s ≡ replaced seen.now name.now s) }
{
    for i in 0..seen.len() {
        if same(name, seen[i].name.as_bytes()) {
            return Some(i);
        }
    }
    None
}

impl Seen {
    /// Nothing was asked of the name.
    pub(crate) fn new(alloc: Global, name: &[u8]) -> Made<Seen>
        ensures name { IfOk result (λ s. s.name ≡ name.now) }
        ensures unasked { IfOk result (λ s. s.extent ≡ Extent.Unasked) }
    {
        Ok(Seen {
            name: Text::new(alloc, name)?,
            extent: Extent::Unasked,
            bytes: Vec::new(alloc),
            file: None,
        })
    }

    /// Whether what was seen answers a read at this place.
    fn is_reached(&self, at: u64) -> bool
        ensures yes { result ≡ true → IsReached self.now.extent self.now.bytes.items at }
        ensures no { result ≡ false → IsBehind self.now.extent self.now.bytes.items at }
    {
        match self.extent {
            Extent::Unasked | Extent::Given(_) => false,
            Extent::Absent | Extent::Whole => true,
            Extent::Begun => at < self.bytes.len() as u64,
        }
    }

    /// What was seen at this place.
    fn answer(&self, at: u64, buf: &mut [u8]) -> Got
        requires some { 0 < length buf.old }
        requires reached { IsReached self.now.extent self.now.bytes.items at }
        ensures some { TookAtMost (length buf.new) result }
        ensures got { (file : Option (Items ℕ)) → HasSeen self.now.extent self.now.bytes.items file
            → IsGot file at buf.new result }
    {
        match self.extent {
            Extent::Unasked | Extent::Absent | Extent::Given(_) => Got::Absent,
            Extent::Begun => Got::Bytes(copy_from(self.bytes.as_slice(), at as usize, buf)),
            Extent::Whole => read_from(self.bytes.as_slice(), at, buf),
        }
    }

    /// Asks whether there is a file, and opens it.
    fn open(&mut self, rt: &HostRuntime, name: &str) -> Written
        requires { self.old.extent ≡ Extent.Unasked }
        ensures name { self.new.name ≡ self.old.name }
        ensures grows { Grows self.old self.new }
        ensures learns { (count : ℕ) → Learns self.old self.new count }
        ensures more { (at : ℕ) → IfOk result (λ u. wanted self.new.extent (length self.new.bytes.items) at
            < wanted self.old.extent (length self.old.bytes.items) at) }
    {
        match fs::open(rt, name) {
            Ok(file) => {
                self.bytes.clear();
                self.file = Some(file);
                self.extent = Extent::Begun;
                Ok(())
            }
            Err(error) => {
                if error.kind() != ErrorKind::NotFound {
                    return Err(Failed);
                }
                self.extent = Extent::Absent;
                Ok(())
            }
        }
    }

    /// Reads on in the file that was begun, as much as has room in the buffer.
    fn read_on(&mut self, buf: &mut [u8]) -> Written
        requires begun { self.old.extent ≡ Extent.Begun }
        requires some { 0 < length buf.old }
        ensures name { self.new.name ≡ self.old.name }
        ensures grows { Grows self.old self.new }
        ensures learns { (at : ℕ) → length self.old.bytes.items ≤ at → Learns self.old self.new (at + length buf.old) }
        ensures more { (at : ℕ) → length self.old.bytes.items ≤ at → IfOk result (λ u.
            wanted self.new.extent (length self.new.bytes.items) at < wanted self.old.extent (length self.old.bytes.items) at) }
    {
        let Some(file) = &mut self.file else {
            return Err(Failed);
        };
        let Ok(count) = file.read(buf) else {
            self.file = None;
            return Err(Failed);
        };
        if count == 0 {
            self.extent = Extent::Whole;
            self.file = None;
            return Ok(());
        }
        match self.bytes.extend_from_slice(&buf[..count]) {
            Ok(()) => Ok(()),
            Err(_) => {
                self.file = None;
                Err(Failed)
            }
        }
    }

    /// Asks whether there is a file, where nothing was asked.
    fn meet(&mut self, rt: &HostRuntime, name: &str) -> Written
        ensures name { self.new.name ≡ self.old.name }
        ensures grows { Grows self.old self.new }
        ensures learns { (count : ℕ) → Learns self.old self.new count }
    {
        match self.extent {
            Extent::Unasked => self.open(rt, name),
            _ => Ok(()),
        }
    }

    /// Takes the memory for what the host says that the file has, as far as it is looked at, and a byte more, to see its end.
    fn make_room(&mut self, limit: u64) -> Made<()>
        ensures name { self.new.name ≡ self.old.name }
        ensures extent { self.new.extent ≡ self.old.extent }
        ensures bytes { self.new.bytes.items ≡ self.old.bytes.items }
    {
        let Some(file) = &self.file else {
            return Ok(());
        };
        let length = match file.metadata() {
            Ok(told) => told.len().min(limit),
            Err(_) => 0,
        };
        let left = length.saturating_sub(self.bytes.len() as u64);
        self.bytes.reserve_exact(left.saturating_add(1) as usize)?;
        Ok(())
    }

    /// The same, with the memory for the bytes that the file has then.
    fn begin(&mut self, rt: &HostRuntime, name: &str, limit: u64) -> Result<(), Refused<Failed>>
        ensures name { self.new.name ≡ self.old.name }
        ensures grows { Grows self.old self.new }
        ensures learns { (count : ℕ) → Learns self.old self.new count }
    {
        match self.meet(rt, name) {
            Ok(()) => Ok(self.make_room(limit)?),
            Err(failed) => Err(Refused::Fault(failed)),
        }
    }

    /// Whether no more than so many bytes were seen, and the file may have more.
    fn is_begun_within(&self, limit: u64) -> bool
        ensures { IsTrue result ↔ (self.now.extent ≡ Extent.Begun) × (length self.now.bytes.items ≤ limit) }
    {
        matches!(self.extent, Extent::Begun) && self.bytes.len() as u64 <= limit
    }

    /// Takes memory for a read where there is none left, and answers for how many bytes there is then: the buffer has room
    /// for them, and no more of the file is looked at than so many and one more.
    fn next_room(&mut self, limit: u64) -> Made<usize>
        requires { length self.old.bytes.items ≤ limit }
        ensures name { self.new.name ≡ self.old.name }
        ensures extent { self.new.extent ≡ self.old.extent }
        ensures bytes { self.new.bytes.items ≡ self.old.bytes.items }
        ensures some { IfOk result (λ room. 0 < room) }
        ensures chunk { IfOk result (λ room. room ≤ CHUNK) }
        ensures few { IfOk result (λ room. length self.old.bytes.items + room ≤ limit + 1) }
    {
        let seen = self.bytes.len();
        if self.bytes.capacity() == seen {
            self.bytes.reserve(CHUNK)?;
        }
        let room = (self.bytes.capacity() - seen).min(CHUNK);
        let left = (limit - seen as u64).saturating_add(1);
        Ok(left.min(room as u64) as usize)
    }

    /// Reads on in the file that was begun, as far as so many bytes and one more.
    fn read_within(&mut self, limit: u64, chunk: &mut [u8]) -> Result<(), Refused<Failed>>
        requires begun { self.old.extent ≡ Extent.Begun }
        requires few { length self.old.bytes.items ≤ limit }
        requires chunk { CHUNK ≤ length chunk.old }
        ensures name { self.new.name ≡ self.old.name }
        ensures grows { Grows self.old self.new }
        ensures learns { Learns self.old self.new (limit + 1) }
        ensures more { IfOk result (λ u. wanted self.new.extent (length self.new.bytes.items) limit
            < wanted self.old.extent (length self.old.bytes.items) limit) }
    {
        let room = self.next_room(limit)?;
        match self.read_on(&mut chunk[..room]) {
            Ok(()) => Ok(()),
            Err(failed) => Err(Refused::Fault(failed)),
        }
    }

    /// Asks, or reads on, until all of the file was seen, or a byte more than so many.
    pub(crate) fn see(
        &mut self,
        rt: &HostRuntime,
        name: &str,
        limit: u64,
    ) -> Result<(), Refused<Failed>>
        ensures name { self.new.name ≡ self.old.name }
        ensures grows { Grows self.old self.new }
        ensures learns { Learns self.old self.new (limit + 1) }
    {
        self.begin(rt, name, limit)?;
        let mut chunk = [0; CHUNK];
        while self.is_begun_within(limit) {
            self.read_within(limit, &mut chunk)?;
        }
        Ok(())
    }

    /// All bytes of the file, where they were seen.
    pub(crate) fn whole(&self) -> Option<&[u8]>
        ensures whole { option_copied result ≡ whole_of self.now.extent self.now.bytes.items }
        ensures told { (file : Option (Items ℕ)) → HasSeen self.now.extent self.now.bytes.items file
            → IfSome result (λ bytes. file ≡ Some bytes.now) }
    {
        match self.extent {
            Extent::Whole => Some(self.bytes.as_slice()),
            _ => None,
        }
    }

    /// All bytes of the file, where they were seen. They aren't kept from then on.
    pub(crate) fn give(&mut self, alloc: Global) -> Option<Vec<u8>>
        ensures name { self.new.name ≡ self.old.name }
        ensures same { (file : Option (Items ℕ)) → HasSeen self.new.extent self.new.bytes.items file
            ↔ HasSeen self.old.extent self.old.bytes.items file }
        ensures given { option_map (λ bytes. bytes.items) result ≡ whole_of self.old.extent self.old.bytes.items }
    {
        let Extent::Whole = self.extent else {
            return None;
        };
        self.extent = Extent::Given(Snapshot::of(&self.bytes));
        Some(replace(&mut self.bytes, Vec::new(alloc)))
    }

    /// Asks whether there is a file, or reads on in it, as much as has room in the buffer.
    fn ask(&mut self, rt: &HostRuntime, name: &str, at: u64, buf: &mut [u8]) -> Written
        requires some { 0 < length buf.old }
        requires behind { IsBehind self.old.extent self.old.bytes.items at }
        ensures name { self.new.name ≡ self.old.name }
        ensures grows { Grows self.old self.new }
        ensures learns { Learns self.old self.new (at + length buf.old) }
        ensures more { IfOk result (λ u. wanted self.new.extent (length self.new.bytes.items) at
            < wanted self.old.extent (length self.old.bytes.items) at) }
    {
        match self.extent {
            Extent::Unasked => self.open(rt, name),
            Extent::Given(_) => Err(Failed),
            _ => self.read_on(buf),
        }
    }

    /// Asks, or reads on, until what was seen answers a read at this place.
    fn reach(&mut self, rt: &HostRuntime, name: &str, at: u64, buf: &mut [u8]) -> Written
        requires { 0 < length buf.old }
        ensures name { self.new.name ≡ self.old.name }
        ensures grows { Grows self.old self.new }
        ensures learns { Learns self.old self.new (at + length buf.old) }
        ensures reached { IfOk result (λ u. IsReached self.new.extent self.new.bytes.items at) }
    {
        while !self.is_reached(at) {
            self.ask(rt, name, at, buf)?;
        }
        Ok(())
    }

    /// Reads what was seen at this place, or asks the host and sees it.
    pub(crate) fn read(
        &mut self,
        rt: &HostRuntime,
        name: &str,
        at: u64,
        buf: &mut [u8],
    ) -> Result<Got, Failed>
        requires { 0 < length buf.old }
        ensures name { self.new.name ≡ self.old.name }
        ensures grows { Grows self.old self.new }
        ensures learns { Learns self.old self.new (at + length buf.old) }
        ensures some { IfOk result (TookAtMost (length buf.new)) }
        ensures got { IfOk result (λ got. (file : Option (Items ℕ)) → HasSeen self.new.extent self.new.bytes.items file
            → IsGot file at buf.new got) }
    {
        self.reach(rt, name, at, buf)?;
        Ok(self.answer(at, buf))
    }
}
