ghost use Rattle.cap_model.specs.Kinds.{kind_at};
ghost use Rattle.cap_model.specs.Lookup.{name_at, object_at, place_of};
ghost use Rattle.std.specs.Option.{option_map};
ghost use Rattle.std.specs.Prelude.{◌≡◌, ◌<◌, ◌^◌, length, IfSome};

use crate::{Arch, Kind, Object};
use cam_base::{List, Name};

/// An object under its name.
#[derive(Drop)]
pub struct Entry {
    pub name: Name,
    pub object: Object,
}

/// A system: its objects, which are named by their place, and its interrupt lines, each with its interrupt object,
/// sorted by number.
#[derive(Drop)]
pub struct Spec {
    pub arch: Arch,
    pub entries: List<Entry>,
    pub irqs: List<(u64, u32)>,
}

impl Spec {
    /// The place of the first object of that name, `None` exactly where no object has it. Takes no memory.
    pub fn find(&self, name: &[u8]) -> Option<u32>
        requires { length self.now.entries < 2 ^ 32 }
        ensures { result ≡ place_of self.now.entries name.now }
    {
        let place = first_named(self.entries.as_slice(), name)?;
        Some(place as u32)
    }

    /// The object at a place, `None` exactly where there is none. Takes no memory.
    pub fn object(&self, place: u32) -> Option<&Object>
        ensures { option_map (λ o. o.now) result ≡ object_at self.now place }
    {
        match self.entries.as_slice().get(place as usize) {
            Some(entry) => Some(&entry.object),
            None => None,
        }
    }

    /// The name of the object at a place, empty where there is none. Takes no memory.
    pub fn name(&self, place: u32) -> &[u8]
        ensures { result.now ≡ name_at self.now place }
    {
        match self.entries.as_slice().get(place as usize) {
            Some(entry) => entry.name.as_bytes(),
            None => b"",
        }
    }

    /// The kind of the object at a place, `None` exactly where there is none. Takes no memory.
    pub fn kind(&self, place: u32) -> Option<Kind>
        ensures { result ≡ kind_at self.now place }
    {
        match self.object(place) {
            Some(object) => Some(object.kind()),
            None => None,
        }
    }
}

fn first_named(entries: &[Entry], name: &[u8]) -> Option<usize>
    ensures place { result ≡ place_of entries.now name.now }
    ensures below { IfSome result (λ place. place < length entries.now) }
{
    entries
        .iter()
        .position(|entry| entry.name.as_bytes() == name)
}
