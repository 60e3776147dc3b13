//! The threads of a spec by name.

ghost use Rattle.indexmap.specs.IndexMap.{get_by};
ghost use Rattle.std.specs.Option.{option_or};
ghost use Rattle.std.specs.Prelude.{◌≡◌, ◌<◌, ◌^◌, ◌&&◌, IfOk, OnOk, List, ℕ, None, Some, if◌then◌else◌, length};
ghost use Rattle.std.specs.Str.{bytes_eq};
ghost use Rattle.step_text.specs.Found.{found_in, named};
ghost use Rattle.step_text.specs.Threads.{thread_named, is_thread};

use cam_base::Made;
use cap_model::{Entry, Object, Spec};
use indexmap::IndexMap;
use std::alloc::Global;

/// A table of the places of a spec's threads.
#[derive(Drop)]
pub struct Threads<'a> {
    pub places: IndexMap<&'a [u8], u32>,
}

impl<'a> Threads<'a> {
    /// The threads of the spec. The first counts where two have one name.
    pub fn of(alloc: Global, spec: &'a Spec) -> Made<Threads<'a>>
        requires { length spec.now.entries < 2 ^ 32 }
        ensures { IfOk result (λ threads. found_in threads ≡ thread_named spec.entry.now) }
    {
        let mut threads = Threads {
            places: IndexMap::new(alloc),
        };
        let entries = spec.entries.as_slice();
        for (place, entry) in entries.iter().enumerate() {
            threads.add(entry, place as u32)?;
        }
        Ok(threads)
    }

    /// Adds the object, if it is a thread and no thread of that name is there.
    fn add(&mut self, entry: &'a Entry, place: u32) -> Made<()>
        ensures { OnOk result ((name : List ℕ) → found_in self.new name
            ≡ option_or (found_in self.old name)
            (if is_thread entry.entry.now.object && bytes_eq entry.entry.now.name name then Some place else None)) }
    {
        match &entry.object {
            Object::Thread(_) => self.add_name(entry.name.as_bytes(), place),
            _ => Ok(()),
        }
    }

    /// Adds the name, unless it is there.
    fn add_name(&mut self, name: &'a [u8], place: u32) -> Made<()>
        ensures { OnOk result ((other : List ℕ) → found_in self.new other
            ≡ option_or (found_in self.old other) (if bytes_eq name.entry.now other then Some place else None)) }
    {
        if self.places.contains_key(name) {
            return Ok(());
        }
        self.places.insert(name, place)?;
        Ok(())
    }

    /// The place of the thread of that name. Takes no memory.
    pub fn find(&self, name: &[u8]) -> Option<u32>
        ensures { result ≡ found_in self.now name.now }
    {
        self.places.get(name).copied()
    }
}
