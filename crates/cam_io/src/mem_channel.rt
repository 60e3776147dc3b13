ghost use Rattle.cam_io.specs.Channels.{begun_name, blank, name_room, named_channel, filled};
ghost use Rattle.std.specs.Option.{option_map};
ghost use Rattle.std.specs.Prelude.{◌≡◌, min, leb, cond, length, take, IfOk};

use cam_base::Made;
use std::alloc::Global;
use std::marker::Model;

const NAME_ROOM: usize = 4096;

/// A channel in memory. The room for its bytes and for a name is reserved, so that filling them takes no memory.
#[derive(Drop)]
pub(crate) struct MemChannel {
    begun: bool,
    name: String,
    bytes: Vec<u8>,
    room: usize,
}

impl Model for MemChannel {
    ghost use Rattle.cam_io.specs.Channels.{Channel, channel_code, name_room};
    ghost use Rattle.std.specs.Prelude.{◌≤◌, ◌+◌, string_bytes, string_capacity, vec_capacity, vec_len};

    ghost Value = { Channel };

    ghost coded = { channel_code };

    ghost view = { λ c. record { begun = c.begun; name = string_bytes c.name; bytes = c.bytes.items; room = c.room } };

    ghost invariant = { λ c. (name_room ≤ string_capacity c.name) × (vec_len c.bytes + c.room ≤ vec_capacity c.bytes) };
}

impl MemChannel {
    /// A channel that isn't begun and holds nothing, with room for so many bytes.
    pub(crate) fn new(alloc: Global, room: usize) -> Made<MemChannel>
        ensures { IfOk result (λ c. c ≡ blank room) }
    {
        Ok(MemChannel {
            begun: false,
            name: String::with_capacity(alloc, NAME_ROOM)?,
            bytes: Vec::with_capacity(alloc, room)?,
            room,
        })
    }

    /// Begins the channel, where there is room for the name.
    pub(crate) fn begin(&mut self, name: &str) -> bool
        ensures room { result ≡ leb (length name.now) name_room }
        ensures channel { self.new ≡ cond result (named_channel self.old name.now) self.old }
    {
        if name.len() > NAME_ROOM {
            return false;
        }
        self.name.clear();
        self.name.push_str(name).unwrap();
        self.begun = true;
        true
    }

    /// Takes as many bytes as there is room for.
    pub(crate) fn take(&mut self, piece: &[u8]) -> usize
        ensures count { result ≡ min (length piece.now) self.old.room }
        ensures channel { self.new ≡ filled self.old result piece.now }
    {
        let count = piece.len().min(self.room);
        self.bytes.extend_from_slice(&piece[..count]).unwrap();
        self.room -= count;
        count
    }

    /// What the channel holds.
    pub(crate) fn bytes(&self) -> &[u8]
        ensures { result.now ≡ self.now.bytes }
    {
        self.bytes.as_slice()
    }

    /// The name that the channel is begun under.
    pub(crate) fn begun(&self) -> Option<&str>
        ensures { option_map (λ s. s.now) result ≡ begun_name self.now }
    {
        if self.begun {
            Some(self.name.as_str())
        } else {
            None
        }
    }
}
