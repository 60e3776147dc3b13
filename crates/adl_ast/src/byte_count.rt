ghost use Rattle.std.specs.Prelude.{◌≡◌, length};

use cam_base::List;
use std::marker::Model;
use std::snapshot::Snapshot;

/// The bytes of a file, of which only the number is kept. Contracts see it as the list of the bytes.
#[derive(Drop)]
pub struct ByteCount {
    count: usize,
    bytes: Snapshot<List<u8>>,
}

impl Model for ByteCount {
    ghost use Rattle.std.specs.Prelude.{◌≡◌, length, List as Items, ℕ};

    ghost Value = { Items ℕ };

    ghost view = { λ b. b.bytes.value };

    ghost invariant = { λ b. b.count ≡ length b.bytes.value };
}

impl ByteCount {
    /// The number of these bytes. Takes no memory.
    pub fn of(bytes: &List<u8>) -> ByteCount
        ensures { result ≡ bytes.now }
    {
        ByteCount {
            count: bytes.len(),
            bytes: Snapshot::of(bytes),
        }
    }

    /// How many bytes there are.
    pub fn len(&self) -> usize
        ensures { result ≡ length self.now }
    {
        self.count
    }
}
