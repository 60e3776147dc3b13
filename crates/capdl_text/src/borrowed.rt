//! Names and texts where they stand.

ghost use Rattle.cam_base.specs.Names.{is_name, named};
ghost use Rattle.std.specs.Prelude.{◌≡◌, IsTrue};

use cam_base::is_name;
use std::marker::Model;

/// A name where it stands. Contracts see it as the list of its bytes.
#[derive(Drop)]
pub struct NameAt<'x> {
    bytes: &'x [u8],
}

impl<'x> Model for NameAt<'x> {
    ghost use Rattle.cam_base.specs.Names.{is_name};
    ghost use Rattle.std.specs.Prelude.{List, ℕ, IsTrue};

    ghost Value = { List ℕ };

    ghost view = { λ n. n.bytes.now };

    ghost invariant = { λ n. IsTrue (is_name n.bytes.now) };
}

impl<'x> NameAt<'x> {
    /// The name that these bytes are. Other bytes stand for `_`.
    pub fn new(bytes: &'x [u8]) -> NameAt<'x>
        ensures { result ≡ named bytes.now }
    {
        if is_name(bytes) {
            NameAt { bytes }
        } else {
            NameAt { bytes: b"_" }
        }
    }

    /// The bytes of the name.
    pub fn as_bytes(&self) -> &'x [u8]
        ensures bytes { result.now ≡ self.now }
        ensures name { IsTrue (is_name self.now) }
    {
        self.bytes
    }
}

/// A text where it stands. Contracts see it as the list of its bytes.
#[derive(Drop)]
pub struct TextAt<'x> {
    bytes: &'x [u8],
}

impl<'x> Model for TextAt<'x> {
    ghost use Rattle.std.specs.Prelude.{List, ℕ};

    ghost Value = { List ℕ };

    ghost view = { λ t. t.bytes.now };
}

impl<'x> TextAt<'x> {
    /// These bytes.
    pub fn new(bytes: &'x [u8]) -> TextAt<'x>
        ensures { result ≡ bytes.now }
    {
        TextAt { bytes }
    }

    /// The bytes.
    pub fn as_bytes(&self) -> &'x [u8]
        ensures { result.now ≡ self.now }
    {
        self.bytes
    }
}
