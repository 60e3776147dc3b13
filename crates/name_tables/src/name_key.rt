//! Names as keys of tables.

ghost use Rattle.std.proofs.Common.{rules};
ghost use Rattle.std.proofs.lemmas.Slice.Eq.{bytes_eq-Decides};
ghost use Rattle.std.specs.Cmp.Rules.{comparing};
ghost use Rattle.std.specs.Hash.{same_Alike};
ghost use Rattle.std.specs.Prelude.{[], ◌∷◌};
ghost use Rattle.std.specs.Str.{bytes_eq};

use std::hash::{Hash, Hasher};
use std::marker::Model;

/// The bytes of a name, which are hashed in one piece. Contracts see them as the bytes.
#[derive(Drop)]
pub struct NameKey<'a> {
    pub bytes: &'a [u8],
}

impl<'a> Model for NameKey<'a> {
    ghost use Rattle.std.specs.Prelude.{List, ℕ};

    ghost Value = { List ℕ };

    ghost view = { λ k. k.bytes.now };
}

impl<'a> PartialEq for NameKey<'a> {
    ghost eq = { bytes_eq };

    ghost laws = { Prim.search (comparing, rules) };

    fn eq(&self, other: &NameKey<'a>) -> bool {
        self.bytes == other.bytes
    }
}

impl<'a> Eq for NameKey<'a> {
    ghost laws = { Prim.search (comparing, rules) };
}

impl<'a> Hash for NameKey<'a> {
    ghost hash_input = { λ k. k ∷ [] };

    ghost respects_eq = { (same_Alike (λ k. k ∷ []) bytes_eq-Decides).fed };

    fn hash<H: Hasher>(&self, state: &mut H) {
        state.write(self.bytes)
    }
}
