ghost use Rattle.cam_base.specs.Names.{is_letter, is_word_byte, is_name, is_word};
ghost use Rattle.cam_base.specs.declared.error.Refused.TheVariants.{Fault};
ghost use Rattle.std.proofs.Common.{rules};
ghost use Rattle.std.specs.Cmp.{partial_order_from_own_ties};
ghost use Rattle.std.specs.Cmp.Lexicographic.{slice_cmp};
ghost use Rattle.std.specs.Cmp.Rules.{comparing, hashing};
ghost use Rattle.std.specs.Hash as fed;
ghost use Rattle.std.specs.List.{list_all};
ghost use Rattle.std.specs.Ordering.{nat_cmp, as_partial_cmp};
ghost use Rattle.std.specs.Prelude.{◌≡◌, ◌++◌, false, IfOk, IsErrOf, ◌↔◌, IsTrue};
ghost use Rattle.std.specs.Str.{bytes_eq};

use crate::name_bytes::{NameBytes, Packed};
use crate::{Made, Refused};
use std::alloc::Global;
use std::cmp::Ordering;
use std::default::MadeWith;
use std::hash::{Hash, Hasher};
use std::marker::Model;
use thiserror::Error;

/// The bytes are no identifier of 1 to 127 bytes.
#[derive(Clone, Copy, Debug, Error)]
#[error("not a name")]
pub struct BadName;

/// An identifier of 1 to 127 bytes, keywords included; up to 14 bytes take no memory of their own. Contracts see it as the list
/// of its bytes.
#[derive(Drop)]
pub struct Name {
    bytes: NameBytes,
}

impl Model for Name {
    ghost use Rattle.cam_base.specs.NameBytes.{bytes_of};
    ghost use Rattle.cam_base.specs.Names.{is_name};
    ghost use Rattle.std.specs.Prelude.{List, ℕ, IsTrue};

    ghost Value = { List ℕ };

    ghost view = { λ n. bytes_of n.bytes };

    ghost invariant = { λ n. IsTrue (is_name (bytes_of n.bytes)) };
}

fn is_letter(byte: u8) -> bool
    ensures { result ≡ is_letter byte }
{
    byte.is_ascii_lowercase() || byte.is_ascii_uppercase() || byte == b'_'
}

/// For each byte, whether it may stand in a word behind the first: 1 or 0.
const WORD_BYTES: &[u8; 256] = &[
    0, 0, 0, 0, 0, 0, 0, 0, 0, 0, 0, 0, 0, 0, 0, 0, 0, 0, 0, 0, 0, 0, 0, 0, 0, 0, 0, 0, 0, 0, 0, 0,
    0, 0, 0, 0, 0, 0, 0, 0, 0, 0, 0, 0, 0, 0, 0, 0, 1, 1, 1, 1, 1, 1, 1, 1, 1, 1, 0, 0, 0, 0, 0, 0,
    0, 1, 1, 1, 1, 1, 1, 1, 1, 1, 1, 1, 1, 1, 1, 1, 1, 1, 1, 1, 1, 1, 1, 1, 1, 1, 1, 0, 0, 0, 0, 1,
    0, 1, 1, 1, 1, 1, 1, 1, 1, 1, 1, 1, 1, 1, 1, 1, 1, 1, 1, 1, 1, 1, 1, 1, 1, 1, 1, 0, 0, 0, 0, 0,
    0, 0, 0, 0, 0, 0, 0, 0, 0, 0, 0, 0, 0, 0, 0, 0, 0, 0, 0, 0, 0, 0, 0, 0, 0, 0, 0, 0, 0, 0, 0, 0,
    0, 0, 0, 0, 0, 0, 0, 0, 0, 0, 0, 0, 0, 0, 0, 0, 0, 0, 0, 0, 0, 0, 0, 0, 0, 0, 0, 0, 0, 0, 0, 0,
    0, 0, 0, 0, 0, 0, 0, 0, 0, 0, 0, 0, 0, 0, 0, 0, 0, 0, 0, 0, 0, 0, 0, 0, 0, 0, 0, 0, 0, 0, 0, 0,
    0, 0, 0, 0, 0, 0, 0, 0, 0, 0, 0, 0, 0, 0, 0, 0, 0, 0, 0, 0, 0, 0, 0, 0, 0, 0, 0, 0, 0, 0, 0, 0,
];

/// Whether a byte may stand in a word behind its first byte.
#[tactic(auto, using(crate::proofs::WordBytes::in_word_bytes))]
#[inline(always)]
pub fn is_word_byte(byte: u8) -> bool
    ensures { result ≡ is_word_byte byte }
{
    WORD_BYTES[byte as usize] == 1
}

fn all_word_bytes(bytes: &[u8]) -> bool
    ensures { result ≡ list_all is_word_byte bytes.now }
{
    bytes.iter().all(|b| is_word_byte(*b))
}

/// Whether the bytes are an identifier of any length.
pub fn is_word(bytes: &[u8]) -> bool
    ensures { result ≡ is_word bytes.now }
{
    match bytes {
        [] => false,
        [first, rest @ ..] => is_letter(*first) && all_word_bytes(rest),
    }
}

/// Whether the bytes are an identifier of 1 to 127 bytes.
pub fn is_name(bytes: &[u8]) -> bool
    ensures { result ≡ is_name bytes.now }
{
    match bytes {
        [] => false,
        [first, rest @ ..] => rest.len() <= 126 && is_letter(*first) && all_word_bytes(rest),
    }
}

/// The name `_`, which fills the unused places of a path. Takes no memory.
impl MadeWith<Global> for Name {
    ghost use Rattle.std.specs.Prelude.{◌≡◌, ◌∷◌, []};

    ghost is_made_with = { λ name. name ≡ 95 ∷ [] };

    fn made_with(_: Global) -> Name {
        Name {
            bytes: NameBytes::Short(Packed::of(b"_")),
        }
    }
}

impl Name {
    /// A copy of the bytes, or `BadName` exactly where they aren't an identifier of 1 to 127 bytes.
    pub fn new(alloc: Global, bytes: &[u8]) -> Result<Name, Refused<BadName>>
        ensures ok { IfOk result (λ name. name ≡ bytes.now) }
        ensures bad { IsErrOf result (Refused.Fault (record {})) ↔ (is_name bytes.now ≡ false) }
    {
        if !is_name(bytes) {
            return Err(Refused::Fault(BadName));
        }
        Ok(Name::of_identifier(alloc, bytes)?)
    }

    /// A copy of the bytes, which are known to be an identifier of 1 to 127 bytes.
    #[tactic(auto, using(crate::proofs::Naming::name_short))]
    pub fn of_identifier(alloc: Global, bytes: &[u8]) -> Made<Name>
        requires { IsTrue (is_name bytes.now) }
        ensures { IfOk result (λ name. name ≡ bytes.now) }
    {
        Ok(Name {
            bytes: NameBytes::of(alloc, bytes)?,
        })
    }

    /// A copy of these bytes and of those behind them, which together are known to be an identifier of 1 to 127 bytes.
    #[tactic(auto, using(crate::proofs::Naming::parts_short))]
    pub fn of_parts(alloc: Global, front: &[u8], back: &[u8]) -> Made<Name>
        requires { IsTrue (is_name (front.now ++ back.now)) }
        ensures { IfOk result (λ name. name ≡ front.now ++ back.now) }
    {
        Ok(Name {
            bytes: NameBytes::joined(alloc, front, back)?,
        })
    }

    /// The bytes, which are an identifier.
    pub fn as_bytes(&self) -> &[u8]
        ensures bytes { result.now ≡ self.now }
        ensures name { IsTrue (is_name self.now) }
    {
        self.bytes.as_slice()
    }

    /// An equal name.
    pub fn copy(&self, alloc: Global) -> Made<Name>
        ensures { IfOk result (λ name. name ≡ self.now) }
    {
        Ok(Name {
            bytes: self.bytes.copy(alloc)?,
        })
    }
}

impl PartialEq for Name {
    ghost eq = { bytes_eq };

    ghost laws = { Prim.search (comparing, rules) };

    fn eq(&self, other: &Name) -> bool {
        self.as_bytes() == other.as_bytes()
    }
}

impl Eq for Name {
    ghost laws = { Prim.search (comparing, rules) };
}

impl Ord for Name {
    ghost cmp = { slice_cmp nat_cmp };

    ghost total = { Prim.search (comparing, rules) };

    ghost matches_partial_cmp = { Prim.search (comparing, rules) };

    ghost matches_eq = { Prim.search (comparing, rules) };

    fn cmp(&self, other: &Name) -> Ordering {
        self.as_bytes().cmp(other.as_bytes())
    }
}

impl PartialOrd for Name {
    ghost partial_cmp = { as_partial_cmp (slice_cmp nat_cmp) };

    ghost laws = { partial_order_from_own_ties (Prim.search (comparing, rules)) (Prim.search (comparing, rules)) };

    fn partial_cmp(&self, other: &Name) -> Option<Ordering> {
        Some(self.cmp(other))
    }
}

impl Hash for Name {
    ghost hash_input = { fed.slice fed.u8 };

    ghost respects_eq = { Prim.search (hashing, rules) };

    fn hash<H: Hasher>(&self, state: &mut H) {
        self.as_bytes().hash(state)
    }
}
