//! Where a name keeps its bytes.

ghost use Rattle.cam_base.specs.NameBytes.{bytes_of};
ghost use Rattle.std.specs.Prelude.{◌≡◌, ◌≤◌, ◌<◌, ◌+◌, ◌++◌, length, IfOk};

use crate::Made;
use std::alloc::Global;
use std::marker::Model;

/// Up to `N` bytes, in place. Contracts see it as the list of them.
#[derive(Drop)]
pub(crate) struct Packed<const N: usize> {
    count: u8,
    bytes: [u8; N],
}

impl<const N: usize> Model for Packed<N> {
    ghost use Rattle.std.specs.Prelude.{◌≤◌, List, ℕ, take};

    ghost Value = { List ℕ };

    ghost view = { λ p. take p.count p.bytes };

    ghost invariant = { λ p. p.count ≤ N };
}

impl<const N: usize> Packed<N> {
    /// A copy of the bytes.
    pub(crate) fn of(bytes: &[u8]) -> Packed<N>
        requires place { length bytes.now ≤ N }
        requires few { length bytes.now < 256 }
        ensures { result ≡ bytes.now }
    {
        let mut kept = [0; N];
        kept[..bytes.len()].copy_from_slice(bytes);
        Packed {
            count: bytes.len() as u8,
            bytes: kept,
        }
    }

    /// A copy of these bytes and of those behind them.
    fn joined(front: &[u8], back: &[u8]) -> Packed<N>
        requires place { length front.now + length back.now ≤ N }
        requires few { length front.now + length back.now < 256 }
        ensures { result ≡ front.now ++ back.now }
    {
        let count = front.len() + back.len();
        let mut kept = [0; N];
        let places = &mut kept[..];
        places[..front.len()].copy_from_slice(front);
        places[front.len()..count].copy_from_slice(back);
        Packed {
            count: count as u8,
            bytes: kept,
        }
    }

    /// The bytes.
    pub(crate) fn as_slice(&self) -> &[u8]
        ensures { result.now ≡ self.now }
    {
        &self.bytes[..self.count as usize]
    }

    /// Equal bytes, copied with the places behind them.
    fn copy(&self) -> Packed<N>
        ensures { result ≡ self.now }
    {
        Packed {
            count: self.count,
            bytes: self.bytes,
        }
    }
}

/// Up to 127 bytes: up to 14 take no memory of their own.
#[derive(Drop)]
pub(crate) enum NameBytes {
    Short(Packed<14>),
    Middle(Box<Packed<39>>),
    Long(Box<Packed<127>>),
}

impl NameBytes {
    /// A copy of the bytes.
    pub(crate) fn of(alloc: Global, bytes: &[u8]) -> Made<NameBytes>
        requires { length bytes.now ≤ 127 }
        ensures { IfOk result (λ b. bytes_of b ≡ bytes.now) }
    {
        if bytes.len() <= 14 {
            Ok(NameBytes::Short(Packed::of(bytes)))
        } else if bytes.len() <= 39 {
            Ok(NameBytes::Middle(Box::new(alloc, Packed::of(bytes))?))
        } else {
            Ok(NameBytes::Long(Box::new(alloc, Packed::of(bytes))?))
        }
    }

    /// A copy of these bytes and of those behind them.
    pub(crate) fn joined(alloc: Global, front: &[u8], back: &[u8]) -> Made<NameBytes>
        requires { length front.now + length back.now ≤ 127 }
        ensures { IfOk result (λ b. bytes_of b ≡ front.now ++ back.now) }
    {
        if front.len() + back.len() <= 14 {
            Ok(NameBytes::Short(Packed::joined(front, back)))
        } else {
            NameBytes::of(alloc, Packed::<127>::joined(front, back).as_slice())
        }
    }

    /// Equal bytes.
    pub(crate) fn copy(&self, alloc: Global) -> Made<NameBytes>
        ensures { IfOk result (λ b. bytes_of b ≡ bytes_of self.now) }
    {
        match self {
            NameBytes::Short(bytes) => Ok(NameBytes::Short(bytes.copy())),
            NameBytes::Middle(bytes) => Ok(NameBytes::Middle(Box::new(alloc, bytes.copy())?)),
            NameBytes::Long(bytes) => Ok(NameBytes::Long(Box::new(alloc, bytes.copy())?)),
        }
    }

    /// The bytes.
    pub(crate) fn as_slice(&self) -> &[u8]
        ensures { result.now ≡ bytes_of self.now }
    {
        match self {
            NameBytes::Short(bytes) => bytes.as_slice(),
            NameBytes::Middle(bytes) => bytes.as_slice(),
            NameBytes::Long(bytes) => bytes.as_slice(),
        }
    }
}
