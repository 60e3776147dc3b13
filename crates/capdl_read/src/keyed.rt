//! What is told from others of its kind by a key, and keys in rising order, as most texts have them.

ghost use Rattle.capdl_read.specs.Rising.{is_above, rises};
ghost use Rattle.capdl_text.specs.Twice.{Keyed as KeyedAt, frame_key, frame_keyed, irq_keyed, param_keyed, slot_key, slot_keyed, thread_key, thread_keyed};
ghost use Rattle.std.specs.Prelude.{◌≡◌, None as Absent};

use capdl_text::{
    FrameField, FrameValue, IrqLine, Param, SlotKey, SlotLine, Span, ThreadField, ThreadValue,
};

/// What is told from others of its kind by a key.
pub(crate) trait Keyed {
    ghost keyed_as: { Self → KeyedAt };

    /// The key, and where it stands.
    fn keyed(&self) -> ((u8, u64), Span)
        ensures { result ≡ keyed_as self.now };
}

impl<'x> Keyed for ThreadField<'x> {
    ghost keyed_as = { thread_keyed };

    fn keyed(&self) -> ((u8, u64), Span) {
        let kind = match &self.value {
            ThreadValue::Addr(_) => 0,
            ThreadValue::Ip(_) => 1,
            ThreadValue::Sp(_) => 2,
            ThreadValue::Elf(_) => 3,
            ThreadValue::Prio(_) => 4,
        };
        ((kind, 0), self.place)
    }
}

impl<'x> Keyed for FrameField<'x> {
    ghost keyed_as = { frame_keyed };

    fn keyed(&self) -> ((u8, u64), Span) {
        let kind = match &self.value {
            FrameValue::Paddr(_) => 0,
            FrameValue::Fill(_) => 1,
        };
        ((kind, 0), self.place)
    }
}

impl<'x> Keyed for SlotLine<'x> {
    ghost keyed_as = { slot_keyed };

    fn keyed(&self) -> ((u8, u64), Span) {
        let key = match self.key {
            SlotKey::Number(n) => (0, n),
            SlotKey::Cspace => (1, 0),
            SlotKey::Vspace => (2, 0),
            SlotKey::Buffer => (3, 0),
        };
        (key, self.place)
    }
}

impl Keyed for Param {
    ghost keyed_as = { param_keyed };

    fn keyed(&self) -> ((u8, u64), Span) {
        match *self {
            Param::Rights(_, place) => ((0, 0), place),
            Param::Badge(place, _) => ((1, 0), place),
        }
    }
}

impl<'x> Keyed for IrqLine<'x> {
    ghost keyed_as = { irq_keyed };

    fn keyed(&self) -> ((u8, u64), Span) {
        ((0, self.number.value), self.number.place)
    }
}

/// Whether the key is above the last, where there is a last.
pub(crate) fn is_above(last: Option<(u8, u64)>, next: (u8, u64)) -> bool
    ensures { result ≡ is_above last next }
{
    match last {
        None => true,
        Some(last) => last.0 < next.0 || last.0 == next.0 && last.1 < next.1,
    }
}

/// Whether each key is above the one before it.
pub(crate) fn rise<K: Keyed>(items: &[K]) -> bool
    ensures { result ≡ rises K.keyed_as Absent items.now }
{
    let mut last = None;
    for item in items {
        let (key, _) = item.keyed();
        if !is_above(last, key) {
            return false;
        }
        last = Some(key);
    }
    true
}
