//! What a line says.

ghost use Rattle.policy_text.specs.Entries.{label_entry, object_entry, edge_entry, short_entry, long_entry, entry_of};
ghost use Rattle.policy_text.specs.EntriesRead.{meant, fields_behind};
ghost use Rattle.std.specs.List.{position};
ghost use Rattle.std.specs.Option.{option_map};
ghost use Rattle.std.specs.Prelude.{◌≡◌, ◌==◌, ◌<◌, ◌∷◌, length, IfSome};
ghost use Rattle.cam_base.specs.Fields.{fields};

use crate::kind::Kind;
use crate::number::Digits;
use cam_base::{Line, is_word};
use cap_model::{Authority, is_label_name};

/// What a line says, by its fields. Numbers stand as they are written.
#[derive(Clone, Copy)]
pub enum Entry<'a> {
    Label {
        number: Digits<'a>,
        name: &'a [u8],
    },
    Object {
        word: &'a [u8],
        number: Digits<'a>,
    },
    Edge {
        from: Digits<'a>,
        authority: Authority,
        to: Digits<'a>,
    },
}

/// A line, and what it says.
#[derive(Clone, Copy)]
pub struct EntryLine<'a> {
    pub line: Line<'a>,
    pub entry: Entry<'a>,
}

fn space_in(text: &[u8]) -> Option<usize>
    ensures first { result ≡ position (λ b. b == 32) text.now }
    ensures within { IfSome result (λ at. at < length text.now) }
{
    text.iter().position(|b| *b == b' ')
}

/// The first field, and what stands behind the space that ends it.
fn cut(text: &[u8]) -> (&[u8], Option<&[u8]>)
    ensures { fields text.now ≡ result.0.now ∷ fields_behind result.1 }
{
    match space_in(text) {
        Some(at) => (&text[..at], Some(&text[at + 1..])),
        None => (text, None),
    }
}

fn label_entry<'a>(number: &'a [u8], name: &'a [u8]) -> Option<Entry<'a>>
    ensures { option_map meant result ≡ label_entry number.entry.now name.entry.now }
{
    let number = Digits::read(number)?;
    if is_label_name(name) {
        Some(Entry::Label { number, name })
    } else {
        None
    }
}

fn object_entry<'a>(word: &'a [u8], number: &'a [u8]) -> Option<Entry<'a>>
    ensures { option_map meant result ≡ object_entry word.entry.now number.entry.now }
{
    let number = Digits::read(number)?;
    if is_word(word) {
        Some(Entry::Object { word, number })
    } else {
        None
    }
}

fn edge_entry<'a>(from: &'a [u8], authority: &[u8], to: &'a [u8]) -> Option<Entry<'a>>
    ensures { option_map meant result ≡ edge_entry from.entry.now authority.now to.entry.now }
{
    let from = Digits::read(from)?;
    let to = Digits::read(to)?;
    let authority = Authority::find(authority)?;
    Some(Entry::Edge {
        from,
        authority,
        to,
    })
}

/// What a line of three fields says.
fn short_entry<'a>(kind: Kind, word: &[u8], first: &'a [u8], second: &'a [u8]) -> Option<Entry<'a>>
    ensures { option_map meant result ≡ short_entry kind word.now first.entry.now second.entry.now }
{
    match kind {
        Kind::Certificate => None,
        Kind::Policy if word == b"label".as_slice() => label_entry(first, second),
        Kind::Policy if word == b"object".as_slice() => object_entry(first, second),
        Kind::Policy => None,
    }
}

/// What a line of four fields says.
fn long_entry<'a>(word: &[u8], from: &'a [u8], authority: &[u8], to: &'a [u8]) -> Option<Entry<'a>>
    ensures { option_map meant result ≡ long_entry word.now from.entry.now authority.now to.entry.now }
{
    if word == b"edge".as_slice() {
        edge_entry(from, authority, to)
    } else {
        None
    }
}

/// What a line says whose first three fields end by a space.
fn read_long<'a>(
    kind: Kind,
    word: &[u8],
    from: &'a [u8],
    authority: &[u8],
    rest: &'a [u8],
) -> Option<Entry<'a>>
    ensures { option_map meant result ≡ entry_of kind (word.now ∷ from.entry.now ∷ authority.now ∷ fields rest.entry.now) }
{
    let (to, rest) = cut(rest);
    match rest {
        None => long_entry(word, from, authority, to),
        Some(_) => None,
    }
}

/// What a line says, none exactly where it is of no form of the text.
pub fn read_entry(kind: Kind, text: &[u8]) -> Option<Entry<'_>>
    ensures { option_map meant result ≡ entry_of kind (fields text.now) }
{
    let (word, rest) = cut(text);
    let (first, rest) = cut(rest?);
    let (second, rest) = cut(rest?);
    match rest {
        None => short_entry(kind, word, first, second),
        Some(rest) => read_long(kind, word, first, second, rest),
    }
}
