//! The fields of objects, by their words.

ghost use Rattle.capdl_text.specs.Words.{all_fields, field_among, field_text};
ghost use Rattle.std.specs.Prelude.{◌≡◌};

use crate::bytes::is;
use std::marker::Model;

/// A field of a thread or a frame. Its word is its name in lower case.
#[derive(Clone, Copy, Debug, PartialEq, Eq)]
pub enum Field {
    Addr,
    Ip,
    Sp,
    Prio,
    Elf,
    Paddr,
    Fill,
}

/// Fields, one a row, to be found by their words. Contracts see it as the list of its rows.
#[derive(Drop)]
pub struct FieldTable<const N: usize> {
    rows: [Field; N],
}

impl<const N: usize> Model for FieldTable<N> {
    ghost use Rattle.capdl_text.specs.declared.field.Field.{Field};
    ghost use Rattle.std.specs.Prelude.{List};

    ghost Value = { List Field };

    ghost view = { λ t. t.rows };
}

macro_rules! rows {
    ($($field:ident),* $(,)?) => { [$(Field::$field),*] };
}

/// The table of all fields. Takes no memory.
pub fn fields() -> FieldTable<7>
    ensures { result ≡ all_fields }
{
    FieldTable {
        rows: rows![Addr, Ip, Sp, Prio, Elf, Paddr, Fill],
    }
}

impl<const N: usize> FieldTable<N> {
    /// The field of the first row that has this word; none exactly where no row has it. Takes no memory.
    pub fn find(&self, word: &[u8]) -> Option<Field>
        ensures { result ≡ field_among self.now word.now }
    {
        among(&self.rows, word)
    }
}

/// The first of these fields that has this word.
fn among(fields: &[Field], word: &[u8]) -> Option<Field>
    ensures { result ≡ field_among fields.now word.now }
{
    for field in fields {
        if is(text(*field), word) {
            return Some(*field);
        }
    }
    None
}

/// The word of a field.
fn text(field: Field) -> &'static [u8]
    ensures { result.now ≡ field_text field }
{
    match field {
        Field::Addr => b"addr",
        Field::Ip => b"ip",
        Field::Sp => b"sp",
        Field::Prio => b"prio",
        Field::Elf => b"elf",
        Field::Paddr => b"paddr",
        Field::Fill => b"fill",
    }
}
