//! The codes of tokens, and what a place holds.

ghost use Rattle.capdl_text.specs.Codes.{field_code, kind_code, level_code, mark_code, name_codes, word_code};
ghost use Rattle.capdl_text.specs.Lexemes.{kind_with, sort_code};
ghost use Rattle.capdl_text.specs.TokensSeen.{text_at};
ghost use Rattle.cam_base.specs.Form.{among};
ghost use Rattle.std.specs.Prelude.{◌≡◌, ℕ};

use cap_model::Level;
use capdl_text::{Field, Mark, Sort, Span, Word};

/// The bytes at a place, as far as there are any.
#[inline(always)]
pub(crate) fn text_at(bytes: &[u8], place: Span) -> &[u8]
    ensures { result.now ≡ text_at bytes.now place }
{
    let first = (place.first as usize).min(bytes.len());
    let rest = &bytes[first..];
    let len = (place.end.saturating_sub(place.first) as usize).min(rest.len());
    &rest[..len]
}

#[inline(always)]
fn level_code(level: Level) -> u8
    ensures { result ≡ level_code level }
{
    level as u8 + 14
}

#[inline(always)]
fn field_code(field: Field) -> u8
    ensures { result ≡ field_code field }
{
    field as u8 + 18
}

#[inline(always)]
fn word_code(word: Word) -> u8
    ensures { result ≡ word_code word }
{
    match word {
        Word::Plain => 0,
        Word::Arch => 1,
        Word::Arm11 => 2,
        Word::Aarch64 => 3,
        Word::Objects => 4,
        Word::Caps => 5,
        Word::Irq => 6,
        Word::Maps => 7,
        Word::Endpoint => 8,
        Word::Notification => 9,
        Word::CNode => 10,
        Word::Bits => 11,
        Word::Thread => 12,
        Word::Frame => 13,
        Word::Pages(level) => level_code(level),
        Word::Field(field) => field_code(field),
        Word::FileData => 25,
        Word::Cspace => 26,
        Word::Vspace => 27,
        Word::Buffer => 28,
        Word::Badge => 29,
        Word::Rights => 30,
        Word::LeftOutRights => 31,
    }
}

#[inline(always)]
fn mark_code(mark: Mark) -> u8
    ensures { result ≡ mark_code mark }
{
    mark as u8 + 35
}

/// The code of each token of this kind, whatever its value.
#[inline(always)]
pub(crate) fn sort_code(sort: Sort) -> u8
    ensures { result ≡ sort_code sort }
{
    match sort {
        Sort::Word(word) => word_code(word),
        Sort::Number => 32,
        Sort::Page => 33,
        Sort::Text => 34,
        Sort::Mark(mark) => mark_code(mark),
    }
}

/// Whether tokens of this kind are words, which may name objects.
#[inline(always)]
pub(crate) fn may_name(sort: Sort) -> bool
    ensures { (n : ℕ) → result ≡ among name_codes (kind_code (kind_with sort n)) }
{
    sort_code(sort) <= 31
}
