//! What words stand for.

ghost use Rattle.capdl_text.specs.NumberedWords.{numbered_word};
ghost use Rattle.capdl_text.specs.Words.{all_fields, each_once, field_of, has_letter, is_left_out_rights, is_right, is_rights, kind_word, once, part_word, rights_word, slot_word, table_word, word_of};
ghost use Rattle.std.specs.List.{list_all};
ghost use Rattle.std.specs.Prelude.{◌≡◌, ◌==◌, ◌||◌};

use crate::bytes::{ends_in_digit, is};
use crate::field::{Field, FieldTable};
use crate::token::Word;
use cap_model::Level;

fn part_word(text: &[u8]) -> Option<Word>
    ensures { result ≡ part_word text.now }
{
    if is(text, b"arch") {
        Some(Word::Arch)
    } else if is(text, b"arm11") {
        Some(Word::Arm11)
    } else if is(text, b"aarch64") {
        Some(Word::Aarch64)
    } else if is(text, b"objects") {
        Some(Word::Objects)
    } else if is(text, b"caps") {
        Some(Word::Caps)
    } else if is(text, b"irq") {
        Some(Word::Irq)
    } else if is(text, b"maps") {
        Some(Word::Maps)
    } else {
        None
    }
}

fn kind_word(text: &[u8]) -> Option<Word>
    ensures { result ≡ kind_word text.now }
{
    if is(text, b"ep") {
        Some(Word::Endpoint)
    } else if is(text, b"notification") {
        Some(Word::Notification)
    } else if is(text, b"cnode") {
        Some(Word::CNode)
    } else if is(text, b"bits") {
        Some(Word::Bits)
    } else if is(text, b"tcb") {
        Some(Word::Thread)
    } else if is(text, b"frame") {
        Some(Word::Frame)
    } else if is(text, b"CDL_FrameFill_FileData") {
        Some(Word::FileData)
    } else {
        None
    }
}

fn table_word(text: &[u8]) -> Option<Word>
    ensures { result ≡ table_word text.now }
{
    if is(text, b"pgd") {
        Some(Word::Pages(Level::Global))
    } else if is(text, b"pud") {
        Some(Word::Pages(Level::Upper))
    } else if is(text, b"pd") {
        Some(Word::Pages(Level::Directory))
    } else if is(text, b"pt") {
        Some(Word::Pages(Level::Table))
    } else {
        None
    }
}

fn slot_word(text: &[u8]) -> Option<Word>
    ensures { result ≡ slot_word text.now }
{
    if is(text, b"cspace") {
        Some(Word::Cspace)
    } else if is(text, b"vspace") {
        Some(Word::Vspace)
    } else if is(text, b"ipc_buffer_slot") {
        Some(Word::Buffer)
    } else if is(text, b"badge") {
        Some(Word::Badge)
    } else {
        None
    }
}

fn is_right(letter: u8) -> bool
    ensures { result ≡ is_right letter }
{
    letter == b'R' || letter == b'W' || letter == b'G' || letter == b'P'
}

fn once(letter: u8, text: &[u8]) -> bool
    ensures { result ≡ once letter text.now }
{
    text.iter().filter(|b| **b == letter).count() <= 1
}

fn has_letter(letter: u8, text: &[u8]) -> bool
    ensures { result ≡ has_letter letter text.now }
{
    text.iter().any(|b| *b == letter)
}

fn each_once(text: &[u8]) -> bool
    ensures { result ≡ each_once text.now }
{
    once(b'R', text) && once(b'W', text) && once(b'G', text) && once(b'P', text)
}

fn all_rights(text: &[u8]) -> bool
    ensures { result ≡ list_all is_right text.now }
{
    text.iter().all(|b| is_right(*b))
}

fn all_rights_or_x(text: &[u8]) -> bool
    ensures { result ≡ list_all (λ b. is_right b || b == 88) text.now }
{
    text.iter().all(|b| is_right(*b) || *b == b'X')
}

fn is_rights(text: &[u8]) -> bool
    ensures { result ≡ is_rights text.now }
{
    !text.is_empty() && all_rights(text) && each_once(text)
}

fn is_left_out_rights(text: &[u8]) -> bool
    ensures { result ≡ is_left_out_rights text.now }
{
    all_rights_or_x(text) && has_letter(b'X', text) && each_once(text) && once(b'X', text)
}

fn rights_word(text: &[u8]) -> Option<Word>
    ensures { result ≡ rights_word text.now }
{
    if is_rights(text) {
        Some(Word::Rights)
    } else if is_left_out_rights(text) {
        Some(Word::LeftOutRights)
    } else {
        None
    }
}

#[tactic(auto, unfolding(crate::specs::Words::field_of))]
fn field_word(fields: &FieldTable<7>, text: &[u8]) -> Option<Field>
    requires { fields.now ≡ all_fields }
    ensures { result ≡ field_of text.now }
{
    fields.find(text)
}

/// What a word stands for that ends in a digit.
fn numbered_word(text: &[u8]) -> Word
    ensures { result ≡ numbered_word text.now }
{
    if is(text, b"arm11") {
        Word::Arm11
    } else if is(text, b"aarch64") {
        Word::Aarch64
    } else {
        Word::Plain
    }
}

/// What a word stands for.
#[tactic(auto, unfolding(crate::specs::Words::word_of))]
pub(crate) fn word_of(fields: &FieldTable<7>, text: &[u8]) -> Word
    requires { fields.now ≡ all_fields }
    ensures { result ≡ word_of text.now }
{
    if ends_in_digit(text) {
        return numbered_word(text);
    }
    if let Some(word) = part_word(text) {
        return word;
    }
    if let Some(word) = kind_word(text) {
        return word;
    }
    if let Some(word) = table_word(text) {
        return word;
    }
    if let Some(field) = field_word(fields, text) {
        return Word::Field(field);
    }
    if let Some(word) = slot_word(text) {
        return word;
    }
    rights_word(text).unwrap_or(Word::Plain)
}
