//! One step of the lexer.

ghost use Rattle.cam_base.specs.Names.{is_letter, is_word_byte};
ghost use Rattle.cam_base.specs.Numbers.{is_digit};
ghost use Rattle.capdl_text.specs.Gaps.{after_dash, after_slash, is_blank};
ghost use Rattle.capdl_text.specs.Pieces.{Fits, IsNext, IsPiece, digits_taken, mark_taken, text_taken, word_taken};
ghost use Rattle.capdl_text.specs.TokenFaults.{after_run, after_text, digits_fault, is_line_byte, is_star, mark_fault, run, unless, word_fault};
ghost use Rattle.capdl_text.specs.TokenKinds.{digits_kind, mark_of};
ghost use Rattle.capdl_text.specs.Words.{all_fields, word_of};
ghost use Rattle.capdl_text.specs.declared.token.Kind.TheVariants as kinds;
ghost use Rattle.std.specs.Option.{option_map};
ghost use Rattle.std.specs.Prelude.{◌≡◌, ◌∷◌, None, Some, [], if◌then◌else◌};

use crate::digits::{digits_kind, is_left_out_size, is_left_out_word};
use crate::field::FieldTable;
use crate::gap::{dash_comment, slash_comment};
use crate::run::{line, word_run};
use crate::text::text_end;
use crate::token::{Kind, Mark};
use crate::word::word_of;
use cam_base::TextCode;

/// What stands at the front of bytes.
pub(crate) enum Piece<'a> {
    /// A blank or a comment, and the rest behind it.
    Gap(&'a [u8]),
    /// A token, and the rest behind it.
    Token(Kind, &'a [u8]),
    /// A fault, and the bytes that are at fault.
    Bad(TextCode, &'a [u8]),
}

fn is_letter(byte: u8) -> bool
    ensures { result ≡ is_letter byte }
{
    byte.is_ascii_lowercase() || byte.is_ascii_uppercase() || byte == b'_'
}

fn is_blank(byte: u8) -> bool
    ensures { result ≡ is_blank byte }
{
    byte == b' ' || byte == b'\t' || byte == b'\r' || byte == b'\n'
}

/// What stands at the front; nothing where there are no bytes.
pub(crate) fn next_piece<'a>(fields: &FieldTable<7>, bytes: &'a [u8]) -> Option<Piece<'a>>
    requires { fields.now ≡ all_fields }
    ensures { IsNext bytes.now result }
{
    match bytes {
        [] => None,
        [byte, rest @ ..] => Some(piece_at(fields, *byte, bytes, rest)),
    }
}

#[tactic(auto, unfolding(crate::specs::Gaps::one_gap, crate::specs::Pieces::one_token, crate::specs::TokenFaults::fault_at))]
fn piece_at<'a>(fields: &FieldTable<7>, byte: u8, bytes: &'a [u8], rest: &'a [u8]) -> Piece<'a>
    requires table { fields.now ≡ all_fields }
    requires cut { bytes.now ≡ byte ∷ rest.now }
    ensures { IsPiece bytes.now result }
{
    if is_letter(byte) {
        word(fields, bytes)
    } else if byte.is_ascii_digit() {
        digits(bytes)
    } else if is_blank(byte) {
        Piece::Gap(rest)
    } else if byte == b'/' {
        slash(byte, bytes, rest)
    } else if byte == b'-' {
        dash(byte, bytes, rest)
    } else if byte == b'"' {
        text(bytes, rest)
    } else {
        mark(byte, bytes, rest)
    }
}

/// The word at the front.
fn word<'a>(fields: &FieldTable<7>, bytes: &'a [u8]) -> Piece<'a>
    requires { fields.now ≡ all_fields }
    ensures { Fits None (word_taken bytes.now) (word_fault (run is_word_byte bytes.now)) result }
{
    let (text, after) = word_run(bytes);
    if text.len() > 127 {
        return Piece::Bad(TextCode::CapdlLimit, text);
    }
    if is_left_out_word(text) {
        return Piece::Bad(TextCode::CapdlLeftOut, text);
    }
    Piece::Token(Kind::Word(word_of(fields, text)), after)
}

/// The run that begins with a digit.
fn digits(bytes: &[u8]) -> Piece<'_>
    ensures { Fits None (digits_taken bytes.now) (digits_fault (run is_word_byte bytes.now)) result }
{
    let (text, after) = word_run(bytes);
    match digits_kind(text) {
        Some(kind) => Piece::Token(kind, after),
        None if is_left_out_size(text) => Piece::Bad(TextCode::CapdlLeftOut, text),
        None => Piece::Bad(TextCode::CapdlByte, text),
    }
}

/// The comment whose first slash stands before `rest`.
fn slash<'a>(byte: u8, bytes: &'a [u8], rest: &'a [u8]) -> Piece<'a>
    requires cut { bytes.now ≡ byte ∷ rest.now }
    ensures { Fits (after_slash rest.now) None (unless (after_slash rest.now) (if is_star rest.now then bytes.now else byte
        ∷ [])) result }
{
    match slash_comment(rest) {
        Some(after) => Piece::Gap(after),
        None if rest.first() == Some(&b'*') => Piece::Bad(TextCode::CapdlByte, bytes),
        None => Piece::Bad(TextCode::CapdlByte, &bytes[..1]),
    }
}

/// The comment whose first dash stands before `rest`.
fn dash<'a>(byte: u8, bytes: &'a [u8], rest: &'a [u8]) -> Piece<'a>
    requires cut { bytes.now ≡ byte ∷ rest.now }
    ensures { Fits (after_dash rest.now) None (unless (after_dash rest.now) (byte ∷ [])) result }
{
    match dash_comment(rest) {
        Some(after) => Piece::Gap(after),
        None => Piece::Bad(TextCode::CapdlByte, &bytes[..1]),
    }
}

/// The text whose first quote stands before `rest`.
fn text<'a>(bytes: &'a [u8], rest: &'a [u8]) -> Piece<'a>
    ensures { Fits None (text_taken rest.now) (unless (after_text rest.now) (run is_line_byte bytes.now)) result }
{
    match text_end(rest) {
        Some(after) => Piece::Token(Kind::Text, after),
        None => Piece::Bad(TextCode::CapdlByte, line(bytes)),
    }
}

#[tactic(auto, unfolding(crate::specs::TokenKinds::mark_of))]
fn mark_of(byte: u8) -> Option<Mark>
    ensures { result ≡ mark_of byte }
{
    match byte {
        b'{' => Some(Mark::BraceL),
        b'}' => Some(Mark::BraceR),
        b'(' => Some(Mark::ParenL),
        b')' => Some(Mark::ParenR),
        b'[' => Some(Mark::SquareL),
        b']' => Some(Mark::SquareR),
        b'=' => Some(Mark::Equals),
        b':' => Some(Mark::Colon),
        b',' => Some(Mark::Comma),
        _ => None,
    }
}

/// The mark that stands before `rest`.
fn mark<'a>(byte: u8, bytes: &'a [u8], rest: &'a [u8]) -> Piece<'a>
    requires cut { bytes.now ≡ byte ∷ rest.now }
    ensures { Fits None (mark_taken byte rest.now) (mark_fault byte) result }
{
    match mark_of(byte) {
        Some(mark) => Piece::Token(Kind::Mark(mark), rest),
        None => Piece::Bad(TextCode::CapdlByte, &bytes[..1]),
    }
}
