//! One step of the lexer.

ghost use Rattle.adl_lexer.specs.Classes.{class_of, digits, letters, minus, slash};
ghost use Rattle.adl_lexer.specs.Gaps.{after_comment};
ghost use Rattle.adl_lexer.specs.LexFaults.{minus_fault, sign_fault, slash_fault};
ghost use Rattle.adl_lexer.specs.Pieces.{Fits, IsMark, IsNext, IsPiece};
ghost use Rattle.adl_lexer.specs.TokenKinds.{reads, arrow_line, mark_line, token_form};
ghost use Rattle.adl_lexer.specs.declared.piece.Piece.TheVariants as pieces;
ghost use Rattle.cam_base.specs.declared.token.Kind.TheVariants as kinds;
ghost use Rattle.cam_base.specs.Form.{among};
ghost use Rattle.std.specs.Prelude.{◌≡◌, ◌∷◌, None};

use crate::class::{
    BRACE_L, BRACE_R, COLON, COMMA, CROSS, DIGIT, DOT, EQUALS, GREATER, HEX_LETTER, LEFT_OUT, LESS,
    LETTER, MINUS, PAREN_L, PAREN_R, QUOTE, SEMI, SLASH, SQUARE_L, SQUARE_R, ZERO_DIGIT, class,
};
use crate::gap::comment;
use crate::number::number;
use crate::run::is_blank;
use crate::text::{byte_end, less, text};
use crate::word::word;
use cam_base::{Code, Kind, Mark};

/// What stands at the front of bytes.
pub(crate) enum Piece<'a> {
    /// A blank or a comment, and the rest behind it.
    Gap(&'a [u8]),
    /// A token, and the rest behind it.
    Token(Kind, &'a [u8]),
    /// A fault, and the bytes that are at fault.
    Bad(Code, &'a [u8]),
}

/// What stands at the front; nothing where there are no bytes.
pub(crate) fn next_piece(bytes: &[u8]) -> Option<Piece<'_>>
    ensures { IsNext bytes.now result }
{
    match bytes {
        [] => None,
        [byte, rest @ ..] => Some(piece_at(*byte, bytes, rest)),
    }
}

#[tactic(auto, using(crate::proofs::Pieces::slash_piece))]
fn piece_at<'a>(byte: u8, bytes: &'a [u8], rest: &'a [u8]) -> Piece<'a>
    requires { bytes.now ≡ byte ∷ rest.now }
    ensures { IsPiece bytes.now result }
{
    let class = class(byte);
    if is_letter(class) {
        word(bytes)
    } else if is_digit(class) {
        number(bytes)
    } else if is_blank(class) {
        Piece::Gap(rest)
    } else if class == SLASH {
        slash(byte, bytes, rest)
    } else if class == LESS {
        less(byte, bytes, rest)
    } else if class == MINUS {
        minus(byte, bytes, rest)
    } else if class == QUOTE {
        text(byte, bytes, rest)
    } else {
        sign(byte, bytes, rest)
    }
}

fn is_letter(class: u8) -> bool
    ensures { result ≡ among letters class }
{
    class == LETTER || class == HEX_LETTER || class == CROSS
}

fn is_digit(class: u8) -> bool
    ensures { result ≡ among digits class }
{
    class == ZERO_DIGIT || class == DIGIT
}

/// The comment whose first slash stands before `rest`.
fn slash<'a>(byte: u8, bytes: &'a [u8], rest: &'a [u8]) -> Piece<'a>
    requires cut { bytes.now ≡ byte ∷ rest.now }
    requires begins { class_of byte ≡ slash }
    ensures { Fits (reads token_form bytes.now) (slash_fault bytes.now) (after_comment rest.now) result }
{
    match comment(rest) {
        Some(after) => Piece::Gap(after),
        None if rest.first() == Some(&b'*') => Piece::Bad(Code::Unclosed, bytes),
        None => Piece::Bad(Code::LeftOut, &bytes[..1]),
    }
}

/// `->`, whose `-` stands before `rest`.
#[tactic(auto, using(crate::proofs::Readings::arrow_read))]
fn minus<'a>(byte: u8, bytes: &'a [u8], rest: &'a [u8]) -> Piece<'a>
    requires cut { bytes.now ≡ byte ∷ rest.now }
    requires begins { class_of byte ≡ minus }
    ensures { Fits (reads arrow_line bytes.now) (minus_fault bytes.now) None result }
{
    match byte_end(GREATER, rest) {
        Some(after) => Piece::Token(Kind::Mark(Mark::Arrow), after),
        None => Piece::Bad(Code::LeftOut, &bytes[..1]),
    }
}

/// The mark that stands before `rest`, or the byte's fault.
#[tactic(auto, unfolding(crate::specs::TokenKinds::mark_line))]
fn sign<'a>(byte: u8, bytes: &'a [u8], rest: &'a [u8]) -> Piece<'a>
    requires cut { bytes.now ≡ byte ∷ rest.now }
    ensures { Fits (reads mark_line bytes.now) (sign_fault bytes.now) None result }
{
    match class(byte) {
        DOT => mark(Mark::Dot, rest),
        BRACE_L => mark(Mark::BraceL, rest),
        BRACE_R => mark(Mark::BraceR, rest),
        PAREN_L => mark(Mark::ParenL, rest),
        PAREN_R => mark(Mark::ParenR, rest),
        SQUARE_L => mark(Mark::SquareL, rest),
        SQUARE_R => mark(Mark::SquareR, rest),
        SEMI => mark(Mark::Semi, rest),
        COMMA => mark(Mark::Comma, rest),
        EQUALS => mark(Mark::Equals, rest),
        COLON => mark(Mark::Colon, rest),
        LEFT_OUT => Piece::Bad(Code::LeftOut, &bytes[..1]),
        _ => Piece::Bad(Code::Byte, &bytes[..1]),
    }
}

fn mark(mark: Mark, rest: &[u8]) -> Piece<'_>
    ensures { IsMark mark rest.now result }
{
    Piece::Token(Kind::Mark(mark), rest)
}
