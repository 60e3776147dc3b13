//! Texts and angle names.

ghost use Rattle.adl_lexer.specs.Classes.{class_of, less, quote};
ghost use Rattle.adl_lexer.specs.LexFaults.{after_angle, after_byte, after_text, less_fault, text_fault};
ghost use Rattle.adl_lexer.specs.Pieces.{Fits};
ghost use Rattle.adl_lexer.specs.TokenKinds.{reads, text_line, less_line};
ghost use Rattle.std.specs.Prelude.{◌≡◌, ◌∷◌, None, option_map};

use crate::class::{BACKSLASH, DIGIT, DOT, GREATER, LINE_FEED, MINUS, QUOTE, SLASH, class};
use crate::piece::Piece;
use crate::run::{angle_end, line};
use cam_base::{Code, Kind, Mark};

/// The text whose first quote stands before `rest`.
#[tactic(auto, using(crate::proofs::Readings::text_read))]
pub(crate) fn text<'a>(byte: u8, bytes: &'a [u8], rest: &'a [u8]) -> Piece<'a>
    requires cut { bytes.now ≡ byte ∷ rest.now }
    requires begins { class_of byte ≡ quote }
    ensures { Fits (reads text_line bytes.now) (text_fault bytes.now) None result }
{
    match text_end(rest) {
        Some(after) => Piece::Token(Kind::Text, after),
        None => Piece::Bad(Code::Unclosed, line(bytes)),
    }
}

/// What is behind the quote that ends a text, whose first quote stands before.
fn text_end(bytes: &[u8]) -> Option<&[u8]>
    ensures { option_map (λ r. r.now) result ≡ after_text bytes.now }
{
    let mut rest = bytes;
    'text: while let [byte, tail @ ..] = rest {
        match class(*byte) {
            QUOTE => return Some(tail),
            LINE_FEED => return None,
            BACKSLASH => match tail {
                [escaped, after @ ..] if class(*escaped) != LINE_FEED => rest = after,
                _ => return None,
            },
            _ => rest = tail,
        }
    }
    None
}

/// `<-` or the angle name, whose `<` stands before `rest`.
#[tactic(auto, using(crate::proofs::Readings::angle_read, crate::proofs::Readings::back_read))]
pub(crate) fn less<'a>(byte: u8, bytes: &'a [u8], rest: &'a [u8]) -> Piece<'a>
    requires cut { bytes.now ≡ byte ∷ rest.now }
    requires begins { class_of byte ≡ less }
    ensures { Fits (reads less_line bytes.now) (less_fault bytes.now) None result }
{
    if let Some(after) = byte_end(MINUS, rest) {
        return Piece::Token(Kind::Mark(Mark::Back), after);
    }
    match angle_name_end(rest) {
        Some(after) => Piece::Token(Kind::Angle, after),
        None => Piece::Bad(Code::Byte, &bytes[..1]),
    }
}

/// What is behind an angle name, whose `<` stands before.
fn angle_name_end(bytes: &[u8]) -> Option<&[u8]>
    ensures { option_map (λ r. r.now) result ≡ after_angle bytes.now }
{
    let [first, rest @ ..] = bytes else {
        return None;
    };
    let class = class(*first);
    if class > DIGIT && class != DOT && class != SLASH {
        return None;
    }
    byte_end(GREATER, angle_end(rest))
}

/// What is behind one byte of a class.
pub(crate) fn byte_end(wanted: u8, bytes: &[u8]) -> Option<&[u8]>
    ensures { option_map (λ r. r.now) result ≡ after_byte wanted bytes.now }
{
    match bytes {
        [byte, rest @ ..] if class(*byte) == wanted => Some(rest),
        _ => None,
    }
}
