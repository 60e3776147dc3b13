//! Numbers.

ghost use Rattle.adl_lexer.specs.Classes.{digits, class_of, run, after_run, word_bytes};
ghost use Rattle.adl_lexer.specs.LexFaults.{is_fraction, number_fault};
ghost use Rattle.adl_lexer.specs.Pieces.{Fits};
ghost use Rattle.adl_lexer.specs.TokenKinds.{reads, number_line};
ghost use Rattle.cam_base.specs.Numbers.{is_digit};
ghost use Rattle.cam_base.specs.Reading.{starts};
ghost use Rattle.std.specs.List.{list_all};
ghost use Rattle.std.specs.Prelude.{◌≡◌, true, None};

use crate::piece::Piece;
use crate::run::word_run;
use cam_base::{Code, Kind, read_number};

/// The number at the front.
#[tactic(auto, using(crate::proofs::Readings::number_read))]
pub(crate) fn number(bytes: &[u8]) -> Piece<'_>
    requires { starts class_of digits bytes.now ≡ true }
    ensures { Fits (reads number_line bytes.now) (number_fault (run word_bytes bytes.now) (after_run word_bytes bytes.now))
        None result }
{
    let (text, after) = word_run(bytes);
    let Some(value) = read_number(text) else {
        return Piece::Bad(Code::Number, text);
    };
    if all_digits(text) && is_fraction(after) {
        return Piece::Bad(Code::LeftOut, text);
    }
    Piece::Token(Kind::Number(value), after)
}

fn all_digits(bytes: &[u8]) -> bool
    ensures { result ≡ list_all is_digit bytes.now }
{
    bytes.iter().all(|b| b.is_ascii_digit())
}

/// Whether a dot and a digit come next.
fn is_fraction(bytes: &[u8]) -> bool
    ensures { result ≡ is_fraction bytes.now }
{
    match bytes {
        [first, second, ..] => *first == b'.' && second.is_ascii_digit(),
        _ => false,
    }
}
