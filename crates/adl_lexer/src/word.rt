//! Words.

ghost use Rattle.adl_lexer.specs.Classes.{letters, class_of, run, word_bytes};
ghost use Rattle.adl_lexer.specs.LexFaults.{is_left_out_word, word_fault};
ghost use Rattle.adl_lexer.specs.Pieces.{Fits};
ghost use Rattle.adl_lexer.specs.TokenKinds.{reads, word_line, word_kind};
ghost use Rattle.cam_base.specs.Reading.{starts};
ghost use Rattle.std.specs.Prelude.{◌≡◌, true, None};

use crate::keyword::keyword_of;
use crate::piece::Piece;
use crate::run::word_run;
use cam_base::{Code, Kind};

/// The word at the front.
#[tactic(auto, using(crate::proofs::Readings::word_read))]
pub(crate) fn word(bytes: &[u8]) -> Piece<'_>
    requires { starts class_of letters bytes.now ≡ true }
    ensures { Fits (reads word_line bytes.now) (word_fault (run word_bytes bytes.now)) None result }
{
    let (text, after) = word_run(bytes);
    if text.len() > 127 {
        return Piece::Bad(Code::Limit, text);
    }
    if is_left_out_word(text) {
        return Piece::Bad(Code::LeftOut, text);
    }
    Piece::Token(kind(text), after)
}

fn kind(text: &[u8]) -> Kind
    ensures { result ≡ word_kind text.now }
{
    match keyword_of(text) {
        Some(keyword) => Kind::Key(keyword),
        None => Kind::Word,
    }
}

/// Whether a word is left out of this profile: by its length one word at most is looked at.
#[tactic(auto, using(crate::proofs::LeftOutWords::by_length))]
fn is_left_out_word(text: &[u8]) -> bool
    ensures { result ≡ is_left_out_word text.now }
{
    if text.len() == 9 {
        text == b"connector".as_slice()
    } else if text.len() == 6 {
        text == b"struct".as_slice()
    } else if text.len() == 4 {
        text == b"enum".as_slice()
    } else {
        false
    }
}
