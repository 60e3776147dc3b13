//! The terminals of the grammar, and which token is one of which.

ghost use Rattle.adl_ast.specs.Codes.{kind_code, key_code, mark_code, token_code, word_code};
ghost use Rattle.adl_ast.specs.Seeing.{seen_at, text_at};
ghost use Rattle.adl_parse.specs.Terminals.{codes_of, is_word};
ghost use Rattle.cam_base.specs.Form.{among};
ghost use Rattle.std.specs.Prelude.{◌≡◌, ◌==◌, ◌≤◌, ℕ, List as Seq};

use cam_base::{Keyword, Kind, Mark, Place, Token};

/// What a line of the grammar asks of one token.
#[derive(Clone, Copy)]
pub enum Terminal {
    Key(Keyword),
    Mark(Mark),
    Number,
    Text,
    /// A path in angle brackets.
    Angle,
    /// Any word.
    Word,
    /// The word `void`.
    Void,
    /// A word that isn't `void`.
    NotVoid,
    /// The word `Buf`.
    Buf,
    /// A word that isn't `Buf`.
    NotBuf,
}

/// The bytes at a place, as far as there are any.
#[inline(always)]
pub fn text_at(bytes: &[u8], place: Place) -> &[u8]
    ensures { result.now ≡ text_at bytes.now place }
{
    let first = (place.first as usize).min(bytes.len());
    let rest = &bytes[first..];
    let len = (place.end.saturating_sub(place.first) as usize).min(rest.len());
    &rest[..len]
}

#[inline(always)]
fn key_code(key: Keyword) -> u8
    ensures { result ≡ key_code key }
{
    key as u8 + 19
}

#[inline(always)]
fn mark_code(mark: Mark) -> u8
    ensures { result ≡ mark_code mark }
{
    mark as u8 + 6
}

fn word_code(text: &[u8]) -> u8
    ensures { result ≡ word_code text.now }
{
    if text == b"void".as_slice() {
        1
    } else if text == b"Buf".as_slice() {
        2
    } else {
        0
    }
}

#[inline(always)]
fn is_word(kind: Kind) -> bool
    ensures { result ≡ is_word kind }
{
    matches!(kind, Kind::Word)
}

#[tactic(auto, using(crate::proofs::Terminals::other_code))]
#[inline(always)]
fn is_mark(kind: Kind, mark: Mark) -> bool
    ensures { (text : Seq ℕ) → result ≡ (kind_code kind text == mark_code mark) }
{
    match kind {
        Kind::Mark(own) => mark_code(own) == mark_code(mark),
        Kind::Word | Kind::Key(_) | Kind::Number(_) | Kind::Text | Kind::Angle => false,
    }
}

#[tactic(auto, using(crate::proofs::Terminals::other_code))]
#[inline(always)]
fn is_key(kind: Kind, key: Keyword) -> bool
    ensures { (text : Seq ℕ) → result ≡ (kind_code kind text == key_code key) }
{
    match kind {
        Kind::Key(own) => key_code(own) == key_code(key),
        Kind::Word | Kind::Number(_) | Kind::Text | Kind::Angle | Kind::Mark(_) => false,
    }
}

/// Whether a token is a word with this code.
#[inline]
fn has_code(bytes: &[u8], token: &Token, code: u8) -> bool
    requires { code ≤ 2 }
    ensures { result ≡ (token_code (seen_at bytes.now token.now) == code) }
{
    is_word(token.kind) && word_code(text_at(bytes, token.place)) == code
}

/// Whether a token is of a terminal. The bytes are looked at only where one word is told from another.
#[tactic(auto, using(crate::proofs::Terminals::other_code))]
#[inline(always)]
pub fn is_of(bytes: &[u8], token: &Token, terminal: Terminal) -> bool
    ensures { result ≡ among (codes_of terminal) (token_code (seen_at bytes.now token.now)) }
{
    let kind = token.kind;
    match terminal {
        Terminal::Key(key) => is_key(kind, key),
        Terminal::Mark(mark) => is_mark(kind, mark),
        Terminal::Number => matches!(kind, Kind::Number(_)),
        Terminal::Text => matches!(kind, Kind::Text),
        Terminal::Angle => matches!(kind, Kind::Angle),
        Terminal::Word => is_word(kind),
        Terminal::Void => has_code(bytes, token, 1),
        Terminal::NotVoid => is_word(kind) && !has_code(bytes, token, 1),
        Terminal::Buf => has_code(bytes, token, 2),
        Terminal::NotBuf => is_word(kind) && !has_code(bytes, token, 2),
    }
}
