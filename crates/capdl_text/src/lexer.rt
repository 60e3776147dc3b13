//! The lexer.

ghost use Rattle.capdl_text.specs.Lexemes.{AreLexemes, sort_of};
ghost use Rattle.std.specs.Prelude.{◌≡◌, ◌≤◌, length};

use crate::field::fields;
use crate::piece::{Piece, next_piece};
use crate::token::{Kind, Lexeme, Sort, Span};
use cam_base::{List, Refused, Text, TextFault};
use std::alloc::Global;

/// The most bytes that places can tell apart.
const MAX_BYTES: usize = 4_294_967_295;

fn sort_of(kind: Kind) -> Sort
    ensures { result ≡ sort_of kind }
{
    match kind {
        Kind::Word(word) => Sort::Word(word),
        Kind::Number(_) => Sort::Number,
        Kind::Page => Sort::Page,
        Kind::Text => Sort::Text,
        Kind::Mark(mark) => Sort::Mark(mark),
    }
}

/// The tokens of a text, or the first fault of tokens that stands in it, in one pass. `specs/Lexes.antt` says which. For
/// 2^32 bytes and more there is no memory.
pub fn lex(alloc: Global, bytes: &[u8]) -> Result<List<Lexeme>, Refused<TextFault>>
    ensures { AreLexemes bytes.now result }
{
    if bytes.len() > MAX_BYTES {
        return Err(Refused::NoMemory);
    }
    let fields = fields();
    // a token, with the gap before it, hardly ever has fewer than two bytes, and room that is left over costs nothing
    let mut lexemes = List::from_vec(Vec::with_capacity(alloc, bytes.len() / 2)?);
    let mut rest = bytes;
    'scan: while let Some(piece) = next_piece(&fields, rest) {
        let first = bytes.len() - rest.len();
        match piece {
            Piece::Gap(after) => rest = after,
            Piece::Token(kind, after) => {
                let end = bytes.len() - after.len();
                let place = Span {
                    first: first as u32,
                    end: end as u32,
                };
                let sort = sort_of(kind);
                lexemes.push(Lexeme { sort, place })?;
                rest = after;
            }
            Piece::Bad(code, text) => {
                let first = first as u64;
                return Err(Refused::Fault(TextFault {
                    code,
                    first,
                    end: first + text.len() as u64,
                    name: Text::empty(alloc),
                }));
            }
        }
    }
    Ok(lexemes)
}
