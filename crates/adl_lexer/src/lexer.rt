//! The lexer.

ghost use Rattle.adl_lexer.specs.LexFaults.{name_in};
ghost use Rattle.adl_lexer.specs.Lexes.{IsLexed};
ghost use Rattle.std.specs.Prelude.{◌≡◌, IfOk};

use crate::piece::{Piece, next_piece};
use crate::run::blanks_end;
use cam_base::{Code, Fault, List, Made, Place, Refused, Text, Token, Tokens};
use std::alloc::Global;

/// The tokens of a file's bytes, or the first fault that stands in them, in one pass. `specs/Lexes.antt` says which.
pub fn lex(alloc: Global, file: u32, bytes: &[u8]) -> Result<Tokens, Refused<Fault>>
    ensures { IsLexed file bytes.now result }
{
    lex_within(alloc, file, bytes, Vec::new(alloc))
}

/// The same, in the memory of tokens that are done with.
pub fn lex_within(
    alloc: Global,
    file: u32,
    bytes: &[u8],
    mut room: Vec<Token>,
) -> Result<Tokens, Refused<Fault>>
    ensures { IsLexed file bytes.now result }
{
    room.clear();
    // few files have more tokens than a third of their bytes
    room.reserve(bytes.len() / 3)?;
    let mut tokens = List::from_vec(room);
    let mut rest = blanks_end(bytes);
    'scan: while let Some(piece) = next_piece(rest) {
        let first = (bytes.len() - rest.len()) as u64;
        match piece {
            Piece::Gap(after) => rest = blanks_end(after),
            Piece::Token(kind, after) => {
                let end = (bytes.len() - after.len()) as u64;
                let place = Place { file, first, end };
                tokens.push(Token { kind, place })?;
                rest = blanks_end(after);
            }
            Piece::Bad(code, text) => {
                let end = first + text.len() as u64;
                let place = Place { file, first, end };
                let name = name_in(alloc, code, text)?;
                return Err(Refused::Fault(Fault { code, place, name }));
            }
        }
    }
    Ok(Tokens { list: tokens })
}

/// The name in a fault on these bytes.
fn name_in(alloc: Global, code: Code, text: &[u8]) -> Made<Text>
    ensures { IfOk result (λ name. name ≡ name_in code text.now) }
{
    match code {
        Code::Number => Text::new(alloc, text),
        Code::Limit => Text::new(alloc, b"name"),
        _ => Ok(Text::empty(alloc)),
    }
}
