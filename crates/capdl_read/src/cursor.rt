//! A cursor that reads tokens from left to right.

ghost use Rattle.cam_base.specs.Reading.{one, starts};
ghost use Rattle.cam_base.specs.declared.grammar_error.ReadError.TheVariants as errors;
ghost use Rattle.capdl_read.specs.Reads.{Reads, ReadsAs, seen};
ghost use Rattle.capdl_text.specs.Codes.{name_codes, token_code};
ghost use Rattle.capdl_text.specs.Forms.{name, number, text};
ghost use Rattle.capdl_text.specs.Lexemes.{sees, sort_code};
ghost use Rattle.capdl_text.specs.Spelling.{reads};
ghost use Rattle.std.specs.Prelude.{◌≡◌, ◌∷◌, [], length};

use crate::codes::{may_name, sort_code};
use crate::token::TokenAt;
use cam_base::{ReadError, Stop, Why};
use capdl_text::{Id, Lexeme, Number, Sort, TextAt};
use std::alloc::Global;
use std::marker::Model;

/// What is left to read of a text: its tokens, and the bytes that they stand in. Contracts see it as the tokens, each with its
/// bytes.
#[derive(Drop)]
pub(crate) struct Cursor<'x, 'a> {
    alloc: Global,
    bytes: &'x [u8],
    tokens: &'a [Lexeme],
}

impl<'x, 'a> Model for Cursor<'x, 'a> {
    ghost use Rattle.capdl_text.specs.Lexemes.{sees};
    ghost use Rattle.capdl_text.specs.declared.seen.Seen.{Seen};
    ghost use Rattle.std.specs.Prelude.{List};

    ghost Value = { List Seen };

    ghost view = { λ c. sees c.bytes.now c.tokens.now };
}

impl<'x, 'a> Cursor<'x, 'a> {
    /// At the first of the tokens.
    pub(crate) fn new(alloc: Global, bytes: &'x [u8], tokens: &'a [Lexeme]) -> Cursor<'x, 'a>
        ensures { result ≡ sees bytes.now tokens.now }
    {
        Cursor {
            alloc,
            bytes,
            tokens,
        }
    }

    /// Whether the next token is of this kind, whatever its value.
    #[inline(always)]
    pub(crate) fn next_is(&self, sort: Sort) -> bool
        ensures { result ≡ starts token_code (sort_code sort ∷ []) self.now }
    {
        match self.tokens {
            [] => false,
            [token, ..] => sort_code(token.sort) == sort_code(sort),
        }
    }

    /// The next token, which is of this kind, whatever its value.
    #[inline(always)]
    pub(crate) fn take(&mut self, sort: Sort) -> Result<TokenAt<'x>, ReadError>
        ensures { ReadsAs seen result self.new (one token_code (sort_code sort ∷ []) self.old) }
    {
        match self.tokens {
            [token, rest @ ..] if sort_code(token.sort) == sort_code(sort) => {
                self.tokens = rest;
                Ok(TokenAt::new(self.bytes, *token))
            }
            _ => Err(self.stop(Why::Unexpected)),
        }
    }

    /// Whether the next token is a word, which may name an object.
    #[inline(always)]
    pub(crate) fn next_is_name(&self) -> bool
        ensures { result ≡ starts token_code name_codes self.now }
    {
        match self.tokens {
            [] => false,
            [token, ..] => may_name(token.sort),
        }
    }

    /// A word, which names an object.
    pub(crate) fn name(&mut self) -> Result<Id<'x>, ReadError>
        ensures { Reads result self.new (reads name self.old) }
    {
        match self.tokens {
            [token, rest @ ..] if self.next_is_name() => {
                self.tokens = rest;
                Ok(TokenAt::new(self.bytes, *token).id())
            }
            _ => Err(self.stop(Why::Unexpected)),
        }
    }

    /// A number.
    pub(crate) fn number(&mut self) -> Result<Number, ReadError>
        ensures { Reads result self.new (reads number self.old) }
    {
        Ok(self.take(Sort::Number)?.number())
    }

    /// What stands between the quotes of a text.
    pub(crate) fn text(&mut self) -> Result<TextAt<'x>, ReadError>
        ensures { Reads result self.new (reads text self.old) }
    {
        Ok(self.take(Sort::Text)?.inner())
    }

    /// Where what is read takes its memory.
    pub(crate) fn alloc(&self) -> Global {
        self.alloc
    }

    /// How many tokens are left.
    pub(crate) fn left(&self) -> usize
        ensures { result ≡ length self.now }
    {
        self.tokens.len()
    }

    /// That reading stops here.
    pub(crate) fn stop(&self, why: Why) -> ReadError
        ensures { result ≡ errors.Stop (record { why = why; left = length self.now }) }
    {
        ReadError::Stop(Stop {
            why,
            left: self.tokens.len(),
        })
    }
}
