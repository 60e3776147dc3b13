//! What is left to read of a file, and what single tokens mean.

ghost use Rattle.adl_ast.specs.Codes.{token_code};
ghost use Rattle.adl_ast.specs.Forms.{word};
ghost use Rattle.adl_ast.specs.Seeing.{see, id_of, number_of, span};
ghost use Rattle.adl_ast.specs.Spelling.{reads};
ghost use Rattle.adl_parse.specs.Reads.{Reads};
ghost use Rattle.adl_parse.specs.Terminals.{codes_of};
ghost use Rattle.cam_base.specs.Form.{maybe};
ghost use Rattle.cam_base.specs.Gives.{Gives};
ghost use Rattle.cam_base.specs.Quoted.{inner};
ghost use Rattle.cam_base.specs.Reading.{starts, one, ended};
ghost use Rattle.cam_base.specs.declared.grammar_error.ReadError.TheVariants as errors;
ghost use Rattle.std.specs.Prelude.{◌≡◌, ◌≤◌, ◌-◌, IfOk, drop, length};

use crate::terminal::{Terminal, is_of, text_at};
use adl_ast::{Id, ShortPlace};
use cam_base::{
    Kind, Made, Name, Place, ReadError, Stop, Text, Token, Tokens, Why, inner, is_name,
};
use std::alloc::Global;
use std::marker::Model;

/// A token, and the bytes that it stands in. Contracts see it as what the grammar sees: the token with its own bytes.
#[derive(Drop)]
pub struct Lexeme<'a> {
    bytes: &'a [u8],
    token: Token,
}

impl<'a> Model for Lexeme<'a> {
    ghost use Rattle.adl_ast.specs.declared.seen.Seen.{Seen};
    ghost use Rattle.adl_ast.specs.Seeing.{seen_at};

    ghost Value = { Seen };

    ghost view = { λ l. seen_at l.bytes.now l.token };
}

impl<'a> Lexeme<'a> {
    #[inline(always)]
    pub fn place(&self) -> Place
        ensures { result ≡ self.now.place }
    {
        self.token.place
    }

    /// The value of a number, 0 for other tokens.
    #[inline]
    pub fn number(&self) -> u64
        ensures { result ≡ number_of self.now.kind }
    {
        match self.token.kind {
            Kind::Number(n) => n,
            _ => 0,
        }
    }

    /// What stands between the quotes of a text, or the angle brackets of a path.
    pub fn inner_text(&self, alloc: Global) -> Made<Text>
        ensures { IfOk result (λ text. text ≡ inner self.now.text) }
    {
        Text::new(alloc, inner(text_at(self.bytes, self.token.place)))
    }

    /// The name and place of a word.
    pub fn id(&self, alloc: Global) -> Made<Id>
        ensures { IfOk result (λ id. id ≡ id_of self.now) }
    {
        let text = text_at(self.bytes, self.token.place);
        let name = if is_name(text) { text } else { b"_" };
        Ok(Id {
            name: Name::of_identifier(alloc, name)?,
            place: ShortPlace::new(self.token.place)?,
        })
    }
}

/// From the beginning of the one place to the end of the other.
#[inline]
pub fn span(first: Place, last: Place) -> Place
    ensures { result ≡ span first last }
{
    Place {
        file: first.file,
        first: first.first,
        end: last.end,
    }
}

/// What is left to read of a file: its tokens, and the bytes that they stand in. Contracts see the tokens, each with its bytes.
#[derive(Drop)]
pub struct Cursor<'a> {
    alloc: Global,
    bytes: &'a [u8],
    tokens: &'a [Token],
}

impl<'a> Model for Cursor<'a> {
    ghost use Rattle.adl_ast.specs.declared.seen.Seen.{Seen};
    ghost use Rattle.adl_ast.specs.Seeing.{see};
    ghost use Rattle.std.specs.Prelude.{List};

    ghost Value = { List Seen };

    ghost view = { λ c. see c.bytes.now c.tokens.now };
}

impl<'a> Cursor<'a> {
    /// A cursor before the token at a position.
    pub fn new(alloc: Global, bytes: &'a [u8], tokens: &'a Tokens, at: usize) -> Cursor<'a>
        requires { at ≤ length tokens.now.list }
        ensures { result ≡ drop at (see bytes.now tokens.now.list) }
    {
        let (_before, tokens) = tokens.list.as_slice().split_at(at);
        Cursor {
            alloc,
            bytes,
            tokens,
        }
    }

    /// The position in the tokens of the file.
    pub fn position(&self, tokens: &Tokens) -> usize
        requires { length self.now ≤ length tokens.now.list }
        ensures { result ≡ length tokens.now.list - length self.now }
    {
        tokens.list.len() - self.left()
    }

    /// Where memory is taken from.
    #[inline(always)]
    pub fn alloc(&self) -> Global {
        self.alloc
    }

    /// How many tokens are left.
    #[inline(always)]
    pub fn left(&self) -> usize
        ensures { result ≡ length self.now }
    {
        self.tokens.len()
    }

    /// The error of reading that stops here.
    pub fn stop(&self, why: Why) -> ReadError
        ensures { result ≡ errors.Stop (record { why = why; left = length self.now }) }
    {
        ReadError::Stop(Stop {
            why,
            left: self.left(),
        })
    }

    /// Whether the next token is of this terminal.
    #[inline(always)]
    pub fn next_is(&self, terminal: Terminal) -> bool
        ensures { result ≡ starts token_code (codes_of terminal) self.now }
    {
        match self.tokens {
            [] => false,
            [token, ..] => is_of(self.bytes, token, terminal),
        }
    }

    /// The next token, which is of this terminal.
    #[inline(always)]
    pub fn take(&mut self, terminal: Terminal) -> Result<Lexeme<'a>, ReadError>
        ensures { Reads result self.new (one token_code (codes_of terminal) self.old) }
    {
        match self.tokens {
            [token, rest @ ..] if is_of(self.bytes, token, terminal) => {
                self.tokens = rest;
                Ok(Lexeme {
                    bytes: self.bytes,
                    token: *token,
                })
            }
            _ => Err(self.stop(Why::Unexpected)),
        }
    }

    /// What was read of the whole file, if nothing is left.
    pub fn ended<T: Drop>(&self, read: T) -> Result<T, ReadError>
        ensures { Gives (λ x. x) result (ended read self.now) }
    {
        match self.tokens {
            [] => Ok(read),
            [_, ..] => Err(self.stop(Why::Unexpected)),
        }
    }

    /// A word.
    #[inline]
    pub fn word(&mut self) -> Result<Id, ReadError>
        ensures { Reads result self.new (reads word self.old) }
    {
        Ok(self.take(Terminal::Word)?.id(self.alloc)?)
    }

    /// A word, or nothing.
    pub fn maybe_word(&mut self) -> Result<Option<Id>, ReadError>
        ensures { Reads result self.new (reads (maybe word) self.old) }
    {
        if !self.next_is(Terminal::Word) {
            return Ok(None);
        }
        Ok(Some(self.word()?))
    }
}
