//! A type and a name, and whether brackets stand behind them.

ghost use Rattle.adl_ast.specs.Forms.{more_words, typed_of, typed_line, brackets};
ghost use Rattle.adl_ast.specs.Spelling.{reads};
ghost use Rattle.adl_parse.specs.Reads.{Reads};
ghost use Rattle.std.specs.Prelude.{◌≡◌, IfOk};

use crate::cursor::Cursor;
use crate::terminal::Terminal;
use adl_ast::{Id, Words};
use cam_base::{Made, Mark, ReadError};
use std::alloc::Global;

/// The words behind the first: one to three.
pub type More = (Id, Option<(Id, Option<Id>)>);

/// One to three more words.
#[inline(always)]
pub fn more_words(at: &mut Cursor<'_>) -> Result<More, ReadError>
    ensures { Reads result at.new (reads more_words at.old) }
{
    let second = at.word()?;
    if !at.next_is(Terminal::Word) {
        return Ok((second, None));
    }
    let third = at.word()?;
    let fourth = at.maybe_word()?;
    Ok((second, Some((third, fourth))))
}

/// The words of the type, and the name, which is the last word.
#[inline(always)]
pub fn typed_of(alloc: Global, first: Id, more: More) -> Made<(Words, Id)>
    ensures { IfOk result (λ x. x ≡ typed_of first more) }
{
    let mut names = Words::new(alloc);
    names.push(first.name)?;
    let (second, last) = more;
    let Some((third, fourth)) = last else {
        return Ok((names, second));
    };
    names.push(second.name)?;
    let Some(fourth) = fourth else {
        return Ok((names, third));
    };
    names.push(third.name)?;
    Ok((names, fourth))
}

/// A type and a name.
#[tactic(auto, unfolding(adl_ast::specs::Forms::typed_line))]
pub fn typed_name(at: &mut Cursor<'_>) -> Result<(Words, Id), ReadError>
    ensures { Reads result at.new (reads typed_line at.old) }
{
    let first = at.word()?;
    let more = more_words(at)?;
    Ok(typed_of(at.alloc(), first, more)?)
}

/// Whether `[]` stands here.
#[inline(always)]
pub fn brackets(at: &mut Cursor<'_>) -> Result<bool, ReadError>
    ensures { Reads result at.new (reads brackets at.old) }
{
    if !at.next_is(Terminal::Mark(Mark::SquareL)) {
        return Ok(false);
    }
    at.take(Terminal::Mark(Mark::SquareL))?;
    at.take(Terminal::Mark(Mark::SquareR))?;
    Ok(true)
}
