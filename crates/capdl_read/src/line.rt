//! Lines of the grammar that are repeated.

ghost use Rattle.capdl_read.specs.Reads.{Reads, block_of, maybe_some};
ghost use Rattle.capdl_text.specs.Codes.{mark_code, token_code};
ghost use Rattle.capdl_text.specs.declared.seen.Seen.{Seen};
ghost use Rattle.capdl_text.specs.declared.token.Mark.TheVariants as marks;
ghost use Rattle.cam_base.specs.Reading.{behind_one, list_of, many, starts as starts_with};
ghost use Rattle.cam_base.specs.declared.grammar_error.Stop.{Stop as Halt};
ghost use Rattle.std.specs.Prelude.{◌≡◌, ◌<◌, ◌∷◌, [], ℕ, List as Seq, length, Result as Res, Ok as Good};

use crate::cursor::Cursor;
use cam_base::{List, ReadError, fitted};
use capdl_text::{Mark, Sort};

/// A line that is repeated. `codes` are those that it begins with, and `gives` is the reader of its form.
pub(crate) trait Line<'x> {
    /// What one of them means.
    type Item: Drop;

    ghost codes: { Seq ℕ };

    ghost gives: { Seq Seen → Res (Self.Item × Seq Seen) Halt };

    /// Whether the next token begins one.
    fn starts(at: &Cursor<'x, '_>) -> bool
        ensures { result ≡ starts_with token_code codes at.now };

    /// One of them.
    fn read(at: &mut Cursor<'x, '_>) -> Result<Self::Item, ReadError>
        ensures { Reads result at.new (gives at.old) };

    ghost eats: { (ts : Seq Seen) (x : Self.Item × Seq Seen) → gives ts ≡ Good x → length x.1 < length ts };
}

/// Any number of them, none too.
pub(crate) fn all<'x, L: Line<'x>>(at: &mut Cursor<'x, '_>) -> Result<List<L::Item>, ReadError>
    ensures { Reads result at.new (many token_code L.codes L.gives at.old) }
{
    let mut items = List::new(at.alloc());
    'more: while L::starts(at) {
        let item = L::read(at)?;
        items.push(item)?;
    }
    Ok(fitted(items))
}

/// Any number of them, none too, in braces.
pub(crate) fn block<'x, L: Line<'x>>(at: &mut Cursor<'x, '_>) -> Result<List<L::Item>, ReadError>
    ensures { Reads result at.new (block_of L.codes L.gives at.old) }
{
    at.take(Sort::Mark(Mark::BraceL))?;
    let items = all::<L>(at)?;
    at.take(Sort::Mark(Mark::BraceR))?;
    Ok(items)
}

/// A comma, and then one.
fn next<'x, L: Line<'x>>(at: &mut Cursor<'x, '_>) -> Result<L::Item, ReadError>
    ensures { Reads result at.new (behind_one token_code (mark_code marks.Comma ∷ []) L.gives at.old) }
{
    at.take(Sort::Mark(Mark::Comma))?;
    L::read(at)
}

/// One or more of them, with commas between.
fn listed<'x, L: Line<'x>>(at: &mut Cursor<'x, '_>) -> Result<List<L::Item>, ReadError>
    ensures { Reads result at.new (list_of token_code (mark_code marks.Comma) L.gives at.old) }
{
    let mut items = List::from_vec(Vec::with_capacity(at.alloc(), 1)?);
    let first = L::read(at)?;
    items.push(first)?;
    'more: while at.next_is(Sort::Mark(Mark::Comma)) {
        let item = next::<L>(at)?;
        items.push(item)?;
    }
    Ok(fitted(items))
}

/// One or more of them in parentheses, with commas between, or nothing.
pub(crate) fn maybe_some<'x, L: Line<'x>>(
    at: &mut Cursor<'x, '_>,
) -> Result<List<L::Item>, ReadError>
    ensures { Reads result at.new (maybe_some L.gives at.old) }
{
    if !at.next_is(Sort::Mark(Mark::ParenL)) {
        return Ok(List::new(at.alloc()));
    }
    at.take(Sort::Mark(Mark::ParenL))?;
    let items = listed::<L>(at)?;
    at.take(Sort::Mark(Mark::ParenR))?;
    Ok(items)
}
