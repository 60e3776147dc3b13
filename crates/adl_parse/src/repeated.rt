//! Lines of the grammar that are repeated.

ghost use Rattle.adl_ast.specs.Codes.{token_code};
ghost use Rattle.adl_ast.specs.Forms.{Rule};
ghost use Rattle.adl_ast.specs.Spelling.{opens, reads};
ghost use Rattle.adl_ast.specs.declared.seen.Seen.{Seen};
ghost use Rattle.adl_parse.specs.Reads.{Reads};
ghost use Rattle.cam_base.specs.Deciding.{first as first_codes};
ghost use Rattle.cam_base.specs.Form.{As, Many};
ghost use Rattle.cam_base.specs.Reading.{starts as starts_with};
ghost use Rattle.std.specs.Prelude.{◌≡◌, ◌<◌, ◌∷◌, ◌++◌, [], IfOk, length, List as Seq, Ok as Good};

use crate::cursor::Cursor;
use cam_base::{List, Made, ReadError, fitted};
use std::alloc::Global;

/// A line of the grammar that is repeated.
pub trait Repeated {
    /// What one of them means.
    type Item: Drop;

    ghost form: { Rule Self.Item };

    ghost eats: { (ts : Seq Seen) (x : Self.Item × Seq Seen) → reads form ts ≡ Good x → length x.1 < length ts };

    /// Whether the next token begins one.
    fn starts(at: &Cursor<'_>) -> bool
        ensures { result ≡ starts_with token_code (first_codes opens form) at.now };

    /// One of them.
    fn read(at: &mut Cursor<'_>) -> Result<Self::Item, ReadError>
        ensures { Reads result at.new (reads form at.old) };
}

/// Any number of them, none too, behind those that were read before. Stops at the first token that begins none.
fn read_behind<R: Repeated>(
    at: &mut Cursor<'_>,
    before: List<R::Item>,
) -> Result<List<R::Item>, ReadError>
    ensures { Reads result at.new (reads (As (λ more. before ++ more) (Many R.form)) at.old) }
{
    let mut items = before;
    'more: while R::starts(at) {
        let item = R::read(at)?;
        items.push(item)?;
    }
    Ok(fitted(items))
}

/// The list of one, with room for so many.
fn with_room<T: Drop>(alloc: Global, room: usize, first: T) -> Made<List<T>>
    ensures { IfOk result (λ items. items ≡ first ∷ []) }
{
    let mut items = List::from_vec(Vec::with_capacity(alloc, room)?);
    items.push(first)?;
    Ok(items)
}

/// One that was read before, and any number of them behind it. The list of up to four takes memory once.
pub fn read_from<R: Repeated>(
    at: &mut Cursor<'_>,
    first: R::Item,
) -> Result<List<R::Item>, ReadError>
    ensures { Reads result at.new (reads (As (λ more. first ∷ more) (Many R.form)) at.old) }
{
    if !R::starts(at) {
        return Ok(with_room(at.alloc(), 1, first)?);
    }
    let second = R::read(at)?;
    if !R::starts(at) {
        let mut both = with_room(at.alloc(), 2, first)?;
        both.push(second)?;
        return Ok(both);
    }
    let third = R::read(at)?;
    let room = if R::starts(at) { 4 } else { 3 };
    let mut items = with_room(at.alloc(), room, first)?;
    items.push(second)?;
    items.push(third)?;
    read_behind::<R>(at, items)
}

/// Any number of them, none too.
pub fn read_all<R: Repeated>(at: &mut Cursor<'_>) -> Result<List<R::Item>, ReadError>
    ensures { Reads result at.new (reads (Many R.form) at.old) }
{
    if !R::starts(at) {
        return Ok(List::new(at.alloc()));
    }
    let first = R::read(at)?;
    read_from::<R>(at, first)
}
