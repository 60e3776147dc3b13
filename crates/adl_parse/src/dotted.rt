//! Dotted names: their words and their place.

ghost use Rattle.adl_ast.proofs.Eats.{dot_word_eats};
ghost use Rattle.adl_ast.specs.Forms.{dot_word, dotted_line, dotted_of, path_line, last_place};
ghost use Rattle.adl_ast.specs.Spelling.{reads};
ghost use Rattle.adl_parse.specs.Reads.{Reads};
ghost use Rattle.cam_base.specs.Form.{maybe};
ghost use Rattle.std.specs.Prelude.{◌≡◌, ◌∷◌, IfOk};

use crate::cursor::{Cursor, span};
use crate::repeated::{Repeated, read_all};
use crate::terminal::Terminal;
use adl_ast::{Dotted, Id};
use cam_base::{List, Made, Mark, Place, ReadError};
use std::alloc::Global;

fn dot_word(at: &mut Cursor<'_>) -> Result<Id, ReadError>
    ensures { Reads result at.new (reads dot_word at.old) }
{
    at.take(Terminal::Mark(Mark::Dot))?;
    at.word()
}

fn maybe_dot_word(at: &mut Cursor<'_>) -> Result<Option<Id>, ReadError>
    ensures { Reads result at.new (reads (maybe dot_word) at.old) }
{
    if !at.next_is(Terminal::Mark(Mark::Dot)) {
        return Ok(None);
    }
    Ok(Some(dot_word(at)?))
}

struct DotWords;

impl Repeated for DotWords {
    type Item = Id;

    ghost form = { dot_word };

    ghost eats = { dot_word_eats };

    fn starts(at: &Cursor<'_>) -> bool {
        at.next_is(Terminal::Mark(Mark::Dot))
    }

    fn read(at: &mut Cursor<'_>) -> Result<Id, ReadError> {
        dot_word(at)
    }
}

fn dotted_of(alloc: Global, first: Id, second: Id, third: Option<Id>) -> Made<(Dotted, Place)>
    ensures { IfOk result (λ x. x ≡ dotted_of first second third) }
{
    let begin = first.place();
    let end = second.place();
    let mut ids = Dotted::pair(alloc, first, second)?;
    match third {
        None => Ok((ids, span(begin, end))),
        Some(third) => {
            let end = third.place();
            ids.push(third)?;
            Ok((ids, span(begin, end)))
        }
    }
}

/// Two or three words with dots between, and their place.
#[tactic(auto, unfolding(adl_ast::specs::Forms::dotted_line))]
pub fn dotted(at: &mut Cursor<'_>) -> Result<(Dotted, Place), ReadError>
    ensures { Reads result at.new (reads dotted_line at.old) }
{
    let first = at.word()?;
    let second = dot_word(at)?;
    let third = maybe_dot_word(at)?;
    Ok(dotted_of(at.alloc(), first, second, third)?)
}

fn last_place(place: Place, ids: &[Id]) -> Place
    ensures { result ≡ last_place place ids.now }
{
    let mut last = place;
    let mut rest = ids;
    while let [id, behind @ ..] = rest {
        last = id.place();
        rest = behind;
    }
    last
}

fn joined(alloc: Global, first: Id, second: Id, more: List<Id>) -> Made<Dotted>
    ensures { IfOk result (λ ids. ids ≡ first ∷ second ∷ more) }
{
    let mut ids = Dotted::pair(alloc, first, second)?;
    for id in more.into_vec() {
        ids.push(id)?;
    }
    Ok(ids)
}

/// Two or more words with dots between, and their place.
#[tactic(auto, unfolding(adl_ast::specs::Forms::path_line))]
pub fn path(at: &mut Cursor<'_>) -> Result<(Dotted, Place), ReadError>
    ensures { Reads result at.new (reads path_line at.old) }
{
    let first = at.word()?;
    let second = dot_word(at)?;
    let more = read_all::<DotWords>(at)?;
    let place = span(first.place(), last_place(second.place(), more.as_slice()));
    Ok((joined(at.alloc(), first, second, more)?, place))
}
