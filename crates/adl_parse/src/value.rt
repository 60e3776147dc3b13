//! Values, brackets within brackets up to a limit.

ghost use Rattle.adl_ast.specs.Codes.{token_code, mark_code, number_code, text_code};
ghost use Rattle.adl_ast.specs.Forms.{value_form, value_line, values_line, list_line, entry_line, entry_form, entries_line, dictionary_line};
ghost use Rattle.adl_ast.specs.Spelling.{nests, reads, opens};
ghost use Rattle.adl_parse.specs.Reads.{Reads};
ghost use Rattle.cam_base.specs.declared.token.Mark.TheVariants as marks;
ghost use Rattle.cam_base.specs.Form.{Nested, behind};
ghost use Rattle.cam_base.specs.Reading.{starts};
ghost use Rattle.std.specs.Prelude.{◌≡◌, ◌∷◌, [], true};

use crate::cursor::{Cursor, span};
use crate::terminal::Terminal;
use adl_ast::{Value, ValueKind};
use cam_base::{List, Mark, ReadError, Text, Why, fitted};

/// How deep brackets may nest.
const LIMIT: u32 = 32;

/// A value.
#[tactic(auto, unfolding(adl_ast::specs::Forms::value_line))]
pub fn read_value(at: &mut Cursor<'_>) -> Result<Value, ReadError>
    ensures { Reads result at.new (reads value_line at.old) }
{
    value_within(at, LIMIT)
}

fn starts_nested(at: &Cursor<'_>) -> bool
    ensures { result ≡ starts token_code opens at.now }
{
    at.next_is(Terminal::Mark(Mark::SquareL)) || at.next_is(Terminal::Mark(Mark::BraceL))
}

fn starts_value(at: &Cursor<'_>) -> bool
    ensures { result ≡ starts token_code
        (mark_code marks.SquareL ∷ mark_code marks.BraceL ∷ number_code ∷ text_code ∷ []) at.now }
{
    starts_nested(at) || at.next_is(Terminal::Number) || at.next_is(Terminal::Text)
}

/// A value, its brackets nested at most so deep.
#[cycle(values)]
#[tactic(auto, unfolding(adl_ast::specs::Forms::value_line))]
fn value_within(at: &mut Cursor<'_>, room: u32) -> Result<Value, ReadError>
    ensures { Reads result at.new (nests room value_form at.old) }
{
    if starts_nested(at) {
        return nested(at, room);
    }
    if at.next_is(Terminal::Number) {
        let number = at.take(Terminal::Number)?;
        return Ok(Value {
            kind: ValueKind::Number(number.number()),
            place: number.place(),
        });
    }
    let text = at.take(Terminal::Text)?;
    Ok(Value {
        kind: ValueKind::Text(text.inner_text(at.alloc())?),
        place: text.place(),
    })
}

/// A list or a dictionary, one level deeper.
#[cycle(values)]
#[tactic(auto, unfolding(adl_ast::specs::Forms::nested_line, cam_base::specs::Reading::read_deep))]
fn nested(at: &mut Cursor<'_>, room: u32) -> Result<Value, ReadError>
    requires { starts token_code opens at.old ≡ true }
    ensures { Reads result at.new (nests room Nested at.old) }
{
    if room == 0 {
        Err(at.stop(Why::TooDeep))
    } else if at.next_is(Terminal::Mark(Mark::SquareL)) {
        list(at, room - 1)
    } else {
        dictionary(at, room - 1)
    }
}

#[cycle(values)]
#[tactic(auto, unfolding(adl_ast::specs::Forms::list_line))]
fn list(at: &mut Cursor<'_>, room: u32) -> Result<Value, ReadError>
    ensures { Reads result at.new (nests room list_line at.old) }
{
    let first = at.take(Terminal::Mark(Mark::SquareL))?.place();
    let items = values(at, room)?;
    let last = at.take(Terminal::Mark(Mark::SquareR))?.place();
    Ok(Value {
        kind: ValueKind::Items(items),
        place: span(first, last),
    })
}

#[cycle(values)]
#[tactic(auto, unfolding(adl_ast::specs::Forms::values_line))]
fn values(at: &mut Cursor<'_>, room: u32) -> Result<List<Value>, ReadError>
    ensures { Reads result at.new (nests room values_line at.old) }
{
    let mut items = List::new(at.alloc());
    if !starts_value(at) {
        return Ok(items);
    }
    let first = value_within(at, room)?;
    items.push(first)?;
    'more: while at.next_is(Terminal::Mark(Mark::Comma)) {
        let item = next_value(at, room)?;
        items.push(item)?;
    }
    Ok(fitted(items))
}

#[cycle(values)]
fn next_value(at: &mut Cursor<'_>, room: u32) -> Result<Value, ReadError>
    ensures { Reads result at.new (nests room (behind (mark_code marks.Comma) value_form) at.old) }
{
    at.take(Terminal::Mark(Mark::Comma))?;
    value_within(at, room)
}

#[cycle(values)]
#[tactic(auto, unfolding(adl_ast::specs::Forms::dictionary_line))]
fn dictionary(at: &mut Cursor<'_>, room: u32) -> Result<Value, ReadError>
    ensures { Reads result at.new (nests room dictionary_line at.old) }
{
    let first = at.take(Terminal::Mark(Mark::BraceL))?.place();
    let pairs = entries(at, room)?;
    let last = at.take(Terminal::Mark(Mark::BraceR))?.place();
    Ok(Value {
        kind: ValueKind::Dictionary(pairs),
        place: span(first, last),
    })
}

#[cycle(values)]
#[tactic(auto, unfolding(adl_ast::specs::Forms::entries_line))]
fn entries(at: &mut Cursor<'_>, room: u32) -> Result<List<(Text, Value)>, ReadError>
    ensures { Reads result at.new (nests room entries_line at.old) }
{
    let mut items = List::new(at.alloc());
    if !at.next_is(Terminal::Text) {
        return Ok(items);
    }
    let first = entry(at, room)?;
    items.push(first)?;
    'more: while at.next_is(Terminal::Mark(Mark::Comma)) {
        let item = next_entry(at, room)?;
        items.push(item)?;
    }
    Ok(fitted(items))
}

#[cycle(values)]
fn next_entry(at: &mut Cursor<'_>, room: u32) -> Result<(Text, Value), ReadError>
    ensures { Reads result at.new (nests room (behind (mark_code marks.Comma) entry_form) at.old) }
{
    at.take(Terminal::Mark(Mark::Comma))?;
    entry(at, room)
}

#[cycle(values)]
#[tactic(auto, unfolding(adl_ast::specs::Forms::entry_line))]
fn entry(at: &mut Cursor<'_>, room: u32) -> Result<(Text, Value), ReadError>
    ensures { Reads result at.new (nests room entry_form at.old) }
{
    let key = at.take(Terminal::Text)?;
    at.take(Terminal::Mark(Mark::Colon))?;
    let value = value_within(at, room)?;
    Ok((key.inner_text(at.alloc())?, value))
}
