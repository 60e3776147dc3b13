//! Procedures, their methods and parameters.

ghost use Rattle.adl_ast.proofs.Eats.{next_param_eats, proc_member_eats};
ghost use Rattle.adl_ast.specs.Codes.{token_code, mark_code, not_void_codes};
ghost use Rattle.adl_ast.specs.Forms.{direction_line, direction_form, direction_codes, param_of, param_line, param_form, void_params_line, first_param, params_line, method_line, proc_member_line, proc_member_form, procedure_line};
ghost use Rattle.adl_ast.specs.Spelling.{reads};
ghost use Rattle.adl_parse.specs.Reads.{Reads};
ghost use Rattle.cam_base.specs.Form.{maybe, behind};
ghost use Rattle.cam_base.specs.Reading.{starts};
ghost use Rattle.cam_base.specs.declared.token.Mark.TheVariants as marks;
ghost use Rattle.std.specs.Prelude.{◌≡◌, ◌++◌};

use crate::cursor::Cursor;
use crate::import::read_import;
use crate::repeated::{Repeated, read_all, read_from};
use crate::terminal::Terminal;
use crate::typed::{brackets, more_words, typed_name, typed_of};
use adl_ast::{Direction, Id, Method, Param, ProcMember, Procedure, Words};
use cam_base::{Keyword, List, Mark, ReadError};

fn starts_direction(at: &Cursor<'_>) -> bool
    ensures { result ≡ starts token_code direction_codes at.now }
{
    at.next_is(Terminal::Key(Keyword::KIn))
        || at.next_is(Terminal::Key(Keyword::KOut))
        || at.next_is(Terminal::Key(Keyword::KInout))
        || at.next_is(Terminal::Key(Keyword::KRefin))
}

#[tactic(auto, unfolding(adl_ast::specs::Forms::direction_line))]
fn direction(at: &mut Cursor<'_>) -> Result<Direction, ReadError>
    ensures { Reads result at.new (reads direction_line at.old) }
{
    if at.next_is(Terminal::Key(Keyword::KIn)) {
        at.take(Terminal::Key(Keyword::KIn))?;
        Ok(Direction::DirIn)
    } else if at.next_is(Terminal::Key(Keyword::KOut)) {
        at.take(Terminal::Key(Keyword::KOut))?;
        Ok(Direction::DirOut)
    } else if at.next_is(Terminal::Key(Keyword::KInout)) {
        at.take(Terminal::Key(Keyword::KInout))?;
        Ok(Direction::DirInOut)
    } else {
        at.take(Terminal::Key(Keyword::KRefin))?;
        Ok(Direction::DirRefIn)
    }
}

fn maybe_direction(at: &mut Cursor<'_>) -> Result<Option<Direction>, ReadError>
    ensures { Reads result at.new (reads (maybe direction_form) at.old) }
{
    if !starts_direction(at) {
        return Ok(None);
    }
    Ok(Some(direction(at)?))
}

fn param_of(direction: Option<Direction>, typed: (Words, Id), array: bool) -> Param
    ensures { result ≡ param_of direction typed array }
{
    let (words, id) = typed;
    Param {
        direction,
        words,
        id,
        array,
    }
}

#[tactic(auto, unfolding(adl_ast::specs::Forms::param_line))]
fn param(at: &mut Cursor<'_>) -> Result<Param, ReadError>
    ensures { Reads result at.new (reads param_line at.old) }
{
    let direction = maybe_direction(at)?;
    let typed = typed_name(at)?;
    let array = brackets(at)?;
    Ok(param_of(direction, typed, array))
}

struct MoreParams;

impl Repeated for MoreParams {
    type Item = Param;

    ghost form = { behind (mark_code marks.Comma) param_form };

    ghost eats = { next_param_eats };

    fn starts(at: &Cursor<'_>) -> bool {
        at.next_is(Terminal::Mark(Mark::Comma))
    }

    fn read(at: &mut Cursor<'_>) -> Result<Param, ReadError> {
        at.take(Terminal::Mark(Mark::Comma))?;
        param(at)
    }
}

/// What stands between the parentheses: whether it is `void` alone, and the parameters.
type Params = (bool, List<Param>);

#[tactic(auto, unfolding(adl_ast::specs::Forms::void_params_line))]
fn void_params(at: &mut Cursor<'_>) -> Result<Params, ReadError>
    ensures { Reads result at.new (reads void_params_line at.old) }
{
    let void = at.take(Terminal::Void)?;
    if !at.next_is(Terminal::Word) {
        return Ok((true, List::new(at.alloc())));
    }
    let more = more_words(at)?;
    let array = brackets(at)?;
    let word = void.id(at.alloc())?;
    let typed = typed_of(at.alloc(), word, more)?;
    let params = read_from::<MoreParams>(at, param_of(None, typed, array))?;
    Ok((false, params))
}

#[tactic(auto, unfolding(adl_ast::specs::Forms::directed_line, adl_ast::specs::Forms::undirected_line))]
fn first_param(at: &mut Cursor<'_>) -> Result<Param, ReadError>
    ensures { Reads result at.new (reads first_param at.old) }
{
    if starts_direction(at) {
        let direction = direction(at)?;
        let typed = typed_name(at)?;
        let array = brackets(at)?;
        return Ok(param_of(Some(direction), typed, array));
    }
    let word = at.take(Terminal::NotVoid)?;
    let more = more_words(at)?;
    let array = brackets(at)?;
    let first = word.id(at.alloc())?;
    let typed = typed_of(at.alloc(), first, more)?;
    Ok(param_of(None, typed, array))
}

fn starts_other(at: &Cursor<'_>) -> bool
    ensures { result ≡ starts token_code (direction_codes ++ not_void_codes) at.now }
{
    starts_direction(at) || at.next_is(Terminal::NotVoid)
}

#[tactic(auto, unfolding(adl_ast::specs::Forms::params_line, adl_ast::specs::Forms::other_params_line))]
fn params(at: &mut Cursor<'_>) -> Result<Params, ReadError>
    ensures { Reads result at.new (reads params_line at.old) }
{
    if at.next_is(Terminal::Void) {
        void_params(at)
    } else if starts_other(at) {
        let first = first_param(at)?;
        Ok((false, read_from::<MoreParams>(at, first)?))
    } else {
        Ok((false, List::new(at.alloc())))
    }
}

#[tactic(auto, unfolding(adl_ast::specs::Forms::method_line))]
fn method(at: &mut Cursor<'_>) -> Result<Method, ReadError>
    ensures { Reads result at.new (reads method_line at.old) }
{
    let (words, id) = typed_name(at)?;
    at.take(Terminal::Mark(Mark::ParenL))?;
    let (void, params) = params(at)?;
    at.take(Terminal::Mark(Mark::ParenR))?;
    at.take(Terminal::Mark(Mark::Semi))?;
    Ok(Method {
        result: words,
        id,
        void,
        params,
    })
}

struct ProcMembers;

impl Repeated for ProcMembers {
    type Item = ProcMember;

    ghost form = { proc_member_form };

    ghost eats = { proc_member_eats };

    fn starts(at: &Cursor<'_>) -> bool {
        at.next_is(Terminal::Key(Keyword::KInclude)) || at.next_is(Terminal::Word)
    }

    #[tactic(auto, unfolding(adl_ast::specs::Forms::proc_member_line))]
    fn read(at: &mut Cursor<'_>) -> Result<ProcMember, ReadError> {
        if at.next_is(Terminal::Key(Keyword::KInclude)) {
            Ok(ProcMember::Include(read_import(at, Keyword::KInclude)?))
        } else {
            Ok(ProcMember::Method(method(at)?))
        }
    }
}

/// A procedure.
#[tactic(auto, unfolding(adl_ast::specs::Forms::procedure_line))]
pub fn read_procedure(at: &mut Cursor<'_>) -> Result<Procedure, ReadError>
    ensures { Reads result at.new (reads procedure_line at.old) }
{
    at.take(Terminal::Key(Keyword::KProcedure))?;
    let id = at.word()?;
    at.take(Terminal::Mark(Mark::BraceL))?;
    let members = read_all::<ProcMembers>(at)?;
    at.take(Terminal::Mark(Mark::BraceR))?;
    Ok(Procedure { id, members })
}
