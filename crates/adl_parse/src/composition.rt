//! Compositions and their lines.

ghost use Rattle.adl_ast.proofs.Eats.{instance_eats, end_eats, composition_member_eats};
ghost use Rattle.adl_ast.specs.Codes.{mark_code, token_code};
ghost use Rattle.adl_ast.specs.Forms.{instance_form, group_line, role_form, end_line, end_form, connection_line, export_line, composition_member_line, composition_member_form, composition_line};
ghost use Rattle.adl_ast.specs.Spelling.{reads};
ghost use Rattle.adl_parse.specs.Reads.{Reads};
ghost use Rattle.cam_base.proofs.Loops.{behind_eats};
ghost use Rattle.cam_base.specs.Form.{behind};
ghost use Rattle.cam_base.specs.declared.token.Mark.TheVariants as marks;
ghost use Rattle.std.specs.Prelude.{◌∷◌, []};

use crate::cursor::Cursor;
use crate::dotted::dotted;
use crate::repeated::{Repeated, read_all, read_from};
use crate::terminal::Terminal;
use adl_ast::{Composition, Connection, End, Export, Group, Instance, Line, Role};
use cam_base::{Keyword, Mark, ReadError};

struct Instances;

impl Repeated for Instances {
    type Item = Instance;

    ghost form = { instance_form };

    ghost eats = { instance_eats };

    fn starts(at: &Cursor<'_>) -> bool {
        at.next_is(Terminal::Key(Keyword::KComponent))
    }

    #[tactic(auto, unfolding(adl_ast::specs::Forms::instance_line))]
    fn read(at: &mut Cursor<'_>) -> Result<Instance, ReadError> {
        at.take(Terminal::Key(Keyword::KComponent))?;
        let component = at.word()?;
        let id = at.word()?;
        at.take(Terminal::Mark(Mark::Semi))?;
        Ok(Instance { component, id })
    }
}

#[tactic(auto, unfolding(adl_ast::specs::Forms::group_line))]
fn group(at: &mut Cursor<'_>) -> Result<Group, ReadError>
    ensures { Reads result at.new (reads group_line at.old) }
{
    at.take(Terminal::Key(Keyword::KGroup))?;
    let id = at.word()?;
    at.take(Terminal::Mark(Mark::BraceL))?;
    let instances = read_all::<Instances>(at)?;
    at.take(Terminal::Mark(Mark::BraceR))?;
    Ok(Group { id, instances })
}

fn role(at: &mut Cursor<'_>) -> Result<Role, ReadError>
    ensures { Reads result at.new (reads role_form at.old) }
{
    if at.next_is(Terminal::Key(Keyword::KFrom)) {
        at.take(Terminal::Key(Keyword::KFrom))?;
        return Ok(Role::From);
    }
    at.take(Terminal::Key(Keyword::KTo))?;
    Ok(Role::To)
}

#[tactic(auto, unfolding(adl_ast::specs::Forms::end_line))]
fn end(at: &mut Cursor<'_>) -> Result<End, ReadError>
    ensures { Reads result at.new (reads end_line at.old) }
{
    let role = role(at)?;
    let (words, place) = dotted(at)?;
    Ok(End { role, words, place })
}

struct MoreEnds;

impl Repeated for MoreEnds {
    type Item = End;

    ghost form = { behind (mark_code marks.Comma) end_form };

    ghost eats = { behind_eats token_code (mark_code marks.Comma ∷ []) (reads end_form) end_eats };

    fn starts(at: &Cursor<'_>) -> bool {
        at.next_is(Terminal::Mark(Mark::Comma))
    }

    fn read(at: &mut Cursor<'_>) -> Result<End, ReadError> {
        at.take(Terminal::Mark(Mark::Comma))?;
        end(at)
    }
}

#[tactic(auto, unfolding(adl_ast::specs::Forms::connection_line))]
fn connection(at: &mut Cursor<'_>) -> Result<Connection, ReadError>
    ensures { Reads result at.new (reads connection_line at.old) }
{
    at.take(Terminal::Key(Keyword::KConnection))?;
    let connector = at.word()?;
    let id = at.word()?;
    at.take(Terminal::Mark(Mark::ParenL))?;
    let first = end(at)?;
    let ends = read_from::<MoreEnds>(at, first)?;
    at.take(Terminal::Mark(Mark::ParenR))?;
    at.take(Terminal::Mark(Mark::Semi))?;
    Ok(Connection {
        connector,
        id,
        ends,
    })
}

#[tactic(auto, unfolding(adl_ast::specs::Forms::export_line))]
fn export(at: &mut Cursor<'_>) -> Result<Export, ReadError>
    ensures { Reads result at.new (reads export_line at.old) }
{
    at.take(Terminal::Key(Keyword::KExport))?;
    let (words, place) = dotted(at)?;
    at.take(Terminal::Mark(Mark::Arrow))?;
    let target = at.word()?;
    at.take(Terminal::Mark(Mark::Semi))?;
    Ok(Export {
        words,
        target,
        place,
    })
}

struct Lines;

impl Repeated for Lines {
    type Item = Line;

    ghost form = { composition_member_form };

    ghost eats = { composition_member_eats };

    fn starts(at: &Cursor<'_>) -> bool {
        at.next_is(Terminal::Key(Keyword::KComponent))
            || at.next_is(Terminal::Key(Keyword::KGroup))
            || at.next_is(Terminal::Key(Keyword::KConnection))
            || at.next_is(Terminal::Key(Keyword::KExport))
    }

    #[tactic(auto, unfolding(adl_ast::specs::Forms::composition_member_line))]
    fn read(at: &mut Cursor<'_>) -> Result<Line, ReadError> {
        if at.next_is(Terminal::Key(Keyword::KComponent)) {
            Ok(Line::Instance(Instances::read(at)?))
        } else if at.next_is(Terminal::Key(Keyword::KGroup)) {
            Ok(Line::Group(group(at)?))
        } else if at.next_is(Terminal::Key(Keyword::KConnection)) {
            Ok(Line::Connection(connection(at)?))
        } else {
            Ok(Line::Export(export(at)?))
        }
    }
}

/// A composition.
#[tactic(auto, unfolding(adl_ast::specs::Forms::composition_line))]
pub fn read_composition(at: &mut Cursor<'_>) -> Result<Composition, ReadError>
    ensures { Reads result at.new (reads composition_line at.old) }
{
    let place = at.take(Terminal::Key(Keyword::KComposition))?.place();
    at.take(Terminal::Mark(Mark::BraceL))?;
    let lines = read_all::<Lines>(at)?;
    at.take(Terminal::Mark(Mark::BraceR))?;
    Ok(Composition { place, lines })
}
