//! Files and their items.

ghost use Rattle.adl_ast.proofs.Eats.{ended_eats};
ghost use Rattle.adl_ast.specs.Forms.{item_line, ended_line, ended_form, file_line};
ghost use Rattle.adl_ast.specs.Spelling.{reads};
ghost use Rattle.adl_parse.specs.Files.{IsFileIn};
ghost use Rattle.adl_parse.specs.Reads.{Reads};
ghost use Rattle.cam_base.specs.Gives.{Gives};
ghost use Rattle.cam_base.specs.Reading.{whole};

use crate::assembly::read_assembly;
use crate::component::read_component;
use crate::cursor::Cursor;
use crate::import::read_import;
use crate::part::refusal_of;
use crate::procedure::read_procedure;
use crate::repeated::{Repeated, read_all};
use crate::terminal::Terminal;
use adl_ast::{Ended, File, Item};
use cam_base::{Boxed, Fault, Keyword, Mark, ReadError, Refused, Tokens};
use std::alloc::Global;

#[tactic(auto, unfolding(adl_ast::specs::Forms::item_line))]
fn item(at: &mut Cursor<'_>) -> Result<Item, ReadError>
    ensures { Reads result at.new (reads item_line at.old) }
{
    if at.next_is(Terminal::Key(Keyword::KImport)) {
        Ok(Item::Import(read_import(at, Keyword::KImport)?))
    } else if at.next_is(Terminal::Key(Keyword::KProcedure)) {
        Ok(Item::Procedure(read_procedure(at)?))
    } else if at.next_is(Terminal::Key(Keyword::KComponent)) {
        Ok(Item::Component(read_component(at)?))
    } else {
        let assembly = read_assembly(at)?;
        Ok(Item::Assembly(Boxed::new(at.alloc(), assembly)?))
    }
}

struct Items;

impl Repeated for Items {
    type Item = Ended;

    ghost form = { ended_form };

    ghost eats = { ended_eats };

    fn starts(at: &Cursor<'_>) -> bool {
        at.next_is(Terminal::Key(Keyword::KImport))
            || at.next_is(Terminal::Key(Keyword::KProcedure))
            || at.next_is(Terminal::Key(Keyword::KComponent))
            || at.next_is(Terminal::Key(Keyword::KAssembly))
    }

    #[tactic(auto, unfolding(adl_ast::specs::Forms::ended_line))]
    fn read(at: &mut Cursor<'_>) -> Result<Ended, ReadError> {
        let item = item(at)?;
        let semicolon = at.next_is(Terminal::Mark(Mark::Semi));
        if !semicolon {
            return Ok(Ended { item, semicolon });
        }
        at.take(Terminal::Mark(Mark::Semi))?;
        Ok(Ended { item, semicolon })
    }
}

#[tactic(auto, unfolding(adl_ast::specs::Forms::file_line))]
fn read_file(at: &mut Cursor<'_>) -> Result<File, ReadError>
    ensures { Gives (λ x. x) result (whole (reads file_line) at.old) }
{
    let items = read_all::<Items>(at)?;
    at.ended(File { items })
}

/// The file that the tokens spell.
pub fn parse_file(alloc: Global, bytes: &[u8], tokens: &Tokens) -> Result<File, Refused<Fault>>
    ensures { IsFileIn bytes.now tokens.now.list result }
{
    match read_file(&mut Cursor::new(alloc, bytes, tokens, 0)) {
        Ok(file) => Ok(file),
        Err(error) => Err(refusal_of(alloc, bytes, tokens, error)),
    }
}
