//! Assemblies.

ghost use Rattle.adl_ast.specs.Forms.{assembly_line};
ghost use Rattle.adl_ast.specs.Spelling.{reads};
ghost use Rattle.adl_parse.specs.Reads.{Reads};

use crate::composition::read_composition;
use crate::configuration::maybe_configuration;
use crate::cursor::Cursor;
use crate::terminal::Terminal;
use adl_ast::Assembly;
use cam_base::{Keyword, Mark, ReadError};

/// An assembly.
#[tactic(auto, unfolding(adl_ast::specs::Forms::assembly_line))]
pub fn read_assembly(at: &mut Cursor<'_>) -> Result<Assembly, ReadError>
    ensures { Reads result at.new (reads assembly_line at.old) }
{
    let place = at.take(Terminal::Key(Keyword::KAssembly))?.place();
    let id = at.maybe_word()?;
    at.take(Terminal::Mark(Mark::BraceL))?;
    let composition = read_composition(at)?;
    let configuration = maybe_configuration(at)?;
    at.take(Terminal::Mark(Mark::BraceR))?;
    Ok(Assembly {
        place,
        id,
        composition,
        configuration,
    })
}
