//! Imports and includes.

ghost use Rattle.adl_ast.specs.Forms.{import_line};
ghost use Rattle.adl_ast.specs.Spelling.{reads};
ghost use Rattle.adl_parse.specs.Reads.{Reads};

use crate::cursor::Cursor;
use crate::terminal::Terminal;
use adl_ast::Import;
use cam_base::{Keyword, Mark, ReadError};

/// An import or an include, by its keyword.
#[tactic(auto, unfolding(adl_ast::specs::Forms::import_line))]
pub fn read_import(at: &mut Cursor<'_>, keyword: Keyword) -> Result<Import, ReadError>
    ensures { Reads result at.new (reads (import_line keyword) at.old) }
{
    at.take(Terminal::Key(keyword))?;
    let angle = !at.next_is(Terminal::Text);
    let path = at.take(if angle {
        Terminal::Angle
    } else {
        Terminal::Text
    })?;
    let import = Import {
        path: path.inner_text(at.alloc())?,
        angle,
        place: path.place(),
    };
    at.take(Terminal::Mark(Mark::Semi))?;
    Ok(import)
}
