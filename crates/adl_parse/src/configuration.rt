//! Configurations and their settings.

ghost use Rattle.adl_ast.proofs.Eats.{setting_eats};
ghost use Rattle.adl_ast.specs.Forms.{setter_line, setting_line, setting_form, configuration_line, configuration_form};
ghost use Rattle.adl_ast.specs.Spelling.{reads};
ghost use Rattle.adl_parse.specs.Reads.{Reads};
ghost use Rattle.cam_base.specs.Form.{maybe};

use crate::cursor::Cursor;
use crate::dotted::path;
use crate::repeated::{Repeated, read_all};
use crate::terminal::Terminal;
use crate::value::read_value;
use adl_ast::{Configuration, Setter, Setting};
use cam_base::{Keyword, Mark, ReadError};

#[tactic(auto, unfolding(adl_ast::specs::Forms::setter_line))]
fn setter(at: &mut Cursor<'_>) -> Result<Setter, ReadError>
    ensures { Reads result at.new (reads setter_line at.old) }
{
    if at.next_is(Terminal::Mark(Mark::Equals)) {
        at.take(Terminal::Mark(Mark::Equals))?;
        Ok(Setter::Literal(read_value(at)?))
    } else {
        at.take(Terminal::Mark(Mark::Back))?;
        Ok(Setter::Reference(at.word()?))
    }
}

struct Settings;

impl Repeated for Settings {
    type Item = Setting;

    ghost form = { setting_form };

    ghost eats = { setting_eats };

    fn starts(at: &Cursor<'_>) -> bool {
        at.next_is(Terminal::Word)
    }

    #[tactic(auto, unfolding(adl_ast::specs::Forms::setting_line))]
    fn read(at: &mut Cursor<'_>) -> Result<Setting, ReadError> {
        let (words, place) = path(at)?;
        let setter = setter(at)?;
        at.take(Terminal::Mark(Mark::Semi))?;
        Ok(Setting {
            words,
            setter,
            place,
        })
    }
}

/// A configuration.
#[tactic(auto, unfolding(adl_ast::specs::Forms::configuration_line))]
pub fn read_configuration(at: &mut Cursor<'_>) -> Result<Configuration, ReadError>
    ensures { Reads result at.new (reads configuration_line at.old) }
{
    let place = at.take(Terminal::Key(Keyword::KConfiguration))?.place();
    at.take(Terminal::Mark(Mark::BraceL))?;
    let settings = read_all::<Settings>(at)?;
    at.take(Terminal::Mark(Mark::BraceR))?;
    Ok(Configuration { place, settings })
}

/// A configuration, or nothing.
pub fn maybe_configuration(at: &mut Cursor<'_>) -> Result<Option<Configuration>, ReadError>
    ensures { Reads result at.new (reads (maybe configuration_form) at.old) }
{
    if !at.next_is(Terminal::Key(Keyword::KConfiguration)) {
        return Ok(None);
    }
    Ok(Some(read_configuration(at)?))
}
