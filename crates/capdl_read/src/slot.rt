//! Slots and their capabilities.

ghost use Rattle.capdl_read.specs.Reads.{Reads, ReadsAs, seen};
ghost use Rattle.capdl_text.proofs.Eats.{param_eats, slot_eats};
ghost use Rattle.capdl_text.specs.Forms.{badge_line, key_codes, key_line, param_codes, param_form, slot_form};
ghost use Rattle.capdl_text.specs.Spelling.{reads};
ghost use Rattle.cam_base.specs.Form.{Nested};

use crate::cursor::Cursor;
use crate::line::{Line, maybe_some};
use crate::token::TokenAt;
use cam_base::{ReadError, Why};
use cap_model::Rights;
use capdl_text::{Mark, Param, SlotKey, SlotLine, Sort, Word};

#[tactic(auto, unfolding(capdl_text::specs::Forms::badge_line))]
fn badge(at: &mut Cursor) -> Result<Param, ReadError>
    ensures { Reads result at.new (reads badge_line at.old) }
{
    let word = at.take(Sort::Word(Word::Badge))?;
    at.take(Sort::Mark(Mark::Colon))?;
    Ok(Param::Badge(word.place, at.number()?))
}

/// A word of rights that is left out, which no text has.
#[tactic(auto, unfolding(cam_base::specs::Reading::read_deep))]
fn left_out<'x>(at: &Cursor<'x, '_>) -> Result<TokenAt<'x>, ReadError>
    ensures { ReadsAs seen result at.now (reads Nested at.now) }
{
    if at.next_is(Sort::Word(Word::LeftOutRights)) {
        Err(at.stop(Why::TooDeep))
    } else {
        Err(at.stop(Why::Unexpected))
    }
}

struct Params;

impl<'x> Line<'x> for Params {
    type Item = Param;

    ghost codes = { param_codes };

    ghost gives = { reads param_form };

    ghost eats = { param_eats };

    fn starts(at: &Cursor<'x, '_>) -> bool {
        at.next_is(Sort::Word(Word::Rights))
            || at.next_is(Sort::Word(Word::Badge))
            || at.next_is(Sort::Word(Word::LeftOutRights))
    }

    #[tactic(auto, unfolding(capdl_text::specs::Forms::param_line))]
    fn read(at: &mut Cursor<'x, '_>) -> Result<Param, ReadError> {
        if at.next_is(Sort::Word(Word::Rights)) {
            let word = at.take(Sort::Word(Word::Rights))?;
            Ok(Param::Rights(word.rights(), word.place))
        } else if at.next_is(Sort::Word(Word::Badge)) {
            badge(at)
        } else {
            Ok(Param::Rights(Rights::none(), left_out(at)?.place))
        }
    }
}

#[tactic(auto, unfolding(capdl_text::specs::Forms::key_line))]
fn key<'x>(at: &mut Cursor<'x, '_>) -> Result<(SlotKey, TokenAt<'x>), ReadError>
    ensures { ReadsAs (λ x. (x.0, seen x.1)) result at.new (reads key_line at.old) }
{
    if at.next_is(Sort::Number) {
        let token = at.take(Sort::Number)?;
        Ok((SlotKey::Number(token.number().value), token))
    } else if at.next_is(Sort::Word(Word::Cspace)) {
        Ok((SlotKey::Cspace, at.take(Sort::Word(Word::Cspace))?))
    } else if at.next_is(Sort::Word(Word::Vspace)) {
        Ok((SlotKey::Vspace, at.take(Sort::Word(Word::Vspace))?))
    } else {
        Ok((SlotKey::Buffer, at.take(Sort::Word(Word::Buffer))?))
    }
}

/// The slots of a holder.
pub(crate) struct Slots;

impl<'x> Line<'x> for Slots {
    type Item = SlotLine<'x>;

    ghost codes = { key_codes };

    ghost gives = { reads slot_form };

    ghost eats = { slot_eats };

    fn starts(at: &Cursor<'x, '_>) -> bool {
        at.next_is(Sort::Number)
            || at.next_is(Sort::Word(Word::Cspace))
            || at.next_is(Sort::Word(Word::Vspace))
            || at.next_is(Sort::Word(Word::Buffer))
    }

    #[tactic(auto, unfolding(capdl_text::specs::Forms::slot_line, capdl_text::specs::Forms::maybe_params, capdl_text::specs::Forms::params_line))]
    fn read(at: &mut Cursor<'x, '_>) -> Result<SlotLine<'x>, ReadError> {
        let (key, token) = key(at)?;
        at.take(Sort::Mark(Mark::Colon))?;
        let object = at.name()?;
        let params = maybe_some::<Params>(at)?;
        Ok(SlotLine {
            key,
            place: token.place,
            object,
            params,
        })
    }
}
