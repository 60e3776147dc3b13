//! Holders, interrupt lines and whole texts.

ghost use Rattle.capdl_read.specs.Parsing.{IsParsed, IsTreeRead};
ghost use Rattle.capdl_read.specs.Reads.{Reads};
ghost use Rattle.capdl_text.proofs.Eats.{holder_eats, irq_eats};
ghost use Rattle.capdl_text.specs.Codes.{name_codes, number_code};
ghost use Rattle.capdl_text.specs.Forms.{arch_line, block, holder_form, irq_form, maybe_irqs, spec_line};
ghost use Rattle.capdl_text.specs.Lexemes.{sees, tokens_of};
ghost use Rattle.capdl_text.specs.Spelling.{reads};
ghost use Rattle.capdl_text.specs.Texts.{code_of, place_at, syntax_fault};
ghost use Rattle.cam_base.specs.Form.{Then};
ghost use Rattle.cam_base.specs.Gives.{Gives};
ghost use Rattle.cam_base.specs.Reading.{whole};
ghost use Rattle.std.specs.Prelude.{◌≡◌, ◌≤◌, ◌∷◌, [], length};

use crate::cursor::Cursor;
use crate::line::{Line, block};
use crate::object::Objects;
use crate::slot::Slots;
use cam_base::{List, ReadError, Refused, Stop, Text, TextCode, TextFault, Why};
use cap_model::Arch;
use capdl_text::{Holder, IrqLine, Lexeme, Mark, Sort, SpecTree, Word, lex};
use std::alloc::Global;

struct Holders;

impl<'x> Line<'x> for Holders {
    type Item = Holder<'x>;

    ghost codes = { name_codes };

    ghost gives = { reads holder_form };

    ghost eats = { holder_eats };

    fn starts(at: &Cursor<'x, '_>) -> bool {
        at.next_is_name()
    }

    #[tactic(auto, unfolding(capdl_text::specs::Forms::holder_line))]
    fn read(at: &mut Cursor<'x, '_>) -> Result<Holder<'x>, ReadError> {
        let id = at.name()?;
        let slots = block::<Slots>(at)?;
        Ok(Holder { id, slots })
    }
}

struct Irqs;

impl<'x> Line<'x> for Irqs {
    type Item = IrqLine<'x>;

    ghost codes = { number_code ∷ [] };

    ghost gives = { reads irq_form };

    ghost eats = { irq_eats };

    fn starts(at: &Cursor<'x, '_>) -> bool {
        at.next_is(Sort::Number)
    }

    #[tactic(auto, unfolding(capdl_text::specs::Forms::irq_line))]
    fn read(at: &mut Cursor<'x, '_>) -> Result<IrqLine<'x>, ReadError> {
        let number = at.number()?;
        at.take(Sort::Mark(Mark::Colon))?;
        let object = at.name()?;
        Ok(IrqLine { number, object })
    }
}

#[tactic(auto, unfolding(capdl_text::specs::Forms::maybe_irqs, capdl_text::specs::Forms::irqs_line))]
fn maybe_irqs<'x>(at: &mut Cursor<'x, '_>) -> Result<List<IrqLine<'x>>, ReadError>
    ensures { Reads result at.new (reads maybe_irqs at.old) }
{
    if !at.next_is(Sort::Word(Word::Irq)) {
        return Ok(List::new(at.alloc()));
    }
    at.take(Sort::Word(Word::Irq))?;
    at.take(Sort::Word(Word::Maps))?;
    block::<Irqs>(at)
}

#[tactic(auto, unfolding(capdl_text::specs::Forms::arch_line))]
fn arch(at: &mut Cursor) -> Result<Arch, ReadError>
    ensures { Reads result at.new (reads arch_line at.old) }
{
    if at.next_is(Sort::Word(Word::Arm11)) {
        at.take(Sort::Word(Word::Arm11))?;
        return Ok(Arch::Arm11);
    }
    at.take(Sort::Word(Word::Aarch64))?;
    Ok(Arch::Aarch64)
}

/// Holders, and the interrupt lines behind them.
fn held<'x>(at: &mut Cursor<'x, '_>) -> Result<(List<Holder<'x>>, List<IrqLine<'x>>), ReadError>
    ensures { Reads result at.new (reads (Then (block holder_form) maybe_irqs) at.old) }
{
    let holders = block::<Holders>(at)?;
    let irqs = maybe_irqs(at)?;
    Ok((holders, irqs))
}

#[tactic(auto, unfolding(capdl_text::specs::Forms::spec_line))]
fn spec<'x>(at: &mut Cursor<'x, '_>) -> Result<SpecTree<'x>, ReadError>
    ensures { Reads result at.new (reads spec_line at.old) }
{
    at.take(Sort::Word(Word::Arch))?;
    let arch = arch(at)?;
    at.take(Sort::Word(Word::Objects))?;
    let objects = block::<Objects>(at)?;
    at.take(Sort::Word(Word::Caps))?;
    let (holders, irqs) = held(at)?;
    Ok(SpecTree {
        arch,
        objects,
        holders,
        irqs,
    })
}

fn whole_tree<'x>(at: &mut Cursor<'x, '_>) -> Result<SpecTree<'x>, ReadError>
    ensures { Gives (λ x. x) result (whole (reads spec_line) at.old) }
{
    let tree = spec(at)?;
    if at.left() > 0 {
        return Err(at.stop(Why::Unexpected));
    }
    Ok(tree)
}

fn code_of(why: Why) -> TextCode
    ensures { result ≡ code_of why }
{
    match why {
        Why::Unexpected => TextCode::CapdlSyntax,
        Why::TooDeep => TextCode::CapdlLeftOut,
    }
}

/// Where the first token stands, or the end.
fn place_at(bytes: &[u8], tokens: &[Lexeme]) -> (u64, u64)
    ensures first { result.0 ≡ (place_at (length bytes.now) (tokens_of bytes.now tokens.now)).first }
    ensures end { result.1 ≡ (place_at (length bytes.now) (tokens_of bytes.now tokens.now)).end }
{
    match tokens {
        [] => (bytes.len() as u64, bytes.len() as u64),
        [token, ..] => (u64::from(token.place.first), u64::from(token.place.end)),
    }
}

/// The fault where so many of the tokens are left.
fn syntax_fault(alloc: Global, bytes: &[u8], tokens: &[Lexeme], stop: Stop) -> TextFault
    ensures { result ≡ syntax_fault bytes.now (tokens_of bytes.now tokens.now) stop.why stop.left }
{
    let at = tokens.len().saturating_sub(stop.left);
    let (first, end) = place_at(bytes, &tokens[at..]);
    TextFault {
        code: code_of(stop.why),
        first,
        end,
        name: Text::empty(alloc),
    }
}

/// The tree that the tokens spell, or the fault where they stop being those of a text.
fn parse<'x>(
    alloc: Global,
    bytes: &'x [u8],
    tokens: &[Lexeme],
) -> Result<SpecTree<'x>, Refused<TextFault>>
    ensures { IsParsed bytes.now (tokens_of bytes.now tokens.now) result }
{
    match whole_tree(&mut Cursor::new(alloc, bytes, tokens)) {
        Ok(tree) => Ok(tree),
        Err(ReadError::NoMemory) => Err(Refused::NoMemory),
        Err(ReadError::Stop(stop)) => Err(Refused::Fault(syntax_fault(alloc, bytes, tokens, stop))),
    }
}

/// The tree of a text, or the first fault of its tokens or of its grammar. Keeps no tokens.
pub fn read_tree<'x>(alloc: Global, bytes: &'x [u8]) -> Result<SpecTree<'x>, Refused<TextFault>>
    ensures { IsTreeRead bytes.now result }
{
    let lexemes = lex(alloc, bytes)?;
    parse(alloc, bytes, lexemes.as_slice())
}
