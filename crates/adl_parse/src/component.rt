//! Components and their members.

ghost use Rattle.adl_ast.proofs.Eats.{member_eats};
ghost use Rattle.adl_ast.specs.Codes.{token_code, mark_code};
ghost use Rattle.adl_ast.specs.Forms.{interface_kind, interface_kind_codes, plain_port_line, size_form, buf_line, data_line, dataport_line, interface_codes, maybe_word, interface_line, attribute_line, lock_kind, lock_line, flag_line, member_line, member_codes, member_form, component_line, value_form};
ghost use Rattle.adl_ast.specs.Spelling.{reads};
ghost use Rattle.adl_parse.specs.Members.{flag_codes, body_codes};
ghost use Rattle.adl_parse.specs.Reads.{Reads};
ghost use Rattle.cam_base.specs.Form.{Or, Starts, maybe, behind};
ghost use Rattle.cam_base.specs.Reading.{starts};
ghost use Rattle.cam_base.specs.declared.token.Mark.TheVariants as marks;
ghost use Rattle.std.specs.Prelude.{◌≡◌};

use crate::composition::read_composition;
use crate::configuration::read_configuration;
use crate::cursor::Cursor;
use crate::import::read_import;
use crate::repeated::{Repeated, read_all};
use crate::terminal::Terminal;
use crate::typed::{brackets, typed_name};
use crate::value::read_value;
use adl_ast::{Attribute, Component, Id, Interface, InterfaceKind, Lock, LockKind, Member, Value};
use cam_base::{Boxed, Keyword, Mark, Place, ReadError};

/// The kind, the word, the size and the name of an interface.
type Port = (InterfaceKind, (Id, (Option<u64>, Id)));

fn starts_interface_kind(at: &Cursor<'_>) -> bool
    ensures { result ≡ starts token_code interface_kind_codes at.now }
{
    at.next_is(Terminal::Key(Keyword::KUses))
        || at.next_is(Terminal::Key(Keyword::KProvides))
        || at.next_is(Terminal::Key(Keyword::KEmits))
        || at.next_is(Terminal::Key(Keyword::KConsumes))
}

fn interface_kind(at: &mut Cursor<'_>) -> Result<InterfaceKind, ReadError>
    ensures { Reads result at.new (reads interface_kind at.old) }
{
    if at.next_is(Terminal::Key(Keyword::KUses)) {
        at.take(Terminal::Key(Keyword::KUses))?;
        Ok(InterfaceKind::Uses)
    } else if at.next_is(Terminal::Key(Keyword::KProvides)) {
        at.take(Terminal::Key(Keyword::KProvides))?;
        Ok(InterfaceKind::Provides)
    } else if at.next_is(Terminal::Key(Keyword::KEmits)) {
        at.take(Terminal::Key(Keyword::KEmits))?;
        Ok(InterfaceKind::Emits)
    } else {
        at.take(Terminal::Key(Keyword::KConsumes))?;
        Ok(InterfaceKind::Consumes)
    }
}

#[tactic(auto, unfolding(adl_ast::specs::Forms::plain_port_line))]
fn plain_port(at: &mut Cursor<'_>) -> Result<Port, ReadError>
    ensures { Reads result at.new (reads plain_port_line at.old) }
{
    let kind = interface_kind(at)?;
    let procedure = at.word()?;
    let id = at.word()?;
    Ok((kind, (procedure, (None, id))))
}

fn maybe_size(at: &mut Cursor<'_>) -> Result<Option<u64>, ReadError>
    ensures { Reads result at.new (reads (maybe size_form) at.old) }
{
    if !at.next_is(Terminal::Mark(Mark::ParenL)) {
        return Ok(None);
    }
    at.take(Terminal::Mark(Mark::ParenL))?;
    let size = at.take(Terminal::Number)?.number();
    at.take(Terminal::Mark(Mark::ParenR))?;
    Ok(Some(size))
}

#[tactic(auto, unfolding(adl_ast::specs::Forms::buf_line))]
fn buf(at: &mut Cursor<'_>) -> Result<(Id, (Option<u64>, Id)), ReadError>
    ensures { Reads result at.new (reads buf_line at.old) }
{
    let word = at.take(Terminal::Buf)?;
    let size = maybe_size(at)?;
    let id = at.word()?;
    Ok((word.id(at.alloc())?, (size, id)))
}

#[tactic(auto, unfolding(adl_ast::specs::Forms::data_line))]
fn data(at: &mut Cursor<'_>) -> Result<(Id, (Option<u64>, Id)), ReadError>
    ensures { Reads result at.new (reads data_line at.old) }
{
    let word = at.take(Terminal::NotBuf)?;
    let id = at.word()?;
    Ok((word.id(at.alloc())?, (None, id)))
}

#[tactic(auto, unfolding(adl_ast::specs::Forms::dataport_line))]
fn dataport(at: &mut Cursor<'_>) -> Result<Port, ReadError>
    ensures { Reads result at.new (reads dataport_line at.old) }
{
    at.take(Terminal::Key(Keyword::KDataport))?;
    if at.next_is(Terminal::Buf) {
        Ok((InterfaceKind::Dataport, buf(at)?))
    } else {
        Ok((InterfaceKind::Dataport, data(at)?))
    }
}

fn maybe_word(at: &mut Cursor<'_>) -> Result<bool, ReadError>
    ensures { Reads result at.new (reads maybe_word at.old) }
{
    if !at.next_is(Terminal::Key(Keyword::KMaybe)) {
        return Ok(false);
    }
    at.take(Terminal::Key(Keyword::KMaybe))?;
    Ok(true)
}

fn port(at: &mut Cursor<'_>) -> Result<Port, ReadError>
    ensures { Reads result at.new (reads (Or (Starts interface_kind_codes plain_port_line) dataport_line) at.old) }
{
    if starts_interface_kind(at) {
        plain_port(at)
    } else {
        dataport(at)
    }
}

#[tactic(auto, unfolding(adl_ast::specs::Forms::interface_line))]
fn interface(at: &mut Cursor<'_>) -> Result<Interface, ReadError>
    ensures { Reads result at.new (reads interface_line at.old) }
{
    let maybe = maybe_word(at)?;
    let (kind, (word, (size, id))) = port(at)?;
    at.take(Terminal::Mark(Mark::Semi))?;
    Ok(Interface {
        maybe,
        kind,
        word,
        size,
        id,
    })
}

fn maybe_value(at: &mut Cursor<'_>) -> Result<Option<Boxed<Value>>, ReadError>
    ensures { Reads result at.new (reads (maybe (behind (mark_code marks.Equals) value_form)) at.old) }
{
    if !at.next_is(Terminal::Mark(Mark::Equals)) {
        return Ok(None);
    }
    at.take(Terminal::Mark(Mark::Equals))?;
    let value = read_value(at)?;
    Ok(Some(Boxed::new(at.alloc(), value)?))
}

#[tactic(auto, unfolding(adl_ast::specs::Forms::attribute_line))]
fn attribute(at: &mut Cursor<'_>) -> Result<Attribute, ReadError>
    ensures { Reads result at.new (reads attribute_line at.old) }
{
    at.take(Terminal::Key(Keyword::KAttribute))?;
    let (words, id) = typed_name(at)?;
    let array = brackets(at)?;
    let value = maybe_value(at)?;
    at.take(Terminal::Mark(Mark::Semi))?;
    Ok(Attribute {
        words,
        id,
        array,
        value,
    })
}

fn lock_kind(at: &mut Cursor<'_>) -> Result<LockKind, ReadError>
    ensures { Reads result at.new (reads lock_kind at.old) }
{
    if at.next_is(Terminal::Key(Keyword::KMutex)) {
        at.take(Terminal::Key(Keyword::KMutex))?;
        Ok(LockKind::Mutex)
    } else if at.next_is(Terminal::Key(Keyword::KSemaphore)) {
        at.take(Terminal::Key(Keyword::KSemaphore))?;
        Ok(LockKind::Semaphore)
    } else {
        at.take(Terminal::Key(Keyword::KBinarySemaphore))?;
        Ok(LockKind::BinarySemaphore)
    }
}

#[tactic(auto, unfolding(adl_ast::specs::Forms::lock_line))]
fn lock(at: &mut Cursor<'_>) -> Result<Lock, ReadError>
    ensures { Reads result at.new (reads lock_line at.old) }
{
    at.take(Terminal::Key(Keyword::KHas))?;
    let kind = lock_kind(at)?;
    let id = at.word()?;
    at.take(Terminal::Mark(Mark::Semi))?;
    Ok(Lock { kind, id })
}

#[tactic(auto, unfolding(adl_ast::specs::Forms::flag_line))]
fn flag(at: &mut Cursor<'_>, keyword: Keyword) -> Result<Place, ReadError>
    ensures { Reads result at.new (reads (flag_line keyword) at.old) }
{
    let place = at.take(Terminal::Key(keyword))?.place();
    at.take(Terminal::Mark(Mark::Semi))?;
    Ok(place)
}

fn starts_interface(at: &Cursor<'_>) -> bool
    ensures { result ≡ starts token_code interface_codes at.now }
{
    at.next_is(Terminal::Key(Keyword::KMaybe))
        || starts_interface_kind(at)
        || at.next_is(Terminal::Key(Keyword::KDataport))
}

fn starts_flag(at: &Cursor<'_>) -> bool
    ensures { result ≡ starts token_code flag_codes at.now }
{
    at.next_is(Terminal::Key(Keyword::KControl))
        || at.next_is(Terminal::Key(Keyword::KHardware))
        || at.next_is(Terminal::Key(Keyword::KInclude))
}

fn starts_body(at: &Cursor<'_>) -> bool
    ensures { result ≡ starts token_code body_codes at.now }
{
    at.next_is(Terminal::Key(Keyword::KAttribute))
        || at.next_is(Terminal::Key(Keyword::KHas))
        || at.next_is(Terminal::Key(Keyword::KComposition))
        || at.next_is(Terminal::Key(Keyword::KConfiguration))
}

fn starts_member(at: &Cursor<'_>) -> bool
    ensures { result ≡ starts token_code member_codes at.now }
{
    starts_flag(at) || starts_interface(at) || starts_body(at)
}

struct Members;

impl Repeated for Members {
    type Item = Member;

    ghost form = { member_form };

    ghost eats = { member_eats };

    fn starts(at: &Cursor<'_>) -> bool {
        starts_member(at)
    }

    #[tactic(auto, unfolding(adl_ast::specs::Forms::member_line))]
    fn read(at: &mut Cursor<'_>) -> Result<Member, ReadError> {
        if at.next_is(Terminal::Key(Keyword::KControl)) {
            Ok(Member::Control(flag(at, Keyword::KControl)?))
        } else if at.next_is(Terminal::Key(Keyword::KHardware)) {
            Ok(Member::Hardware(flag(at, Keyword::KHardware)?))
        } else if at.next_is(Terminal::Key(Keyword::KInclude)) {
            Ok(Member::Include(read_import(at, Keyword::KInclude)?))
        } else if starts_interface(at) {
            Ok(Member::Interface(interface(at)?))
        } else if at.next_is(Terminal::Key(Keyword::KAttribute)) {
            Ok(Member::Attribute(attribute(at)?))
        } else if at.next_is(Terminal::Key(Keyword::KHas)) {
            Ok(Member::Lock(lock(at)?))
        } else if at.next_is(Terminal::Key(Keyword::KComposition)) {
            Ok(Member::Composition(read_composition(at)?))
        } else {
            Ok(Member::Configuration(read_configuration(at)?))
        }
    }
}

/// A component.
#[tactic(auto, unfolding(adl_ast::specs::Forms::component_line))]
pub fn read_component(at: &mut Cursor<'_>) -> Result<Component, ReadError>
    ensures { Reads result at.new (reads component_line at.old) }
{
    at.take(Terminal::Key(Keyword::KComponent))?;
    let id = at.word()?;
    at.take(Terminal::Mark(Mark::BraceL))?;
    let members = read_all::<Members>(at)?;
    at.take(Terminal::Mark(Mark::BraceR))?;
    Ok(Component { id, members })
}
