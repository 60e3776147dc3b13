//! The words that steps begin with.

ghost use Rattle.std.specs.Prelude.{◌≡◌};
ghost use Rattle.step_text.specs.Verbs.{copying_verb, speaking_verb, setting_verb, verb_of};

/// The words that steps begin with.
#[derive(Clone, Copy)]
pub enum Verb {
    Take,
    Put,
    Grant,
    Call,
    Reply,
    SetCspace,
    SetVspace,
    Map,
    Bind,
    Drop,
    Save,
    ReplyTo,
}

/// The word that a field spells.
pub fn read_verb(field: &[u8]) -> Option<Verb>
    ensures { result ≡ verb_of field.now }
{
    copying_verb(field)
        .or(speaking_verb(field))
        .or(setting_verb(field))
}

fn copying_verb(field: &[u8]) -> Option<Verb>
    ensures { result ≡ copying_verb field.now }
{
    if field == b"take".as_slice() {
        Some(Verb::Take)
    } else if field == b"put".as_slice() {
        Some(Verb::Put)
    } else if field == b"grant".as_slice() {
        Some(Verb::Grant)
    } else if field == b"map".as_slice() {
        Some(Verb::Map)
    } else {
        None
    }
}

fn speaking_verb(field: &[u8]) -> Option<Verb>
    ensures { result ≡ speaking_verb field.now }
{
    if field == b"call".as_slice() {
        Some(Verb::Call)
    } else if field == b"reply".as_slice() {
        Some(Verb::Reply)
    } else if field == b"save".as_slice() {
        Some(Verb::Save)
    } else if field == b"replyto".as_slice() {
        Some(Verb::ReplyTo)
    } else {
        None
    }
}

fn setting_verb(field: &[u8]) -> Option<Verb>
    ensures { result ≡ setting_verb field.now }
{
    if field == b"setcspace".as_slice() {
        Some(Verb::SetCspace)
    } else if field == b"setvspace".as_slice() {
        Some(Verb::SetVspace)
    } else if field == b"bind".as_slice() {
        Some(Verb::Bind)
    } else if field == b"drop".as_slice() {
        Some(Verb::Drop)
    } else {
        None
    }
}
