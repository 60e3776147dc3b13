use crate::Field;
use cap_model::Level;

/// A run of bytes of a text, from its first byte to the byte past its last.
#[derive(Clone, Copy)]
pub struct Span {
    pub first: u32,
    pub end: u32,
}

#[derive(Clone, Copy)]
pub enum Mark {
    BraceL,
    BraceR,
    ParenL,
    ParenR,
    SquareL,
    SquareR,
    Equals,
    Colon,
    Comma,
}

/// Words, by what they stand for where they don't name an object. A plain word stands for nothing else.
#[derive(Clone, Copy)]
pub enum Word {
    Plain,
    Arch,
    Arm11,
    Aarch64,
    Objects,
    Caps,
    /// The word `irq`, of the kind of object and of the last part.
    Irq,
    Maps,
    Endpoint,
    Notification,
    CNode,
    Bits,
    Thread,
    Frame,
    Pages(Level),
    Field(Field),
    /// The word `CDL_FrameFill_FileData`.
    FileData,
    Cspace,
    Vspace,
    /// The word `ipc_buffer_slot`.
    Buffer,
    Badge,
    /// A word of the letters of rights.
    Rights,
    /// Such a word with the letter X too, which this profile leaves out.
    LeftOutRights,
}

#[derive(Clone, Copy)]
pub enum Kind {
    Word(Word),
    Number(u64),
    /// The size `4k`.
    Page,
    Text,
    Mark(Mark),
}

/// A token. Definitions alone speak of it; readers keep lexemes.
#[derive(Clone, Copy)]
pub struct Token {
    pub kind: Kind,
    pub place: Span,
}

/// What kind of token stands at a place, without the value of a number.
#[derive(Clone, Copy)]
pub enum Sort {
    Word(Word),
    Number,
    /// The size `4k`.
    Page,
    Text,
    Mark(Mark),
}

/// A token as readers keep it: the value of a number is read from its bytes.
#[derive(Clone, Copy)]
pub struct Lexeme {
    pub sort: Sort,
    pub place: Span,
}
