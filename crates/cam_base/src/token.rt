use crate::{List, Place};

/// A mark of the language.
#[derive(Clone, Copy, Debug)]
pub enum Mark {
    /// `{`
    BraceL,
    /// `}`
    BraceR,
    /// `(`
    ParenL,
    /// `)`
    ParenR,
    /// `[`
    SquareL,
    /// `]`
    SquareR,
    /// `;`
    Semi,
    /// `,`
    Comma,
    /// `.`
    Dot,
    /// `=`
    Equals,
    /// `:`
    Colon,
    /// `->`
    Arrow,
    /// `<-`
    Back,
}

/// A word that can't be a name, one variant a word.
#[derive(Clone, Copy, Debug)]
pub enum Keyword {
    /// `assembly`
    KAssembly,
    /// `attribute`
    KAttribute,
    /// `binary_semaphore`
    KBinarySemaphore,
    /// `component`
    KComponent,
    /// `composition`
    KComposition,
    /// `configuration`
    KConfiguration,
    /// `connection`
    KConnection,
    /// `consumes`
    KConsumes,
    /// `control`
    KControl,
    /// `dataport`
    KDataport,
    /// `emits`
    KEmits,
    /// `export`
    KExport,
    /// `from`
    KFrom,
    /// `group`
    KGroup,
    /// `hardware`
    KHardware,
    /// `has`
    KHas,
    /// `import`
    KImport,
    /// `in`
    KIn,
    /// `include`
    KInclude,
    /// `inout`
    KInout,
    /// `maybe`
    KMaybe,
    /// `mutex`
    KMutex,
    /// `out`
    KOut,
    /// `procedure`
    KProcedure,
    /// `provides`
    KProvides,
    /// `refin`
    KRefin,
    /// `semaphore`
    KSemaphore,
    /// `to`
    KTo,
    /// `uses`
    KUses,
}

/// The kind of a token.
#[derive(Clone, Copy, Debug)]
pub enum Kind {
    /// An identifier that is no keyword.
    Word,
    Key(Keyword),
    /// A decimal or hexadecimal number, with its value.
    Number(u64),
    /// Bytes between quotes.
    Text,
    /// A path between angle brackets.
    Angle,
    Mark(Mark),
}

/// A token: its kind, and the place of its bytes.
#[derive(Clone, Copy)]
pub struct Token {
    pub kind: Kind,
    pub place: Place,
}

/// The tokens of a file, in order.
#[derive(Drop)]
pub struct Tokens {
    pub list: List<Token>,
}
