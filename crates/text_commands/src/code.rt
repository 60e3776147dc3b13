ghost use Rattle.std.specs.Prelude.{◌≡◌};
ghost use Rattle.text_commands.specs.Codes.{hindrance_title, hindrance_word, title_of, word_of};

use boot_plan::UntypedCode;
use cam_base::TextCode;
use sect_table::ElfCode;

/// What hinders an answer about a system that is read.
#[derive(Clone, Copy)]
pub enum Hindrance {
    /// A CNode holds a capability to a thread.
    HoldsTcb,
    /// There are too many CNodes and capabilities for an audit.
    AuditLimit,
    /// The least certificate has too many edges.
    CertificateLimit,
    /// There is no room for the objects.
    NoRoom,
    /// No region of a device has a frame's page.
    NoDevice,
    /// Two regions share an address.
    Overlap,
    /// Two frames share a page of a device.
    SharedFrame,
}

impl Hindrance {
    /// The letter and the number, as the table of codes gives them.
    pub fn word(self) -> &'static str
        ensures { result.now ≡ hindrance_word self }
    {
        match self {
            Hindrance::HoldsTcb => "A1",
            Hindrance::AuditLimit => "A2",
            Hindrance::CertificateLimit => "A3",
            Hindrance::NoRoom => "B1",
            Hindrance::NoDevice => "B2",
            Hindrance::Overlap => "B3",
            Hindrance::SharedFrame => "B4",
        }
    }

    /// The title, as the table of codes gives it.
    pub fn title(self) -> &'static str
        ensures { result.now ≡ hindrance_title self }
    {
        match self {
            Hindrance::HoldsTcb => "HoldsTcb",
            Hindrance::AuditLimit => "Limit",
            Hindrance::CertificateLimit => "Limit",
            Hindrance::NoRoom => "NoRoom",
            Hindrance::NoDevice => "NoDevice",
            Hindrance::Overlap => "Overlap",
            Hindrance::SharedFrame => "SharedFrame",
        }
    }
}

/// What can be wrong with an input, by the kind of text.
#[derive(Clone, Copy)]
pub enum InputCode {
    Text(TextCode),
    Elf(ElfCode),
    Untyped(UntypedCode),
    /// Nothing is wrong with the texts, but with what they say.
    Hindered(Hindrance),
}

impl InputCode {
    /// The letter and the number, as the table of codes gives them.
    pub fn word(self) -> &'static str
        ensures { result.now ≡ word_of self }
    {
        match self {
            InputCode::Text(code) => code.word(),
            InputCode::Elf(code) => code.word(),
            InputCode::Untyped(code) => code.word(),
            InputCode::Hindered(hindrance) => hindrance.word(),
        }
    }

    /// The title, as the table of codes gives it.
    pub fn title(self) -> &'static str
        ensures { result.now ≡ title_of self }
    {
        match self {
            InputCode::Text(code) => code.title(),
            InputCode::Elf(code) => code.title(),
            InputCode::Untyped(code) => code.title(),
            InputCode::Hindered(hindrance) => hindrance.title(),
        }
    }
}
