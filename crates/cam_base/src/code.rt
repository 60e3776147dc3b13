ghost use Rattle.cam_base.specs.Codes.{number_of, title_of};
ghost use Rattle.std.specs.Prelude.{◌≡◌};

/// What can be wrong with a source, one variant a title; the order is that of the numbers.
#[derive(Clone, Copy, Debug)]
pub enum Code {
    /// A byte that begins no token.
    Byte,
    /// A text or comment without its end.
    Unclosed,
    /// A run that begins with a digit and is no number.
    Number,
    /// The first token that goes on with no file.
    Syntax,
    /// A file that is absent.
    NoFile,
    /// An import path, or a root, that names no file.
    BadPath,
    /// An assembly behind the first.
    SecondAssembly,
    /// No assembly at all.
    NoAssembly,
    /// A name that is taken, or a second composition or configuration.
    Duplicate,
    /// A name that nothing has.
    Unknown,
    /// An instance whose type holds the component that holds it.
    Recursive,
    /// A member that a composite, a device or a plain component can't have.
    CompositeBody,
    /// An export that fits no interface, or an interface that no export gives.
    Export,
    /// An end at an interface of another kind.
    Kind,
    /// Ends of different types, or a port of a size that is out of range.
    TypeMismatch,
    /// A connection with another number of ends.
    EndCount,
    /// An interface that is joined once too often.
    UsedTwice,
    /// A needed interface that nothing joins.
    Unconnected,
    /// A device in a group, or a direct call between domains.
    Placement,
    /// A setting's value that isn't allowed.
    Value,
    /// A setting that an earlier line gives.
    SettingTwice,
    /// A setting that has no default and no value.
    Missing,
    /// Two devices that share a physical page.
    DeviceOverlap,
    /// Two devices with one interrupt number.
    IrqTwice,
    /// Two ends of a connection with one badge.
    BadgeTwice,
    /// A table of sections that is absent.
    NoSections,
    /// A line of a table of sections that is no section.
    BadSections,
    /// Two sections on one page.
    SectionOverlap,
    /// A section outside the program's part of the address space.
    Window,
    /// More than a stated limit.
    Limit,
    /// A byte, word or number of the full language that this profile leaves out.
    LeftOut,
}

impl Code {
    /// The number behind the letter E, as the table of codes gives it.
    pub fn number(self) -> u8
        ensures { result ≡ number_of self }
    {
        match self {
            Code::Byte => 1,
            Code::Unclosed => 2,
            Code::Number => 3,
            Code::Syntax => 4,
            Code::NoFile => 5,
            Code::BadPath => 6,
            Code::SecondAssembly => 7,
            Code::NoAssembly => 8,
            Code::Duplicate => 9,
            Code::Unknown => 10,
            Code::Recursive => 11,
            Code::CompositeBody => 12,
            Code::Export => 13,
            Code::Kind => 14,
            Code::TypeMismatch => 15,
            Code::EndCount => 16,
            Code::UsedTwice => 17,
            Code::Unconnected => 18,
            Code::Placement => 19,
            Code::Value => 20,
            Code::SettingTwice => 21,
            Code::Missing => 22,
            Code::DeviceOverlap => 23,
            Code::IrqTwice => 24,
            Code::BadgeTwice => 25,
            Code::NoSections => 26,
            Code::BadSections => 27,
            Code::SectionOverlap => 28,
            Code::Window => 29,
            Code::Limit => 30,
            Code::LeftOut => 31,
        }
    }

    /// The title, as the table of codes gives it.
    pub fn title(self) -> &'static str
        ensures { result.now ≡ title_of self }
    {
        match self {
            Code::Byte => "Byte",
            Code::Unclosed => "Unclosed",
            Code::Number => "Number",
            Code::Syntax => "Syntax",
            Code::NoFile => "NoFile",
            Code::BadPath => "BadPath",
            Code::SecondAssembly => "SecondAssembly",
            Code::NoAssembly => "NoAssembly",
            Code::Duplicate => "Duplicate",
            Code::Unknown => "Unknown",
            Code::Recursive => "Recursive",
            Code::CompositeBody => "CompositeBody",
            Code::Export => "Export",
            Code::Kind => "Kind",
            Code::TypeMismatch => "TypeMismatch",
            Code::EndCount => "EndCount",
            Code::UsedTwice => "UsedTwice",
            Code::Unconnected => "Unconnected",
            Code::Placement => "Placement",
            Code::Value => "Value",
            Code::SettingTwice => "SettingTwice",
            Code::Missing => "Missing",
            Code::DeviceOverlap => "DeviceOverlap",
            Code::IrqTwice => "IrqTwice",
            Code::BadgeTwice => "BadgeTwice",
            Code::NoSections => "NoSections",
            Code::BadSections => "BadSections",
            Code::SectionOverlap => "SectionOverlap",
            Code::Window => "Window",
            Code::Limit => "Limit",
            Code::LeftOut => "LeftOut",
        }
    }
}
