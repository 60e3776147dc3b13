ghost use Rattle.cam_base.specs.TextCodes.{word_of, title_of};
ghost use Rattle.std.specs.Prelude.{◌≡◌};

use crate::Text;

/// What can be wrong with a text that isn't a source: capDL, a policy, a certificate, steps.
#[derive(Clone, Copy, Debug)]
pub enum TextCode {
    /// A byte, number or text of capDL that is no token.
    CapdlByte,
    /// The first token that goes on with no capDL text.
    CapdlSyntax,
    /// A name that no object has.
    CapdlUnknown,
    /// Something that stands a second time.
    CapdlTwice,
    /// Something that doesn't suit the kind of object.
    CapdlKindField,
    /// A slot at or past the size.
    CapdlSlotRange,
    /// More than a limit of capDL text.
    CapdlLimit,
    /// A word or size that this profile leaves out.
    CapdlLeftOut,
    /// A line that is of no form of a policy or certificate.
    PolicySyntax,
    /// A label's number or name that an earlier line has.
    LabelTwice,
    /// A number that no label has.
    UnknownLabel,
    /// An object that an earlier line has.
    ObjectTwice,
    /// More than a limit of a policy or certificate.
    PolicyLimit,
    /// An object of the capDL without a label.
    Unlabelled,
    /// A line that is no step.
    StepSyntax,
    /// A name that no thread has.
    StepUnknown,
    /// More than a limit of a steps text.
    StepLimit,
    /// An input that is absent.
    NoFile,
    /// An input that is too long.
    TooLong,
}

impl TextCode {
    /// The letter and the number, as the table of codes gives them.
    pub fn word(self) -> &'static str
        ensures { result.now ≡ word_of self }
    {
        match self {
            TextCode::CapdlByte => "C1",
            TextCode::CapdlSyntax => "C2",
            TextCode::CapdlUnknown => "C3",
            TextCode::CapdlTwice => "C4",
            TextCode::CapdlKindField => "C5",
            TextCode::CapdlSlotRange => "C6",
            TextCode::CapdlLimit => "C7",
            TextCode::CapdlLeftOut => "C8",
            TextCode::PolicySyntax => "Q1",
            TextCode::LabelTwice => "Q2",
            TextCode::UnknownLabel => "Q3",
            TextCode::ObjectTwice => "Q4",
            TextCode::PolicyLimit => "Q5",
            TextCode::Unlabelled => "Q6",
            TextCode::StepSyntax => "S1",
            TextCode::StepUnknown => "S2",
            TextCode::StepLimit => "S3",
            TextCode::NoFile => "F1",
            TextCode::TooLong => "F2",
        }
    }

    /// The title, as the table of codes gives it.
    pub fn title(self) -> &'static str
        ensures { result.now ≡ title_of self }
    {
        match self {
            TextCode::CapdlByte => "Byte",
            TextCode::CapdlSyntax => "Syntax",
            TextCode::CapdlUnknown => "Unknown",
            TextCode::CapdlTwice => "Twice",
            TextCode::CapdlKindField => "KindField",
            TextCode::CapdlSlotRange => "SlotRange",
            TextCode::CapdlLimit => "Limit",
            TextCode::CapdlLeftOut => "LeftOut",
            TextCode::PolicySyntax => "Syntax",
            TextCode::LabelTwice => "LabelTwice",
            TextCode::UnknownLabel => "UnknownLabel",
            TextCode::ObjectTwice => "ObjectTwice",
            TextCode::PolicyLimit => "Limit",
            TextCode::Unlabelled => "Unlabelled",
            TextCode::StepSyntax => "Syntax",
            TextCode::StepUnknown => "Unknown",
            TextCode::StepLimit => "Limit",
            TextCode::NoFile => "NoFile",
            TextCode::TooLong => "TooLong",
        }
    }
}

/// A fault of a text, from its first byte to the byte past its last, with the name that it speaks of or an empty one.
#[derive(Debug, Drop)]
pub struct TextFault {
    pub code: TextCode,
    pub first: u64,
    pub end: u64,
    pub name: Text,
}
