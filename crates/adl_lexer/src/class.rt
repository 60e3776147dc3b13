//! The classes of bytes.

ghost use Rattle.adl_lexer.specs.Classes.{class_of};
ghost use Rattle.std.specs.Prelude.{◌≡◌};

// A number for each class, as in `specs/Classes.antt`. Those up to `DIGIT` are of bytes of words.
pub(crate) const LETTER: u8 = 0;

pub(crate) const HEX_LETTER: u8 = 1;

pub(crate) const CROSS: u8 = 2;

pub(crate) const ZERO_DIGIT: u8 = 3;

pub(crate) const DIGIT: u8 = 4;

pub(crate) const BLANK: u8 = 5;

pub(crate) const LINE_FEED: u8 = 6;

pub(crate) const SLASH: u8 = 7;

pub(crate) const LESS: u8 = 8;

pub(crate) const MINUS: u8 = 9;

pub(crate) const GREATER: u8 = 10;

pub(crate) const QUOTE: u8 = 11;

pub(crate) const BACKSLASH: u8 = 12;

pub(crate) const DOT: u8 = 13;

pub(crate) const BRACE_L: u8 = 14;

pub(crate) const BRACE_R: u8 = 15;

pub(crate) const PAREN_L: u8 = 16;

pub(crate) const PAREN_R: u8 = 17;

pub(crate) const SQUARE_L: u8 = 18;

pub(crate) const SQUARE_R: u8 = 19;

pub(crate) const SEMI: u8 = 20;

pub(crate) const COMMA: u8 = 21;

pub(crate) const EQUALS: u8 = 22;

pub(crate) const COLON: u8 = 23;

pub(crate) const LEFT_OUT: u8 = 24;

pub(crate) const OTHER: u8 = 25;

/// The class of each byte.
const CLASSES: &[u8; 256] = &[
    25, 25, 25, 25, 25, 25, 25, 25, 25, 5, 6, 25, 25, 5, 25, 25, 25, 25, 25, 25, 25, 25, 25, 25,
    25, 25, 25, 25, 25, 25, 25, 25, 5, 24, 11, 24, 25, 24, 24, 25, 16, 17, 24, 24, 21, 9, 13, 7, 3,
    4, 4, 4, 4, 4, 4, 4, 4, 4, 23, 20, 8, 22, 10, 24, 25, 1, 1, 1, 1, 1, 1, 0, 0, 0, 0, 0, 0, 0, 0,
    0, 0, 0, 0, 0, 0, 0, 0, 0, 2, 0, 0, 18, 12, 19, 24, 0, 25, 1, 1, 1, 1, 1, 1, 0, 0, 0, 0, 0, 0,
    0, 0, 0, 0, 0, 0, 0, 0, 0, 0, 0, 2, 0, 0, 14, 24, 15, 24, 25, 25, 25, 25, 25, 25, 25, 25, 25,
    25, 25, 25, 25, 25, 25, 25, 25, 25, 25, 25, 25, 25, 25, 25, 25, 25, 25, 25, 25, 25, 25, 25, 25,
    25, 25, 25, 25, 25, 25, 25, 25, 25, 25, 25, 25, 25, 25, 25, 25, 25, 25, 25, 25, 25, 25, 25, 25,
    25, 25, 25, 25, 25, 25, 25, 25, 25, 25, 25, 25, 25, 25, 25, 25, 25, 25, 25, 25, 25, 25, 25, 25,
    25, 25, 25, 25, 25, 25, 25, 25, 25, 25, 25, 25, 25, 25, 25, 25, 25, 25, 25, 25, 25, 25, 25, 25,
    25, 25, 25, 25, 25, 25, 25, 25, 25, 25, 25, 25, 25, 25, 25, 25, 25, 25, 25, 25, 25, 25, 25, 25,
];

/// The class of a byte, by its number in `specs/Classes.antt`.
#[tactic(auto, using(crate::proofs::Classes::class_in_table))]
#[inline(always)]
pub(crate) fn class(byte: u8) -> u8
    ensures { result ≡ class_of byte }
{
    CLASSES[byte as usize]
}
