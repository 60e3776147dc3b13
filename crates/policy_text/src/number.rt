//! Numbers as they are written: decimal, without leading zeros, of any length.

ghost use Rattle.cam_base.specs.Numbers.{is_decimal, is_digit};
ghost use Rattle.policy_text.specs.Numbers.{narrow};
ghost use Rattle.policy_text.specs.PolicyFaults.{is_past};
ghost use Rattle.std.specs.List.{list_all};
ghost use Rattle.std.specs.Prelude.{◌≡◌, true, false, IfSome, IfNone};

use cam_base::read_number;

/// The number that no label reaches.
const LABELS: u64 = 8192;

/// A number as it is written, and its value, 0 where that passes 2^32 - 1.
#[derive(Clone, Copy)]
pub struct Digits<'a> {
    pub text: &'a [u8],
    pub value: u32,
    ghost right: { value ≡ narrow text.now },
}

impl<'a> Digits<'a> {
    /// The number that the bytes are, none exactly where they are no decimal number without leading zeros.
    pub fn read(text: &'a [u8]) -> Option<Digits<'a>>
        ensures some { IfSome result (λ digits. digits.text.now ≡ text.entry.now) }
        ensures decimal { IfSome result (λ digits. is_decimal text.entry.now ≡ true) }
        ensures none { IfNone result (is_decimal text.entry.now ≡ false) }
    {
        if is_decimal(text) {
            let value = narrow(text);
            Some(Digits { text, value })
        } else {
            None
        }
    }
}

/// Whether the bytes are a decimal number without leading zeros.
fn is_decimal(bytes: &[u8]) -> bool
    ensures { result ≡ is_decimal bytes.now }
{
    match bytes {
        [] => false,
        [b'0', rest @ ..] => rest.is_empty(),
        [first, rest @ ..] => first.is_ascii_digit() && all_digits(rest),
    }
}

fn all_digits(bytes: &[u8]) -> bool
    ensures { result ≡ list_all is_digit bytes.now }
{
    bytes.iter().all(|b| b.is_ascii_digit())
}

/// Whether the number is past the last that a label may have.
pub fn is_past(number: &[u8]) -> bool
    ensures { result ≡ is_past number.now }
{
    match read_number(number) {
        Some(value) => value >= LABELS,
        None => true,
    }
}

/// The number's value, 0 where it passes 2^32 - 1.
fn narrow(number: &[u8]) -> u32
    ensures { result ≡ narrow number.now }
{
    match read_number(number) {
        Some(value) if value < 4_294_967_296 => value as u32,
        _ => 0,
    }
}
