//! The values that settings may have, and what they mean.

ghost use Rattle.adl_meaning.specs.Prelude.{digits_value, is_digit, list_all, option_copied};
ghost use Rattle.adl_settings.specs.Allowed.{access_in, badge_in, badge_named, irq_in, number_in, paddr_in, priority_in, size_in, sized, stack_in, text_in, whole_pages, within};
ghost use Rattle.std.specs.Prelude.{IfSome, length, true, ◌*◌, ◌+◌, ◌<◌, ◌^◌, ◌≡◌, ◌≤◌};

use crate::Access;
use adl_ast::{Value, ValueKind};

/// The bytes of a page.
pub const PAGE: u64 = 4096;

/// The highest badge.
const GREATEST_BADGE: u64 = 268_435_455;

/// The most bytes that shared memory or the registers of a device may have.
const GREATEST_SIZE: u64 = 268_435_456;

/// The end of physical memory.
const PHYSICAL_END: u64 = 1 << 48;

fn number_in(value: &Value) -> Option<u64>
    ensures { result ≡ number_in value.now.kind }
{
    match &value.kind {
        ValueKind::Number(number) => Some(*number),
        _ => None,
    }
}

fn text_in(value: &Value) -> Option<&[u8]>
    ensures { option_copied result ≡ text_in value.now.kind }
{
    match &value.kind {
        ValueKind::Text(text) => Some(text.as_bytes()),
        _ => None,
    }
}

fn within(least: u64, greatest: u64, number: u64) -> Option<u64>
    ensures value { result ≡ within least greatest number }
    ensures bound { IfSome result (λ n. n ≤ greatest) }
{
    (least <= number && number <= greatest).then_some(number)
}

/// So many bytes, rounded up to whole pages.
fn whole_pages(bytes: u64) -> u64
    requires { bytes ≤ 2 ^ 32 }
    ensures { result ≡ whole_pages bytes }
{
    (bytes + (PAGE - 1)) / PAGE * PAGE
}

/// The priority that a value means.
pub fn priority_in(value: &Value) -> Option<u8>
    ensures { result ≡ priority_in value.now }
{
    Some(within(0, 255, number_in(value)?)? as u8)
}

/// The bytes of a stack that a value means.
pub fn stack_in(value: &Value) -> Option<u64>
    ensures { result ≡ stack_in value.now }
{
    Some(whole_pages(within(1, 16_777_216, number_in(value)?)?))
}

/// The access that a value means.
pub fn access_in(value: &Value) -> Option<Access>
    ensures { result ≡ access_in value.now }
{
    let (read, write) = match text_in(value)? {
        b"R" => (true, false),
        b"W" => (false, true),
        b"RW" => (true, true),
        _ => return None,
    };
    Some(Access { read, write })
}

fn all_digits(text: &[u8]) -> bool
    ensures { result ≡ list_all is_digit text.now }
{
    text.iter().all(|b| b.is_ascii_digit())
}

/// The number that so few digits write.
fn digits_value(digits: &[u8]) -> u64
    requires few { length digits.now ≤ 9 }
    requires digits { list_all is_digit digits.now ≡ true }
    ensures { result ≡ digits_value 10 digits.now }
{
    let mut value: u64 = 0;
    for digit in digits {
        value = value * 10 + (*digit - b'0') as u64;
    }
    value
}

fn badge_named(text: &[u8]) -> Option<u64>
    ensures { result ≡ badge_named text.now }
{
    if 1 <= text.len() && text.len() <= 9 && all_digits(text) {
        within(0, GREATEST_BADGE, digits_value(text))
    } else {
        None
    }
}

/// The badge that a value means.
pub fn badge_in(value: &Value) -> Option<u64>
    ensures { result ≡ badge_in value.now }
{
    match &value.kind {
        ValueKind::Number(number) => within(0, GREATEST_BADGE, *number),
        ValueKind::Text(text) => badge_named(text.as_bytes()),
        _ => None,
    }
}

/// The whole pages of a number of bytes that memory may have.
pub fn sized(bytes: u64) -> Option<u64>
    ensures { result ≡ sized bytes }
{
    Some(whole_pages(within(1, GREATEST_SIZE, bytes)?))
}

/// The bytes of memory that a value means.
pub fn size_in(value: &Value) -> Option<u64>
    ensures { result ≡ size_in value.now }
{
    sized(number_in(value)?)
}

/// The address of a device's registers of so many bytes that a value means.
pub fn paddr_in(bytes: u64, value: &Value) -> Option<u64>
    ensures { result ≡ paddr_in bytes value.now }
{
    let address = number_in(value)?;
    let fits = address <= PHYSICAL_END && bytes <= PHYSICAL_END - address;
    (address % PAGE == 0 && fits).then_some(address)
}

/// The number of an interrupt that a value means.
pub fn irq_in(value: &Value) -> Option<u64>
    ensures { result ≡ irq_in value.now }
{
    within(0, 1023, number_in(value)?)
}
