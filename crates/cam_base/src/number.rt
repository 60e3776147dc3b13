ghost use Rattle.cam_base.specs.Hex.{glyph, hex_digits, hex_text};
ghost use Rattle.cam_base.specs.Numbers.{is_digit, is_hex_digit, is_decimal, is_hexadecimal, fits, number_value};
ghost use Rattle.std.specs.Char.{digit_value};
ghost use Rattle.std.specs.List.{list_all};
ghost use Rattle.std.specs.Prelude.{◌≡◌, ◌<◌, ◌≤◌, ◌+◌, ◌*◌, ◌++◌, decimal, drop, length, take, true};
ghost use Rattle.std.specs.Str.Parse.{digits_value};

use itoa::Buffer;

/// Puts the decimal digits of a number at the front of the buffer, without leading zeros, and answers how many they
/// are. Takes no memory.
pub fn decimal(n: u64, buf: &mut [u8; 20]) -> usize
    ensures len { result ≤ 20 }
    ensures text { take result buf.new ≡ decimal n }
{
    let mut digits = Buffer::new();
    let text = digits.format(n).as_bytes();
    buf[..text.len()].copy_from_slice(text);
    text.len()
}

/// The text of a number in hexadecimal, `0x` and lower-case digits without leading zeros, which stands at the end of the buffer.
/// Takes no memory.
pub fn hexadecimal(n: u64, buf: &mut [u8; 18]) -> &[u8]
    ensures len { length result.now ≤ 18 }
    ensures text { result.now ≡ hex_text n }
{
    let first = put_hex(n, 16, buf, 18);
    buf[first - 1] = b'x';
    buf[first - 2] = b'0';
    &buf[first - 2..]
}

/// Puts the text of a number in hexadecimal at the front of the buffer, and answers how many bytes it has. Takes no memory.
pub fn hex(n: u64, buf: &mut [u8; 18]) -> usize
    ensures len { result ≤ 18 }
    ensures text { take result buf.new ≡ hex_text n }
{
    let mut digits = [0; 18];
    let text = hexadecimal(n, &mut digits);
    buf[..text.len()].copy_from_slice(text);
    text.len()
}

fn glyph(digit: u8) -> u8
    requires { digit < 16 }
    ensures { result ≡ glyph digit }
{
    if digit < 10 {
        b'0' + digit
    } else {
        b'a' - 10 + digit
    }
}

/// Puts the digits, so many at most, before a place, and answers where they begin.
#[tactic(auto, using(crate::proofs::Digits::hex_cases))]
fn put_hex(n: u64, room: usize, buf: &mut [u8], end: usize) -> usize
    requires room { room ≤ end }
    requires within { end ≤ length buf.old }
    ensures low { end ≤ result + room }
    ensures high { result ≤ end }
    ensures same { length buf.new ≡ length buf.old }
    ensures text { drop result buf.new ≡ hex_digits room n ++ drop end buf.old }
{
    if room == 0 {
        return end;
    }
    buf[end - 1] = glyph((n % 16) as u8);
    if n < 16 {
        return end - 1;
    }
    put_hex(n / 16, room - 1, buf, end - 1)
}

/// The value of a decimal or hexadecimal number; none exactly where the bytes aren't one, or pass 2^64 - 1.
pub fn read_number(bytes: &[u8]) -> Option<u64>
    ensures { result ≡ number_value bytes.now }
{
    match bytes {
        [b'0', b'x' | b'X', digits @ ..] => read_hexadecimal(digits),
        _ => read_decimal(bytes),
    }
}

fn read_decimal(bytes: &[u8]) -> Option<u64>
    ensures { result ≡ fits (is_decimal bytes.now) (digits_value 10 bytes.now) }
{
    if is_decimal(bytes) {
        value_of(10, bytes)
    } else {
        None
    }
}

fn read_hexadecimal(digits: &[u8]) -> Option<u64>
    ensures { result ≡ fits (is_hexadecimal digits.now) (digits_value 16 digits.now) }
{
    if is_hexadecimal(digits) {
        value_of(16, digits)
    } else {
        None
    }
}

fn is_decimal(bytes: &[u8]) -> bool
    ensures { result ≡ is_decimal bytes.now }
{
    match bytes {
        [] => false,
        [b'0', rest @ ..] => rest.is_empty(),
        [first, rest @ ..] => first.is_ascii_digit() && all_digits(rest),
    }
}

fn all_digits(bytes: &[u8]) -> bool
    ensures { result ≡ list_all is_digit bytes.now }
{
    bytes.iter().all(|b| b.is_ascii_digit())
}

fn is_hexadecimal(bytes: &[u8]) -> bool
    ensures { result ≡ is_hexadecimal bytes.now }
{
    match bytes {
        [] => false,
        [first, rest @ ..] => first.is_ascii_hexdigit() && all_hex_digits(rest),
    }
}

fn all_hex_digits(bytes: &[u8]) -> bool
    ensures { result ≡ list_all is_hex_digit bytes.now }
{
    bytes.iter().all(|b| b.is_ascii_hexdigit())
}

/// The number that digits write, unless it passes 2^64 - 1.
#[tactic(auto, using(crate::proofs::Values::fits_cases))]
fn value_of(base: u64, digits: &[u8]) -> Option<u64>
    requires { 0 < base }
    ensures { result ≡ fits true (digits_value base digits.now) }
{
    let mut value: u64 = 0;
    for digit in digits {
        value = with_digit(value, base, *digit)?;
    }
    Some(value)
}

#[tactic(auto, using(crate::proofs::Values::fits_cases))]
fn with_digit(value: u64, base: u64, digit: u8) -> Option<u64>
    ensures { result ≡ fits true (value * base + digit_value digit) }
{
    value.checked_mul(base)?.checked_add(digit_value(digit))
}

fn digit_value(digit: u8) -> u64
    ensures { result ≡ digit_value digit }
{
    match digit {
        b'0'..=b'9' => (digit - b'0') as u64,
        b'a'..=b'z' => (digit - b'a') as u64 + 10,
        b'A'..=b'Z' => (digit - b'A') as u64 + 10,
        _ => 36,
    }
}
