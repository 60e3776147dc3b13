//! Fields of ELF files.

ghost use Rattle.sect_table.specs.Fields.{field, little};
ghost use Rattle.std.specs.Prelude.{◌≡◌, ◌+◌, ◌<◌, ◌≤◌, ◌^◌, leb, length};

/// The number that bytes write, the lowest first.
fn little(bytes: &[u8]) -> u64
    requires { length bytes.now ≤ 8 }
    ensures value { result ≡ little bytes.now }
    ensures fits { result < 256 ^ length bytes.now }
{
    match bytes {
        [] => 0,
        [low, rest @ ..] => *low as u64 + 256 * little(rest),
    }
}

/// The little-endian number of so many bytes from a place on.
pub fn field(bytes: &[u8], at: usize, size: usize) -> u64
    requires within { at + size ≤ length bytes.now }
    requires few { size ≤ 8 }
    ensures value { result ≡ field bytes.now at size }
    ensures fits { result < 256 ^ size }
{
    little(&bytes[at..at + size])
}

/// Whether so many bytes from a place on end at another place, or before it.
pub fn ends_within(first: u64, size: u64, end: u64) -> bool
    ensures { result ≡ leb (first + size) end }
{
    first <= end && size <= end - first
}
