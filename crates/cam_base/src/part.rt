//! Parts of a text that a byte parts.

ghost use Rattle.std.specs.List.{before_first, position};
ghost use Rattle.std.specs.Prelude.{◌≡◌, ◌==◌, ◌≤◌, ◌+◌, drop, length};

fn position_of(bytes: &[u8], byte: u8) -> Option<usize>
    ensures { result ≡ position (λ b. b == byte) bytes.now }
{
    bytes.iter().position(|b| *b == byte)
}

/// What stands in front of the first such byte, all of it where there is none. Takes no memory.
#[tactic(auto, using(crate::proofs::Fronts::front_rules))]
fn first_part(bytes: &[u8], separator: u8) -> &[u8]
    ensures { result.now ≡ before_first (λ b. b == separator) bytes.now }
{
    match position_of(bytes, separator) {
        Some(end) => &bytes[..end],
        None => bytes,
    }
}

/// What stands from a place up to the next such byte, all of it where there is none. Takes no memory.
pub fn part_from(bytes: &[u8], at: usize, separator: u8) -> &[u8]
    requires { at ≤ length bytes.now }
    ensures part { result.now ≡ before_first (λ b. b == separator) (drop at bytes.now) }
    ensures within { at + length result.now ≤ length bytes.now }
{
    first_part(&bytes[at..], separator)
}
