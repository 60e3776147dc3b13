//! The header of a text, and the lines behind it.

ghost use Rattle.policy_text.specs.PolicyTexts.{header, is_headed, head_fault, at_start, body};
ghost use Rattle.policy_text.specs.TextsRead.{FindsFault};
ghost use Rattle.std.specs.Prelude.{◌≡◌};
ghost use Rattle.cam_base.specs.Lines.{lines};
ghost use Rattle.cam_base.specs.LinesLeft.{lines_left};

use crate::kind::Kind;
use cam_base::{Lines, Refused, Text, TextCode, TextFault};
use std::alloc::Global;

/// What is read of a text, or the first fault that stands in it.
pub type Read<T> = Result<T, Refused<TextFault>>;

/// The most bytes of a text.
pub const MAX_BYTES: usize = 67_108_864;

fn header(kind: Kind) -> &'static [u8]
    ensures { result.now ≡ header kind }
{
    match kind {
        Kind::Policy => b"policy 1",
        Kind::Certificate => b"certificate 1",
    }
}

/// Whether the first line that says something is the header.
fn is_headed(kind: Kind, bytes: &[u8]) -> bool
    ensures { result ≡ is_headed kind (lines bytes.now) }
{
    match Lines::of(bytes).next() {
        Some(line) => line.text == header(kind),
        None => false,
    }
}

/// The lines behind the header. Takes no memory.
pub fn body(bytes: &[u8]) -> Lines<'_>
    ensures { lines_left result ≡ body bytes.now }
{
    let mut lines = Lines::of(bytes);
    let _ = lines.next();
    lines
}

/// The fault in front of all lines. Takes no memory.
fn at_start(alloc: Global, code: TextCode) -> Refused<TextFault>
    ensures { result ≡ Refused.Fault (at_start code) }
{
    Refused::Fault(TextFault {
        code,
        first: 0,
        end: 0,
        name: Text::empty(alloc),
    })
}

/// Refuses a text of too many bytes, and one without its header.
pub fn check_head(alloc: Global, kind: Kind, bytes: &[u8]) -> Read<()>
    ensures { FindsFault (head_fault kind bytes.now) result }
{
    if bytes.len() > MAX_BYTES {
        return Err(at_start(alloc, TextCode::PolicyLimit));
    }
    if !is_headed(kind, bytes) {
        return Err(at_start(alloc, TextCode::PolicySyntax));
    }
    Ok(())
}
