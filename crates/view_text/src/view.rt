ghost use Rattle.std.specs.List.{before_first, position};
ghost use Rattle.std.specs.Prelude.{◌≡◌, ◌==◌, ◌≤◌, ◌-◌, ◌++◌, IfOk, OnOk, length, map, take, true};
ghost use Rattle.view_text.specs.Spots.{drawn, head_line, limit, marks, stands_in, view_of, with_line};

use crate::Range;
use crate::place::{Place, place_behind};
use crate::texts::{add, join};
use cam_base::{List, Made};
use itoa::Buffer;
use std::alloc::Global;

fn feed_at(bytes: &[u8]) -> Option<usize>
    ensures { result ≡ position (λ b. b == 10) bytes.now }
{
    bytes.iter().position(|b| *b == b'\n')
}

/// What stands before the first line feed, all of it where there is none.
#[tactic(auto, using(cam_base::proofs::Fronts::front_rules))]
fn first_line(bytes: &[u8]) -> &[u8]
    ensures { result.now ≡ before_first (λ b. b == 10) bytes.now }
{
    match feed_at(bytes) {
        Some(end) => &bytes[..end],
        None => bytes,
    }
}

fn drawn(sign: u8, byte: u8) -> u8
    ensures { result ≡ drawn sign byte }
{
    if byte == b'\t' { b'\t' } else { sign }
}

/// Puts a sign under each byte, a tab under a tab.
fn add_drawn(text: &mut List<u8>, sign: u8, bytes: &[u8]) -> Made<()>
    ensures { OnOk result (text.new ≡ text.old ++ map (drawn sign) bytes.now) }
{
    for byte in bytes {
        text.push(drawn(sign, *byte))?;
    }
    Ok(())
}

fn add_marks(text: &mut List<u8>, marked: &[u8]) -> Made<()>
    ensures { OnOk result (text.new ≡ text.old ++ marks marked.now) }
{
    match marked {
        [] => text.push(b'^'),
        [..] => add_drawn(text, b'^', marked),
    }
}

/// The first line of what is shown.
fn head_line(alloc: Global, file: &str, place: Place, rest: &str) -> Made<List<u8>>
    ensures { IfOk result (λ text. text ≡ head_line file.now place rest.now) }
{
    let (mut line, mut column) = (Buffer::new(), Buffer::new());
    let line = line.format(place.line).as_bytes();
    let column = column.format(place.column).as_bytes();
    let (file, rest) = (file.as_bytes(), rest.as_bytes());
    join(alloc, &[file, b":", line, b":", column, b":", rest, b"\n"])
}

/// So many of the first bytes, all of them where there are no more.
pub(crate) fn front(bytes: &[u8], count: u64) -> &[u8]
    ensures { result.now ≡ take count bytes.now }
{
    if count < bytes.len() as u64 {
        &bytes[..count as usize]
    } else {
        bytes
    }
}

/// Puts the line and the marks below it behind the first line.
fn add_line(text: &mut List<u8>, left: &[u8], right: &[u8], count: u64) -> Made<()>
    ensures { OnOk result (text.new ≡ with_line text.old left.now right.now count) }
{
    add(text, &[left, right, b"\n"])?;
    add_drawn(text, b' ', left)?;
    add_marks(text, front(right, count))?;
    text.extend(b"\n")
}

/// What is shown of a fault at bytes of a file, behind whose place the rest stood.
pub fn view_of(alloc: Global, file: &str, range: Range, rest: &str, bytes: &[u8]) -> Made<List<u8>>
    requires stands { stands_in (range.first, range.end) bytes.now ≡ true }
    requires small { length bytes.now ≤ limit }
    ensures { IfOk result (λ text. text ≡ view_of file.now (range.first, range.end) rest.now bytes.now) }
{
    let first = range.first as usize;
    let before = &bytes[..first];
    let place = place_behind(before);
    let left = &before[first - (place.column - 1)..];
    let right = first_line(&bytes[first..]);
    let mut text = head_line(alloc, file, place, rest)?;
    add_line(&mut text, left, right, range.end - range.first)?;
    Ok(text)
}
