//! The reader of regions.

ghost use Rattle.boot_plan.specs.Regions.{are_regions, is_region};
ghost use Rattle.boot_plan.specs.UntypedTexts.{AreRead, IsLineRead, IsRead, device_of, fault_at, numbers_of, region_at, region_of};
ghost use Rattle.std.specs.Prelude.{◌≡◌, ◌≤◌, IfOk, codes, length, true};
ghost use Rattle.std.specs.Str.{bytes_eq};
ghost use Rattle.cam_base.specs.LinesLeft.{line_of, lines_left};
ghost use Rattle.cam_base.specs.LineTexts.{texts};

use crate::untyped::{Untyped, UntypedCode, UntypedFault};
use cam_base::{Line, Lines, List, Refused, fields, read_number};
use std::alloc::Global;

/// The most regions of a text.
pub const MAX_REGIONS: usize = 4096;

/// The end of the addresses.
const END: u64 = 1 << 48;

/// Whether a region of so many bits may begin at an address.
fn is_region(paddr: u64, bits: u64) -> bool
    ensures { result ≡ is_region paddr bits }
{
    if bits < 4 || bits > 47 {
        return false;
    }
    let size = 1u64 << bits;
    paddr % size == 0 && paddr <= END && size <= END - paddr
}

fn is_untyped(word: &[u8]) -> bool
    ensures { result ≡ bytes_eq word.now (codes "untyped") }
{
    word == b"untyped".as_slice()
}

fn is_device(word: &[u8]) -> bool
    ensures { result ≡ bytes_eq word.now (codes "device") }
{
    word == b"device".as_slice()
}

/// Whether a word says memory of a device, none where it is neither word.
fn read_device(word: &[u8]) -> Option<bool>
    ensures { result ≡ device_of word.now }
{
    if is_untyped(word) {
        Some(false)
    } else if is_device(word) {
        Some(true)
    } else {
        None
    }
}

fn read_numbers(paddr: &[u8], bits: &[u8]) -> Option<(u64, u64)>
    ensures { result ≡ numbers_of paddr.now bits.now }
{
    Some((read_number(paddr)?, read_number(bits)?))
}

fn region(device: bool, numbers: (u64, u64)) -> Option<Untyped>
    ensures { result ≡ region_at device (Some numbers) }
{
    let (paddr, bits) = numbers;
    if is_region(paddr, bits) {
        Some(Untyped {
            paddr,
            bits: bits as u8,
            device,
        })
    } else {
        None
    }
}

/// The region that fields spell, none exactly where they spell none.
fn read_region(fields: &[&[u8]]) -> Option<Untyped>
    ensures { result ≡ region_of (texts fields.now) }
{
    match fields {
        [word, paddr, bits] => region(read_device(word)?, read_numbers(paddr, bits)?),
        _ => None,
    }
}

fn fault_at(code: UntypedCode, line: Line) -> UntypedFault
    ensures { result ≡ fault_at code (line_of line.entry) }
{
    UntypedFault {
        code,
        first: line.first,
        end: line.first + line.text.len() as u64,
    }
}

/// The region of a line, where so many stand before it.
fn read_line(alloc: Global, before: usize, line: Line) -> Result<Untyped, Refused<UntypedFault>>
    ensures { IsLineRead before (line_of line.entry) result }
{
    let fields = fields(alloc, line.text, 4)?;
    match read_region(fields.as_slice()) {
        Some(region) if before < MAX_REGIONS => Ok(region),
        Some(_) => Err(Refused::Fault(fault_at(UntypedCode::Limit, line))),
        None => Err(Refused::Fault(fault_at(UntypedCode::Syntax, line))),
    }
}

/// The regions of lines, or the first of them at fault.
fn read_regions(alloc: Global, lines: Lines) -> Result<List<Untyped>, Refused<UntypedFault>>
    ensures read { AreRead (lines_left lines.entry) result }
    ensures few { IfOk result (λ regions. length regions ≤ 4096) }
    ensures sound { IfOk result (λ regions. are_regions regions ≡ true) }
{
    let mut regions = List::new(alloc);
    for line in lines {
        let region = read_line(alloc, regions.len(), line)?;
        regions.push(region)?;
    }
    Ok(regions)
}

/// The regions of a text, or its first fault. `specs/UntypedTexts.antt` says which.
///
/// # Errors
///
/// The first line at fault, at its place, or want of memory.
pub fn read_untypeds(alloc: Global, bytes: &[u8]) -> Result<List<Untyped>, Refused<UntypedFault>>
    ensures read { IsRead bytes.now result }
    ensures few { IfOk result (λ regions. length regions ≤ 4096) }
    ensures sound { IfOk result (λ regions. are_regions regions ≡ true) }
{
    let mut lines = Lines::of(bytes);
    match lines.next() {
        Some(line) if line.text == b"untypeds 1".as_slice() => read_regions(alloc, lines),
        _ => Err(Refused::Fault(UntypedFault {
            code: UntypedCode::Syntax,
            first: 0,
            end: 0,
        })),
    }
}
