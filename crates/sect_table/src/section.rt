//! The line of a section.

ghost use Rattle.sect_table.specs.Sections.{ends_within, is_placed, is_sound, numbers_of, place_of, section, section_of, spelled, writes_of};
ghost use Rattle.cam_base.specs.Names.{is_name};
ghost use Rattle.std.specs.Prelude.{◌≡◌, ◌∷◌, [], IfOk, IsTrue};
ghost use Rattle.cam_base.specs.LineTexts.{texts};

use crate::image::Section;
use cam_base::{Made, Name, is_name, read_number};
use std::alloc::Global;

/// The address and size of a section, whether it may be written, and its place in the file.
type Numbers = (u64, u64, bool, Option<u64>);

/// Whether rights let the program write, none exactly where the word is no rights.
fn read_writes(word: &[u8]) -> Option<bool>
    ensures { result ≡ writes_of word.now }
{
    match word {
        b"R" | b"RX" => Some(false),
        b"RW" | b"RWX" => Some(true),
        _ => None,
    }
}

/// The place in the program's file, or none for `-`.
fn read_place(word: &[u8]) -> Option<Option<u64>>
    ensures { result ≡ place_of word.now }
{
    match word {
        b"-" => Some(None),
        _ => Some(Some(read_number(word)?)),
    }
}

/// Whether so many bytes from a number on end within 64 bits.
fn ends_within(first: u64, size: u64) -> bool
    ensures { result ≡ ends_within first size }
{
    first.checked_add(size).is_some()
}

fn is_placed(at: Option<u64>, size: u64) -> bool
    ensures { result ≡ is_placed at size }
{
    match at {
        None => true,
        Some(at) => ends_within(at, size),
    }
}

impl Section {
    /// Whether it begins a page, has bytes, and ends within 64 bits in memory and in its file.
    pub fn is_sound(&self) -> bool
        ensures { result ≡ is_sound self.now }
    {
        self.vaddr % 4096 == 0
            && self.size != 0
            && ends_within(self.vaddr, self.size)
            && is_placed(self.at, self.size)
    }
}

fn read_numbers(vaddr: &[u8], size: &[u8], rights: &[u8], at: &[u8]) -> Option<Numbers>
    ensures { result ≡ numbers_of vaddr.now size.now rights.now at.now }
{
    Some((
        read_number(vaddr)?,
        read_number(size)?,
        read_writes(rights)?,
        read_place(at)?,
    ))
}

/// The section of that name.
fn named(alloc: Global, name: &[u8], numbers: Numbers) -> Made<Section>
    requires { IsTrue (is_name name.now) }
    ensures { IfOk result (λ s. s ≡ section name.now numbers) }
{
    let (vaddr, size, write, at) = numbers;
    Ok(Section {
        name: Name::of_identifier(alloc, name)?,
        vaddr,
        size,
        write,
        at,
    })
}

/// The section that fields spell, none exactly where they spell none.
fn read_spelled(alloc: Global, fields: &[&[u8]]) -> Made<Option<Section>>
    ensures { IfOk result (λ s. s ≡ spelled (texts fields.now)) }
{
    match fields {
        [name, vaddr, size, rights, at] => {
            if !is_name(name) {
                return Ok(None);
            }
            match read_numbers(vaddr, size, rights, at) {
                Some(numbers) => Ok(Some(named(alloc, name, numbers)?)),
                None => Ok(None),
            }
        }
        _ => Ok(None),
    }
}

/// The section that fields spell, none exactly where they spell none that is sound.
pub fn read_section(alloc: Global, fields: &[&[u8]]) -> Made<Option<Section>>
    ensures { IfOk result (λ s. s ≡ section_of (texts fields.now)) }
{
    match read_spelled(alloc, fields)? {
        Some(section) if section.is_sound() => Ok(Some(section)),
        _ => Ok(None),
    }
}
