//! The first line of a table.

ghost use Rattle.sect_table.specs.Headers.{header, header_of};
ghost use Rattle.cam_base.specs.Numbers.{number_value};
ghost use Rattle.std.specs.Option.{option_map};
ghost use Rattle.std.specs.Prelude.{◌≡◌, codes};
ghost use Rattle.std.specs.Str.{bytes_eq};
ghost use Rattle.cam_base.specs.LineTexts.{texts};

use crate::image::Header;
use cam_base::read_number;
use cap_model::Arch;

/// The header of an architecture with that entry.
fn with_entry(arch: Arch, entry: &[u8]) -> Option<Header>
    ensures { result ≡ option_map (header arch) (number_value entry.now) }
{
    Some(Header {
        arch,
        entry: read_number(entry)?,
    })
}

fn is_entry(word: &[u8]) -> bool
    ensures { result ≡ bytes_eq word.now (codes "entry") }
{
    word == b"entry".as_slice()
}

fn is_aarch64(word: &[u8]) -> bool
    ensures { result ≡ bytes_eq word.now (codes "aarch64") }
{
    word == b"aarch64".as_slice()
}

/// The header that fields spell, none exactly where they spell none. Takes no memory.
pub fn read_header(fields: &[&[u8]]) -> Option<Header>
    ensures { result ≡ header_of (texts fields.now) }
{
    match fields {
        [word, entry] if is_entry(word) => with_entry(Arch::Arm11, entry),
        [word, entry, arch] if is_entry(word) && is_aarch64(arch) => {
            with_entry(Arch::Aarch64, entry)
        }
        _ => None,
    }
}
