//! The faults of tables that are absent or too long.

ghost use Rattle.adl_meaning.specs.Faults.{noted};
ghost use Rattle.name_tables.specs.ByName.{found};
ghost use Rattle.source_images.specs.Told.{missing_by};
ghost use Rattle.source_images.specs.Types.{type_number, types};
ghost use Rattle.std.specs.List.{flat_map};
ghost use Rattle.std.specs.Prelude.{◌≡◌, ℕ, position, List as Items, None};
ghost use Rattle.std.specs.Str.{bytes_eq};

use crate::reading::Reading;
use crate::types::number_of;
use adl_ast::Source;
use adl_meaning::{Earliest, Flat};
use cam_base::{Code, Place};
use name_tables::NameTable;

/// Notes what is wrong with the table of this number, for a leaf whose type stands at this place.
fn note_missing<'a>(
    readings: &'a [Reading],
    place: Place,
    number: Option<u32>,
    first: &mut Earliest<'a>,
)
    ensures { first.new ≡ noted first.old (missing_by readings.now place number) }
{
    let Some(number) = number else {
        return;
    };
    match readings.get(number as usize) {
        Some(Reading::Absent(file)) => first.note(true, Code::NoSections, place, file.as_bytes()),
        Some(Reading::TooLong) => first.note(true, Code::Limit, place, b"file size"),
        Some(Reading::Faulty(_)) | Some(Reading::Sound(_, _)) | None => {}
    }
}

/// The first fault of tables that are absent or too long, where the types have these numbers.
pub fn first_missing<'a>(
    source: &Source,
    flat: &Flat,
    numbers: &NameTable<'_, u32>,
    readings: &'a [Reading],
) -> Earliest<'a>
    requires { (n : Items ℕ) → found numbers.now n ≡ position (bytes_eq n) (types source.now flat.now) }
    ensures { result ≡ noted None
        (flat_map (λ leaf. missing_by readings.now leaf.place (type_number source.now flat.now leaf)) flat.now.leaves) }
{
    let mut first = Earliest::none();
    for leaf in flat.leaves.as_slice() {
        let number = number_of(source, leaf, numbers);
        note_missing(readings, leaf.place, number, &mut first);
    }
    first
}
