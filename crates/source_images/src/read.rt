//! The images of a source.

ghost use Rattle.cam_io.specs.Causes.{Rose};
ghost use Rattle.cam_io.specs.Reading.{InAll, KeepsFiles, LearnsOnly};
ghost use Rattle.source_images.specs.Found.{AlikeInTables, table_names};
ghost use Rattle.source_images.specs.ImagesRead.{AreImagesRead};
ghost use Rattle.source_images.specs.Told.{IsAnswer, first_of, file_name, tables_told};
ghost use Rattle.source_images.specs.Types.{types};
ghost use Rattle.name_tables.specs.ByName.{found};
ghost use Rattle.std.specs.Prelude.{◌≡◌, ◌+◌, ◌<◌, ◌^◌, ℕ, length, position, List as Items, Err, IfOk};
ghost use Rattle.std.specs.Str.{bytes_eq};

use crate::Images;
use crate::merge::{Merged, merge};
use crate::missing::first_missing;
use crate::reading::{Reading, read_tables};
use crate::tables::{Table, folder_of, tables_of};
use crate::types::{numbers_of, types_of};
use adl_ast::Source;
use adl_meaning::{Flat, is_before};
use cam_base::{Fault, List, Made, SourceError, Text, Unread};
use cam_io::Files;
use name_tables::NameTable;
use std::alloc::Global;

/// The first fault, where these are the first of tables that are missing and of lines.
fn first_of(missing: Option<Fault>, line: Option<Fault>) -> Option<Fault>
    ensures { result ≡ first_of missing line }
{
    match (missing, line) {
        (Some(missing), Some(line)) => {
            if is_before(line.code, line.place, missing.code, missing.place) {
                Some(line)
            } else {
                Some(missing)
            }
        }
        (None, line) => line,
        (missing, None) => missing,
    }
}

/// The name of the file of this number.
fn file_name(alloc: Global, source: &Source, tables: &[Table<'_>], file: u32) -> Made<Text>
    ensures { IfOk result (λ name. name ≡ file_name source.now (tables_told tables.now) file) }
{
    let file = file as usize;
    let files = source.files.as_slice();
    if file < files.len() {
        return files[file].name.copy(alloc);
    }
    let number = file - files.len();
    if number < tables.len() {
        return Text::new(alloc, tables[number].file.as_bytes());
    }
    Ok(Text::empty(alloc))
}

/// What is answered for these readings of tables.
fn answer(
    alloc: Global,
    source: &Source,
    flat: &Flat,
    numbers: &NameTable<'_, u32>,
    tables: &[Table<'_>],
    readings: List<Reading>,
) -> Result<Images, SourceError>
    requires { (n : Items ℕ) → found numbers.now n ≡ position (bytes_eq n) (types source.now flat.now) }
    ensures { IsAnswer source.now flat.now (tables_told tables.now) readings result }
{
    let missing = first_missing(source, flat, numbers, readings.as_slice()).into_fault(alloc)?;
    let Merged {
        fault,
        arch: _,
        images,
    } = merge(alloc, readings)?;
    match first_of(missing, fault) {
        Some(fault) => {
            let file = file_name(alloc, source, tables, fault.place.file)?;
            Err(Unread::Fault(fault, file))
        }
        None => {
            let of_leaf = numbers_of(alloc, source, flat, numbers)?;
            Ok(Images { images, of_leaf })
        }
    }
}

/// The images of a source's software, read from the section tables that stand beside the root, whose file has this name.
/// Tables are read in the order of their types' first leaves, each once: `specs/ImagesRead.antt`.
///
/// # Errors
///
/// The first fault of the tables (`specs/TableFaults.antt`), with the name of the file in which it stands. A failed read,
/// only where the count of the name that it gives rose. Want of memory.
pub fn read_images<F: Files>(
    alloc: Global,
    files: &mut F,
    root: &str,
    source: &Source,
    flat: &Flat,
) -> Result<Images, SourceError>
    requires { length source.now.files + length flat.now.leaves < 2 ^ 32 }
    ensures kept { KeepsFiles F.told F.faults files.old files.new }
    ensures rose { (read : Items ℕ) → result ≡ Err (Unread.ReadFault read)
        → Rose (F.faults files.old read) (F.faults files.new read) }
    ensures learned { LearnsOnly F.told (AlikeInTables (table_names root.now source.now flat.now)) files.old files.new }
    ensures read { InAll (F.told files.new) (λ m. AreImagesRead m root.now source.now flat.now result) }
{
    let types = types_of(alloc, source, flat)?;
    let tables = tables_of(alloc, folder_of(root), types.names.as_slice())?;
    let readings = read_tables(alloc, files, source.files.len() as u32, tables.as_slice())?;
    answer(
        alloc,
        source,
        flat,
        &types.numbers,
        tables.as_slice(),
        readings,
    )
}
