//! What is read of one table.

ghost use Rattle.cam_io.specs.Causes.{Rose};
ghost use Rattle.cam_io.specs.FileBytes.{bytes_in, with_bytes};
ghost use Rattle.cam_io.specs.Reading.{InAll, KeepsFiles, LearnsOnly};
ghost use Rattle.cam_io.specs.Whole.{IsWhole};
ghost use Rattle.source_images.specs.Found.{AlikeAsRead, AlikeInTables, table_limit, table as given};
ghost use Rattle.source_images.specs.Told.{AreTablesRead, IsTableRead, files_told, first_place, reading_of, table_told, tables_told};
ghost use Rattle.std.specs.FinMap as map;
ghost use Rattle.std.specs.Prelude.{◌≡◌, ◌+◌, ◌<◌, ◌≤◌, ◌^◌, ℕ, length, string_bytes, List as Items, Err, IfOk, IsErrOf};
ghost use Rattle.cam_base.specs.Lines.{lines};

use crate::tables::Table;
use cam_base::{Fault, Lines, List, Made, NoMemory, Place, Refused, SourceError, Text, Unread};
use cam_io::{FileBytes, Files, WholeError, see_whole};
use sect_table::{Image, read_sections};
use std::alloc::Global;

/// The greatest length of a table, in bytes.
const TABLE_LIMIT: u64 = 1_048_576;

/// What is read of a table.
#[derive(Drop)]
pub enum Reading {
    /// There is none under this name.
    Absent(Text),
    TooLong,
    /// Its first fault.
    Faulty(Fault),
    /// Its image, and the place of its first line.
    Sound(Image, Place),
}

/// The place of the first line of a table.
fn first_place(file: u32, bytes: &[u8]) -> Place
    ensures { result ≡ first_place file (lines bytes.now) }
{
    match Lines::of(bytes).next() {
        Some(line) => Place {
            file,
            first: line.first,
            end: line.first + line.text.len() as u64,
        },
        None => Place {
            file,
            first: 0,
            end: 0,
        },
    }
}

/// What is read of these bytes, as the table of a type.
fn reading_of(alloc: Global, file: u32, table: &Table<'_>, bytes: &[u8]) -> Made<Reading>
    ensures { IfOk result (λ r. r ≡ reading_of file (table_told table.now) (given bytes.now)) }
{
    match read_sections(alloc, file, table.name, bytes) {
        Ok(image) => Ok(Reading::Sound(image, first_place(file, bytes))),
        Err(Refused::Fault(fault)) => Ok(Reading::Faulty(fault)),
        Err(Refused::NoMemory) => Err(NoMemory),
    }
}

/// Sees a table whole.
fn see_table<F: Files>(
    alloc: Global,
    files: &mut F,
    table: &Table<'_>,
) -> Result<FileBytes, WholeError>
    ensures kept { KeepsFiles F.told F.faults files.old files.new }
    ensures read_fault { IsErrOf result WholeError.ReadFault
        → Rose (F.faults files.old (string_bytes table.now.file)) (F.faults files.new (string_bytes table.now.file)) }
    ensures limit { IfOk result (λ bytes. length (bytes_in bytes (F.lends files.new (string_bytes table.now.file)))
        ≤ table_limit) }
    ensures learned { LearnsOnly F.told (AlikeAsRead (string_bytes table.now.file)) files.old files.new }
    ensures whole { InAll (F.told files.new) (λ m. IsWhole (map.get m (string_bytes table.now.file)) table_limit
        (with_bytes result (F.lends files.new (string_bytes table.now.file)))) }
{
    see_whole(alloc, files, table.file.as_str(), TABLE_LIMIT)
}

/// Reads a table, whose file has this number.
pub fn read_table<F: Files>(
    alloc: Global,
    files: &mut F,
    file: u32,
    table: &Table<'_>,
) -> Result<Reading, SourceError>
    ensures kept { KeepsFiles F.told F.faults files.old files.new }
    ensures rose { (read : Items ℕ) → result ≡ Err (Unread.ReadFault read)
        → Rose (F.faults files.old read) (F.faults files.new read) }
    ensures learned { LearnsOnly F.told (AlikeAsRead (string_bytes table.now.file)) files.old files.new }
    ensures read { InAll (F.told files.new) (λ m. IsTableRead m file (table_told table.now) result) }
{
    match see_table(alloc, files, table) {
        Ok(bytes) => Ok(reading_of(alloc, file, table, bytes.lend(files, table.file.as_str()))?),
        Err(WholeError::Absent) => Ok(Reading::Absent(Text::new(alloc, table.file.as_bytes())?)),
        Err(WholeError::TooLong) => Ok(Reading::TooLong),
        Err(WholeError::ReadFault) => Err(Unread::ReadFault(Text::new(
            alloc,
            table.file.as_bytes(),
        )?)),
        Err(WholeError::NoMemory) => Err(Unread::NoMemory),
    }
}

/// Reads tables in their order, each once, whose files have the numbers from this one on.
pub fn read_tables<F: Files>(
    alloc: Global,
    files: &mut F,
    file: u32,
    tables: &[Table<'_>],
) -> Result<List<Reading>, SourceError>
    requires { file + length tables.now < 2 ^ 32 }
    ensures kept { KeepsFiles F.told F.faults files.old files.new }
    ensures rose { (read : Items ℕ) → result ≡ Err (Unread.ReadFault read)
        → Rose (F.faults files.old read) (F.faults files.new read) }
    ensures learned { LearnsOnly F.told (AlikeInTables (files_told tables.now)) files.old files.new }
    ensures read { InAll (F.told files.new) (λ m. AreTablesRead m file (tables_told tables.now) result) }
{
    let mut readings = List::new(alloc);
    for (number, table) in tables.iter().enumerate() {
        readings.push(read_table(alloc, files, file + number as u32, table)?)?;
    }
    Ok(readings)
}
