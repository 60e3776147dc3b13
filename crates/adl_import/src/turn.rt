//! The turn of a file.

ghost use Rattle.adl_import.specs.Imports.{imports_of};
ghost use Rattle.adl_import.specs.Sources.{AlikeAsRead, file_limit, files_limit};
ghost use Rattle.adl_import.specs.Taking.{AlikeInNext, AreUtf8, IsTreeOf, IsParsed, IsRead, IsTakenIn, IsTurn};
ghost use Rattle.adl_import.specs.Turns.{met_in, fault_at, take_imports};
ghost use Rattle.cam_io.specs.Causes.{Rose};
ghost use Rattle.cam_io.specs.Reading.{InAll, KeepsFiles, LearnsOnly};
ghost use Rattle.cam_io.specs.Whole.{IsWhole};
ghost use Rattle.std.specs.FinMap as map;
ghost use Rattle.std.specs.Prelude.{◌≡◌, ◌<◌, ◌≤◌, ℕ, List as Items, Err, length, IfOk, IsErrOf};
ghost use Rattle.std.specs.Str.{IsUtf8};

use crate::imports::{fault_at, take_imports};
use adl_ast::{ByteCount, File, SourceFile};
use adl_lexer::lex_within;
use adl_parse::parse_file;
use cam_base::{Code, Fault, List, Made, Place, Refused, SourceError, Text, Token, Unread};
use cam_io::{Files, WholeError, read_whole, take_whole};
use indexmap::IndexMap;
use std::alloc::Global;
use std::mem::replace;
use std::str::from_utf8;

/// The greatest length of a file, in bytes.
const FILE_LIMIT: u64 = 1_048_576;

/// A name as text.
fn as_text(name: &[u8]) -> &str
    requires { IsUtf8 name.now }
    ensures { result.now ≡ name.now }
{
    match from_utf8(name) {
        Ok(text) => text,
        Err(_) => unreachable!(),
    }
}

/// The tree of a file of this number and these bytes. The tokens stand in the memory of those of the file before.
fn tree_of(
    alloc: Global,
    number: u32,
    bytes: &[u8],
    room: &mut Vec<Token>,
) -> Result<File, Refused<Fault>>
    ensures { IsTreeOf number bytes.now result }
{
    let tokens = lex_within(alloc, number, bytes, replace(room, Vec::new(alloc)))?;
    let tree = parse_file(alloc, bytes, &tokens);
    *room = tokens.list.into_vec();
    tree
}

/// The file of this number, name and bytes.
fn parsed(
    alloc: Global,
    number: u32,
    name: &Text,
    bytes: List<u8>,
    room: &mut Vec<Token>,
) -> Result<SourceFile, SourceError>
    ensures { IsParsed number name.now bytes result }
{
    match tree_of(alloc, number, bytes.as_slice(), room) {
        Ok(tree) => {
            let name = name.copy(alloc)?;
            let bytes = ByteCount::of(&bytes);
            Ok(SourceFile { name, bytes, tree })
        }
        Err(Refused::Fault(fault)) => Err(Unread::Fault(fault, name.copy(alloc)?)),
        Err(Refused::NoMemory) => Err(Unread::NoMemory),
    }
}

/// The name of the file in which a file is met.
fn met_in<'a>(files: &'a [SourceFile], name: &'a Text, place: Place) -> &'a Text
    ensures { result.now ≡ met_in files.entry.now name.entry.now place }
{
    match files.get(place.file as usize) {
        Some(file) => &file.name,
        None => name,
    }
}

/// A fault at the place where a file is met.
fn fault_where_met(
    alloc: Global,
    code: Code,
    place: Place,
    name: &[u8],
    in_file: &Text,
) -> Made<SourceError>
    ensures { IfOk result (λ e. e ≡ Unread.Fault (fault_at code place name.now) in_file.now) }
{
    let fault = fault_at(alloc, code, place, name)?;
    Ok(Unread::Fault(fault, in_file.copy(alloc)?))
}

/// Whether a file is named as a section table, and so may be read as one, too.
fn is_named_as_table(path: &str) -> bool {
    path.as_bytes().ends_with(b".sections")
}

/// The bytes of the file of a path.
fn read_path<F: Files>(alloc: Global, files: &mut F, path: &str) -> Result<List<u8>, WholeError>
    ensures kept { KeepsFiles F.told F.faults files.old files.new }
    ensures read_fault { IsErrOf result WholeError.ReadFault → Rose (F.faults files.old path.now) (F.faults files.new path.now) }
    ensures limit { IfOk result (λ bytes. length bytes ≤ file_limit) }
    ensures learned { LearnsOnly F.told (AlikeAsRead path.now) files.old files.new }
    ensures whole { InAll (F.told files.new) (λ m. IsWhole (map.get m path.now) file_limit result) }
{
    if is_named_as_table(path) {
        read_whole(alloc, files, path, FILE_LIMIT)
    } else {
        take_whole(alloc, files, path, FILE_LIMIT)
    }
}

/// The bytes of a file.
fn read_named<F: Files>(alloc: Global, files: &mut F, name: &Text) -> Result<List<u8>, WholeError>
    requires { IsUtf8 name.now }
    ensures kept { KeepsFiles F.told F.faults files.old files.new }
    ensures read_fault { IsErrOf result WholeError.ReadFault → Rose (F.faults files.old name.now) (F.faults files.new name.now) }
    ensures limit { IfOk result (λ bytes. length bytes ≤ file_limit) }
    ensures learned { LearnsOnly F.told (AlikeAsRead name.now) files.old files.new }
    ensures whole { InAll (F.told files.new) (λ m. IsWhole (map.get m name.now) file_limit result) }
{
    read_path(alloc, files, as_text(name.as_bytes()))
}

/// Reads, lexes and parses the next file after these.
fn read_file<F: Files>(
    alloc: Global,
    files: &mut F,
    done: &[SourceFile],
    name: &Text,
    place: Place,
    room: &mut Vec<Token>,
) -> Result<SourceFile, SourceError>
    requires few { length done.now < files_limit }
    requires utf8 { IsUtf8 name.now }
    ensures kept { KeepsFiles F.told F.faults files.old files.new }
    ensures rose { (read : Items ℕ) → result ≡ Err (Unread.ReadFault read)
        → Rose (F.faults files.old read) (F.faults files.new read) }
    ensures learned { LearnsOnly F.told (AlikeAsRead name.now) files.old files.new }
    ensures read { InAll (F.told files.new) (λ m. IsRead m done.now name.now place result) }
{
    match read_named(alloc, files, name) {
        Ok(bytes) => parsed(alloc, done.len() as u32, name, bytes, room),
        Err(WholeError::Absent) => Err(fault_where_met(
            alloc,
            Code::NoFile,
            place,
            name.as_bytes(),
            met_in(done, name, place),
        )?),
        Err(WholeError::TooLong) => Err(fault_where_met(
            alloc,
            Code::Limit,
            place,
            b"file size",
            met_in(done, name, place),
        )?),
        Err(WholeError::ReadFault) => Err(Unread::ReadFault(name.copy(alloc)?)),
        Err(WholeError::NoMemory) => Err(Unread::NoMemory),
    }
}

/// Meets the names that the imports of a file give.
fn take_imports_of(
    alloc: Global,
    root: &[u8],
    file: &SourceFile,
    known: &mut IndexMap<Text, Place>,
) -> Result<(), SourceError>
    ensures { IsTakenIn (take_imports root.now file.now.name known.old.entries (imports_of file.now.tree)) file.now.name
        known.new.entries result }
{
    let own = file.name.as_bytes();
    match take_imports(alloc, root, own, file.tree.items.as_slice(), known) {
        Ok(()) => Ok(()),
        Err(Refused::Fault(fault)) => Err(Unread::Fault(fault, file.name.copy(alloc)?)),
        Err(Refused::NoMemory) => Err(Unread::NoMemory),
    }
}

/// The turn of the next file after these; none where no file is left. `room` is the memory of tokens.
pub(crate) fn take_turn<F: Files>(
    alloc: Global,
    files: &mut F,
    root: &[u8],
    done: &[SourceFile],
    known: &mut IndexMap<Text, Place>,
    room: &mut Vec<Token>,
) -> Result<Option<SourceFile>, SourceError>
    requires few { length known.old.entries ≤ files_limit }
    requires utf8 { AreUtf8 known.old.entries }
    ensures kept { KeepsFiles F.told F.faults files.old files.new }
    ensures rose { (read : Items ℕ) → result ≡ Err (Unread.ReadFault read)
        → Rose (F.faults files.old read) (F.faults files.new read) }
    ensures learned { LearnsOnly F.told (AlikeInNext done.now known.old.entries) files.old files.new }
    ensures turn { InAll (F.told files.new) (λ m. IsTurn m root.now done.now known.old.entries known.new.entries result) }
{
    let Some((name, place)) = known.get_index(done.len()) else {
        return Ok(None);
    };
    let file = read_file(alloc, files, done, name, *place, room)?;
    take_imports_of(alloc, root, &file, known)?;
    Ok(Some(file))
}
