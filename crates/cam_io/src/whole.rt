ghost use Rattle.cam_io.specs.Causes.{Rose};
ghost use Rattle.cam_io.specs.FileBytes.{bytes_in, with_bytes};
ghost use Rattle.cam_io.specs.Reading.{InAll, TookAtMost, IsGot, KeepsFiles, HaveSameFront, LearnsOnly};
ghost use Rattle.cam_io.specs.Whole.{IsWhole};
ghost use Rattle.std.specs.FinMap as map;
ghost use Rattle.std.specs.Prelude.{◌≡◌, ◌+◌, ◌<◌, ◌≤◌, min, length, IfOk, IsErrOf, OnErr};

use crate::{Failed, FileBytes, Files, Got};
use cam_base::{List, NoMemory, Refused};
use std::alloc::Global;
use thiserror::Error;

/// How many bytes are asked for at once.
const CHUNK: usize = 65536;

/// Why a file wasn't read whole.
#[derive(Clone, Copy, Debug, Error)]
pub enum WholeError {
    /// There is no file of this name.
    #[error("no such file")]
    Absent,
    /// The file has more bytes than the limit.
    #[error("too long")]
    TooLong,
    /// A read failed, and the count of this name rose.
    #[error("read fault")]
    ReadFault,
    /// Want of memory.
    #[error("no memory")]
    NoMemory,
}

impl From<NoMemory> for WholeError {
    ghost use Rattle.std.specs.Prelude.{◌≡◌};
    ghost use Rattle.cam_io.specs.declared.whole.WholeError.TheVariants.{NoMemory as WholeNoMemory};

    ghost from_gives = { λ _ e. e ≡ WholeNoMemory };

    fn from(_: NoMemory) -> WholeError {
        WholeError::NoMemory
    }
}

impl From<Failed> for WholeError {
    ghost use Rattle.std.specs.Prelude.{◌≡◌};
    ghost use Rattle.cam_io.specs.declared.whole.WholeError.TheVariants.{ReadFault};

    ghost from_gives = { λ _ e. e ≡ ReadFault };

    fn from(_: Failed) -> WholeError {
        WholeError::ReadFault
    }
}

/// How many bytes to ask for, where so many may still come: one more, to see whether the file is too long.
fn lent_room(left: u64) -> usize
    ensures { result ≡ min 65536 (left + 1) }
{
    left.saturating_add(1).min(CHUNK as u64) as usize
}

/// One read into the first `room` bytes of the chunk.
fn read_front<F: Files>(
    files: &mut F,
    name: &str,
    at: u64,
    chunk: &mut [u8],
    room: usize,
) -> Result<Got, Failed>
    requires some { 0 < room }
    requires within { room ≤ length chunk.old }
    ensures kept { KeepsFiles F.told F.faults files.old files.new }
    ensures failed { OnErr result (Rose (F.faults files.old name.now) (F.faults files.new name.now)) }
    ensures some { IfOk result (TookAtMost room) }
    ensures got { InAll (F.told files.new) (λ m. IfOk result (IsGot (map.get m name.now) at chunk.new)) }
    ensures learned { LearnsOnly F.told (HaveSameFront name.now (at + room)) files.old files.new }
{
    files.read(name, at, &mut chunk[..room])
}

/// The bytes of a file of at most `limit` bytes, read in chunks.
fn read_by_chunks<F: Files>(
    alloc: Global,
    files: &mut F,
    name: &str,
    limit: u64,
) -> Result<List<u8>, WholeError>
    ensures kept { KeepsFiles F.told F.faults files.old files.new }
    ensures read_fault { IsErrOf result WholeError.ReadFault → Rose (F.faults files.old name.now) (F.faults files.new name.now) }
    ensures limit { IfOk result (λ bytes. length bytes ≤ limit) }
    ensures learned { LearnsOnly F.told (HaveSameFront name.now (limit + 1)) files.old files.new }
    ensures whole { InAll (F.told files.new) (λ m. IsWhole (map.get m name.now) limit result) }
{
    let mut whole = List::new(alloc);
    let mut chunk = [0; CHUNK];
    loop {
        let at = whole.len() as u64;
        let room = lent_room(limit - at);
        match read_front(files, name, at, &mut chunk, room)? {
            Got::Absent => return Err(WholeError::Absent),
            Got::End => return Ok(whole),
            Got::Bytes(taken) => {
                if taken as u64 > limit - at {
                    return Err(WholeError::TooLong);
                }
                whole.extend(&chunk[..taken])?;
            }
        }
    }
}

/// What is known of a file of at most `limit` bytes where these files keep its bytes, or else can be read.
fn know_seen<F: Files>(
    alloc: Global,
    files: &mut F,
    name: &str,
    limit: u64,
) -> Result<FileBytes, WholeError>
    ensures kept { KeepsFiles F.told F.faults files.old files.new }
    ensures read_fault { IsErrOf result WholeError.ReadFault → Rose (F.faults files.old name.now) (F.faults files.new name.now) }
    ensures limit { IfOk result (λ bytes. length (bytes_in bytes (F.lends files.new name.now)) ≤ limit) }
    ensures learned { LearnsOnly F.told (HaveSameFront name.now (limit + 1)) files.old files.new }
    ensures whole { InAll (F.told files.new) (λ m. IsWhole (map.get m name.now) limit
        (with_bytes result (F.lends files.new name.now))) }
{
    match files.seen(name) {
        Some(bytes) if bytes.len() as u64 <= limit => Ok(FileBytes::Kept),
        Some(_) => Err(WholeError::TooLong),
        None => Ok(FileBytes::Read(read_by_chunks(alloc, files, name, limit)?)),
    }
}

/// Sees a file of at most `limit` bytes whole: its bytes are lent where the files keep them, or else read. Looks at no more
/// than one byte past the limit, and answers `Absent` or `TooLong` exactly where there is no such name or more than `limit`
/// bytes.
pub fn see_whole<F: Files>(
    alloc: Global,
    files: &mut F,
    name: &str,
    limit: u64,
) -> Result<FileBytes, WholeError>
    ensures kept { KeepsFiles F.told F.faults files.old files.new }
    ensures read_fault { IsErrOf result WholeError.ReadFault → Rose (F.faults files.old name.now) (F.faults files.new name.now) }
    ensures limit { IfOk result (λ bytes. length (bytes_in bytes (F.lends files.new name.now)) ≤ limit) }
    ensures learned { LearnsOnly F.told (HaveSameFront name.now (limit + 1)) files.old files.new }
    ensures whole { InAll (F.told files.new) (λ m. IsWhole (map.get m name.now) limit
        (with_bytes result (F.lends files.new name.now))) }
{
    match files.see(name, limit) {
        Ok(()) => know_seen(alloc, files, name, limit),
        Err(Refused::Fault(Failed)) => Err(WholeError::ReadFault),
        Err(Refused::NoMemory) => Err(WholeError::NoMemory),
    }
}

/// The bytes of a file of at most `limit` bytes, as `see_whole` sees them.
pub fn read_whole<F: Files>(
    alloc: Global,
    files: &mut F,
    name: &str,
    limit: u64,
) -> Result<List<u8>, WholeError>
    ensures kept { KeepsFiles F.told F.faults files.old files.new }
    ensures read_fault { IsErrOf result WholeError.ReadFault → Rose (F.faults files.old name.now) (F.faults files.new name.now) }
    ensures limit { IfOk result (λ bytes. length bytes ≤ limit) }
    ensures learned { LearnsOnly F.told (HaveSameFront name.now (limit + 1)) files.old files.new }
    ensures whole { InAll (F.told files.new) (λ m. IsWhole (map.get m name.now) limit result) }
{
    let bytes = see_whole(alloc, files, name, limit)?;
    Ok(bytes.into_list(alloc, files, name)?)
}

/// The bytes of a file of at most `limit` bytes, as `see_whole` sees them. The files needn't keep them: a later read of the name
/// may fail.
pub fn take_whole<F: Files>(
    alloc: Global,
    files: &mut F,
    name: &str,
    limit: u64,
) -> Result<List<u8>, WholeError>
    ensures kept { KeepsFiles F.told F.faults files.old files.new }
    ensures read_fault { IsErrOf result WholeError.ReadFault → Rose (F.faults files.old name.now) (F.faults files.new name.now) }
    ensures limit { IfOk result (λ bytes. length bytes ≤ limit) }
    ensures learned { LearnsOnly F.told (HaveSameFront name.now (limit + 1)) files.old files.new }
    ensures whole { InAll (F.told files.new) (λ m. IsWhole (map.get m name.now) limit result) }
{
    match see_whole(alloc, files, name, limit)? {
        FileBytes::Read(bytes) => Ok(bytes),
        FileBytes::Kept => Ok(files.give(alloc, name)?.unwrap_or(List::new(alloc))),
    }
}
