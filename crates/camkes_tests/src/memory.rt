//! Files and outputs in memory that fail, called outside of a command.

use cam_io::{Failed, FixedFiles, MemFiles, MemOutputs, WholeError, Writer, read_whole};
use std::alloc::Global;
use std::test::Fail;

/// A file of five bytes, of which the read of this number fails.
fn files(alloc: Global, failing: u64) -> Result<MemFiles, Fail> {
    let mut files = MemFiles::new(alloc);
    files.add("a", b"hello")?;
    files.fail_at(failing)?;
    Ok(files)
}

#[test]
fn a_whole_file(rt: HostRuntime) -> Result<(), Fail> {
    let mut files = files(rt.alloc(), 3)?;
    let whole = read_whole(rt.alloc(), &mut files, "a", 5)?;
    assert!(rt; whole.as_slice() == b"hello".as_slice());
    Ok(())
}

fn error_of(alloc: Global, files: &mut MemFiles, limit: u64) -> Option<WholeError> {
    read_whole(alloc, files, "a", limit).err()
}

#[test]
fn a_file_too_long(rt: HostRuntime) -> Result<(), Fail> {
    let mut files = files(rt.alloc(), 0)?;
    let error = error_of(rt.alloc(), &mut files, 4);
    assert!(rt; matches!(error, Some(WholeError::TooLong)));
    Ok(())
}

#[test]
fn a_failed_read(rt: HostRuntime) -> Result<(), Fail> {
    let mut files = files(rt.alloc(), 2)?;
    let error = error_of(rt.alloc(), &mut files, 5);
    assert!(rt; matches!(error, Some(WholeError::ReadFault)));
    Ok(())
}

#[test]
fn a_fixed_file(rt: HostRuntime) -> Result<(), Fail> {
    let mut files = FixedFiles::new(rt.alloc());
    files.add("a", b"hello")?;
    let whole = read_whole(rt.alloc(), &mut files, "a", 5)?;
    assert!(rt; whole.as_slice() == b"hello".as_slice());
    Ok(())
}

#[test]
fn a_full_channel(rt: HostRuntime) -> Result<(), Fail> {
    let mut out = MemOutputs::new(rt.alloc(), 4)?;
    let mut to = Writer::new(&mut out, 1);
    to.texts(&[b"ab", b"", b"c"]);
    assert!(rt; matches!(to.flush(), Ok(())));
    to.text(b"de");
    assert!(rt; matches!(to.flush(), Err(Failed)));
    assert!(rt; out.bytes(1) == b"abcd".as_slice());
    Ok(())
}
