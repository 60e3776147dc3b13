//! Names, paths and texts.

use cam_base::{BadName, Name, Path, Refused, Text, is_name};
use std::alloc::Global;
use std::test::Fail;

fn push(alloc: Global, path: &mut Path, name: &str) -> Result<(), Fail> {
    path.push(Name::new(alloc, name.as_bytes())?)?;
    Ok(())
}

/// The path `on.m.i.s`.
fn sample(alloc: Global) -> Result<Path, Fail> {
    let mut path = Path::empty(alloc);
    for name in ["on", "m", "i", "s"] {
        push(alloc, &mut path, name)?;
    }
    Ok(path)
}

#[test]
fn path_text(rt: HostRuntime) -> Result<(), Fail> {
    let path = sample(rt.alloc())?;
    let text = path.text(rt.alloc())?;
    assert!(rt; text.as_bytes() == b"on.m.i.s".as_slice());
    Ok(())
}

#[test]
fn path_copy(rt: HostRuntime) -> Result<(), Fail> {
    let path = sample(rt.alloc())?;
    let copy = path.copy(rt.alloc())?;
    assert!(rt; copy.names() == path.names());
    Ok(())
}

#[test]
fn text_copy(rt: HostRuntime) -> Result<(), Fail> {
    let text = Text::new(rt.alloc(), b"on.m")?;
    let copy = text.copy(rt.alloc())?;
    assert!(rt; copy == text);
    Ok(())
}

#[test]
fn name_copy(rt: HostRuntime) -> Result<(), Fail> {
    let name = Name::new(rt.alloc(), b"on")?;
    let copy = name.copy(rt.alloc())?;
    assert!(rt; copy.as_bytes() == b"on".as_slice());
    Ok(())
}

fn is_bad(alloc: Global, bytes: &[u8]) -> bool {
    matches!(Name::new(alloc, bytes), Err(Refused::Fault(BadName)))
}

#[test]
fn bad_names(rt: HostRuntime) {
    assert!(rt; is_bad(rt.alloc(), b"9a") && is_bad(rt.alloc(), b""));
    assert!(rt; is_name(&[b'x'; 127]) && !is_name(&[b'x'; 128]));
}
