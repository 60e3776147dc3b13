//! Paths that no row can say: a folder that isn't UTF-8, and a path with a line feed.

use adl_import::{BadPath, fold, fold_root};
use cam_base::Refused;
use std::test::Fail;

#[test]
fn import_above_the_folder(rt: HostRuntime) -> Result<(), Fail> {
    let Ok(text) = fold(rt.alloc(), b"a", b"../x") else {
        return Err(Fail::new("a bad path"));
    };
    assert!(rt; text.as_bytes() == b"x".as_slice());
    Ok(())
}

#[test]
fn folder_not_utf8(rt: HostRuntime) -> Result<(), Fail> {
    let Ok(text) = fold(rt.alloc(), b"\xff", b"x") else {
        return Err(Fail::new("a bad path"));
    };
    assert!(rt; text.as_bytes() == b"\xff/x".as_slice());
    Ok(())
}

#[test]
fn line_feed_in_a_path(rt: HostRuntime) {
    let folded = fold(rt.alloc(), b"", b"x\n");
    assert!(rt; matches!(folded, Err(Refused::Fault(BadPath))));
}

#[test]
fn root_by_its_name(rt: HostRuntime) -> Result<(), Fail> {
    let Ok(text) = fold_root(rt.alloc(), b"/d/../r") else {
        return Err(Fail::new("a bad path"));
    };
    assert!(rt; text.as_bytes() == b"/r".as_slice());
    Ok(())
}
