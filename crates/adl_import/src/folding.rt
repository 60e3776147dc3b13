//! Folding of paths.

ghost use Rattle.adl_import.specs.Folding.{is_slash, is_up, is_in_folder, is_absolute, is_plain, is_import_path, in_folder, one_up, with_part, with_parts, path_text, folded, import_name, root_name, IsFolded};
ghost use Rattle.adl_import.specs.Parts.{parts_of, inner_first};
ghost use Rattle.std.specs.List.{flat_map, join_with_byte, list_all, slice_split};
ghost use Rattle.std.specs.Option.{option_map};
ghost use Rattle.std.specs.Str.{is_utf8};
ghost use Rattle.std.specs.Prelude.{◌≡◌, ◌==◌, leb, map, [], ◌++◌, ◌∷◌, None, Some, IfOk, OnOk, IsTrue, if◌then◌else◌};

use cam_base::{Made, Refused, Text};
use std::alloc::{AllocError, Global};
use std::str::from_utf8;
use thiserror::Error;

/// The path names no file.
#[derive(Clone, Copy, Debug, Error)]
#[error("no path of a file")]
pub struct BadPath;

fn is_up(part: &[u8]) -> bool
    ensures { result ≡ is_up part.now }
{
    part == b"..".as_slice()
}

fn is_absolute(path: &[u8]) -> bool
    ensures { result ≡ is_absolute path.now }
{
    match path {
        [] => false,
        [first, ..] => *first == b'/',
    }
}

fn is_utf8(path: &[u8]) -> bool
    ensures { result ≡ is_utf8 path.now }
{
    from_utf8(path).is_ok()
}

fn has_no_control(path: &[u8]) -> bool
    ensures { result ≡ list_all (λ b. leb 32 b) path.now }
{
    path.iter().all(|b| *b >= 0x20)
}

/// Whether a path is UTF-8 without control bytes.
fn is_plain(path: &[u8]) -> bool
    ensures { result ≡ is_plain path.now }
{
    has_no_control(path) && is_utf8(path)
}

fn is_import_path(path: &[u8]) -> bool
    ensures { result ≡ is_import_path path.now }
{
    match path {
        [] => false,
        [first, ..] => *first != b'/' && is_plain(path),
    }
}

/// The parts of a path between its slashes.
fn split_path(alloc: Global, path: &[u8]) -> Result<Vec<&[u8]>, AllocError>
    ensures { IfOk result (λ parts. map (λ part. part.now) parts.items ≡ slice_split (λ b. b == 47) path.entry.now) }
{
    path.split(|b| *b == b'/').collect(alloc)
}

/// Whether there are parts, outermost first, and the last isn't `..`.
fn is_in_folder(parts: &[&[u8]]) -> bool
    ensures { result ≡ is_in_folder (inner_first parts.now) }
{
    match parts.split_last() {
        Some((last, _)) => !is_up(last),
        None => false,
    }
}

/// One step up from the parts, where `up` is `..`; false where it leaves an absolute path.
fn go_up<'a>(absolute: bool, parts: &mut Vec<&'a [u8]>, up: &'a [u8]) -> Made<bool>
    requires { IsTrue (is_up up.now) }
    ensures { IfOk result (λ inside. one_up absolute (inner_first parts.old.items)
        ≡ (if inside then Some (inner_first parts.new.items) else None)) }
{
    if is_in_folder(parts.as_slice()) {
        let _ = parts.pop();
        return Ok(true);
    }
    if absolute {
        return Ok(false);
    }
    parts.push(up)?;
    Ok(true)
}

/// Puts one part more of a path behind the others; false where it leaves an absolute path.
fn put_part<'a>(absolute: bool, parts: &mut Vec<&'a [u8]>, part: &'a [u8]) -> Made<bool>
    ensures { IfOk result (λ inside. with_part absolute (inner_first parts.old.items) part.entry.now
        ≡ (if inside then Some (inner_first parts.new.items) else None)) }
{
    if part.is_empty() || part == b".".as_slice() {
        return Ok(true);
    }
    if is_up(part) {
        return go_up(absolute, parts, part);
    }
    parts.push(part)?;
    Ok(true)
}

/// The parts that are left of a path, outermost first; none where it leaves an absolute path.
fn walk(alloc: Global, absolute: bool, path: &[u8]) -> Made<Option<Vec<&[u8]>>>
    ensures { IfOk result (λ kept. option_map (λ parts. inner_first parts.items) kept ≡ with_parts absolute []
        (slice_split is_slash path.entry.now)) }
{
    let split = split_path(alloc, path)?;
    let mut kept = Vec::new(alloc);
    for part in split.as_slice() {
        if !put_part(absolute, &mut kept, part)? {
            return Ok(None);
        }
    }
    Ok(Some(kept))
}

/// Puts parts at the end, each behind a slash.
fn push_behind_slashes(parts: &[&[u8]], text: &mut Vec<u8>) -> Made<()>
    ensures { OnOk result (text.new.items ≡ text.old.items ++ flat_map (λ part. 47 ∷ part.now) parts.now) }
{
    for part in parts {
        text.push(b'/')?;
        text.extend_from_slice(part)?;
    }
    Ok(())
}

/// Puts parts at the end, joined by slashes.
fn push_joined(parts: &[&[u8]], text: &mut Vec<u8>) -> Made<()>
    ensures { OnOk result (text.new.items ≡ text.old.items ++ join_with_byte 47 (parts_of parts.now)) }
{
    if let Some((first, rest)) = parts.split_first() {
        text.extend_from_slice(first)?;
        push_behind_slashes(rest, text)?;
    }
    Ok(())
}

/// The text of parts, outermost first.
fn path_text(alloc: Global, absolute: bool, parts: &[&[u8]]) -> Made<Text>
    ensures { IfOk result (λ text. text ≡ path_text absolute (inner_first parts.now)) }
{
    let mut text = Vec::new(alloc);
    if absolute {
        text.push(b'/')?;
    }
    push_joined(parts, &mut text)?;
    Ok(Text::from_vec(text))
}

fn fold_path(alloc: Global, path: &[u8]) -> Result<Text, Refused<BadPath>>
    ensures { IsFolded (folded path.now) result }
{
    let absolute = is_absolute(path);
    let Some(parts) = walk(alloc, absolute, path)? else {
        return Err(Refused::Fault(BadPath));
    };
    if !is_in_folder(parts.as_slice()) {
        return Err(Refused::Fault(BadPath));
    }
    Ok(path_text(alloc, absolute, parts.as_slice())?)
}

fn in_folder(alloc: Global, folder: &[u8], path: &[u8]) -> Made<Vec<u8>>
    ensures { IfOk result (λ joined. joined.items ≡ in_folder folder.now path.now) }
{
    let mut joined = folder.to_vec(alloc)?;
    if !folder.is_empty() {
        joined.push(b'/')?;
    }
    joined.extend_from_slice(path)?;
    Ok(joined)
}

/// The name of the file that an import's path gives in a folder: both joined and folded. `BadPath` exactly where the
/// path is empty, begins with a slash, isn't UTF-8 or has a control byte, or where the joined path leaves an absolute
/// folder or names no file. `specs/Folding.antt` says it whole.
pub fn fold(alloc: Global, folder: &[u8], path: &[u8]) -> Result<Text, Refused<BadPath>>
    ensures { IsFolded (import_name folder.now path.now) result }
{
    if !is_import_path(path) {
        return Err(Refused::Fault(BadPath));
    }
    let joined = in_folder(alloc, folder, path)?;
    fold_path(alloc, joined.as_slice())
}

/// The name of a root, folded in the same way; it may begin with a slash.
pub fn fold_root(alloc: Global, root: &[u8]) -> Result<Text, Refused<BadPath>>
    ensures { IsFolded (root_name root.now) result }
{
    if !is_plain(root) {
        return Err(Refused::Fault(BadPath));
    }
    fold_path(alloc, root)
}
