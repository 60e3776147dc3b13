ghost use Rattle.cam_io.specs.NamedFiles.{lookup, replaced, contents_of, count_of, counts_for};
ghost use Rattle.cam_io.specs.Causes.{Rose, NoneFell, one_more};
ghost use Rattle.cam_io.specs.Reading.{TookAtMost, IsGot};
ghost use Rattle.cam_io.specs.declared.named_file.NamedFile.{NamedFile};
ghost use Rattle.std.specs.FinMap as map;
ghost use Rattle.std.specs.Prelude.{List as Items, ◌≡◌, ◌<◌, ◌≤◌, ℕ, ◌+◌, drop, take, cond, IfNone, IfSome, length, slice_set, slice_get, OnOk, OnErr};
ghost use Rattle.std.specs.Str.{bytes_eq};

use crate::Got;
use cam_base::{Made, Text};
use std::alloc::Global;

/// A file in memory, and how often reads of it have failed.
#[derive(Drop)]
pub(crate) struct NamedFile {
    pub(crate) name: Text,
    pub(crate) bytes: Text,
    pub(crate) faults: u64,
}

pub(crate) fn same(a: &[u8], b: &[u8]) -> bool
    ensures { result ≡ bytes_eq a.now b.now }
{
    a == b
}

/// Where the name's file stands.
fn place_of(files: &[NamedFile], name: &[u8]) -> Option<usize>
    ensures none { IfNone result (lookup files.now name.now ≡ None) }
    ensures within { IfSome result (λ i. i < length files.now) }
    ensures found { IfSome result (λ i. lookup files.now name.now ≡ slice_get files.now i) }
    ensures replace { IfSome result (λ i. (f : NamedFile) → slice_set files.now i f ≡ replaced files.now name.now f) }
{
    for i in 0..files.len() {
        if same(name, files[i].name.as_bytes()) {
            return Some(i);
        }
    }
    None
}

#[tactic(auto, using(crate::proofs::Lookups::get_contents))]
pub(crate) fn found<'a>(files: &'a [NamedFile], name: &[u8]) -> Option<&'a NamedFile>
    ensures none { IfNone result (map.get (contents_of files.now) name.now ≡ None) }
    ensures some { IfSome result (λ f. map.get (contents_of files.now) name.now ≡ Some f.now.bytes) }
{
    let at = place_of(files, name)?;
    Some(&files[at])
}

/// Copies from these bytes, from a place on, and answers how many.
pub(crate) fn copy_from(bytes: &[u8], at: usize, buf: &mut [u8]) -> usize
    requires some { 0 < length buf.old }
    requires within { at < length bytes.now }
    ensures some { 0 < result }
    ensures room { result ≤ length buf.new }
    ensures within { at + result ≤ length bytes.now }
    ensures copied { take result buf.new ≡ take result (drop at bytes.now) }
{
    let rest = &bytes[at..];
    let count = rest.len().min(buf.len());
    buf[..count].copy_from_slice(&rest[..count]);
    count
}

/// Reads from these bytes.
pub(crate) fn read_from(bytes: &[u8], at: u64, buf: &mut [u8]) -> Got
    requires { 0 < length buf.old }
    ensures some { TookAtMost (length buf.new) result }
    ensures got { IsGot (Some bytes.now) at buf.new result }
{
    if at >= bytes.len() as u64 {
        return Got::End;
    }
    Got::Bytes(copy_from(bytes, at as usize, buf))
}

/// Reads the file of a name.
pub(crate) fn read_file(files: &[NamedFile], name: &[u8], at: u64, buf: &mut [u8]) -> Got
    requires { 0 < length buf.old }
    ensures some { TookAtMost (length buf.new) result }
    ensures got { IsGot (map.get (contents_of files.now) name.now) at buf.new result }
{
    match found(files, name) {
        None => Got::Absent,
        Some(file) => read_from(file.bytes.as_bytes(), at, buf),
    }
}

/// Gives a name these bytes.
pub(crate) fn put_file(
    alloc: Global,
    files: &mut Vec<NamedFile>,
    others: u64,
    name: &[u8],
    bytes: &[u8],
) -> Made<()>
    ensures ok { OnOk result (contents_of files.new.items ≡ map.insert (contents_of files.old.items) name.now bytes.now) }
    ensures err { OnErr result (contents_of files.new.items ≡ contents_of files.old.items) }
    ensures counts { (r : Items ℕ) → count_of files.new.items others r ≡ count_of files.old.items others r }
{
    let bytes = Text::new(alloc, bytes)?;
    match place_of(files, name) {
        Some(at) => {
            files[at].bytes = bytes;
            Ok(())
        }
        None => {
            let name = Text::new(alloc, name)?;
            files.push(NamedFile {
                name,
                bytes,
                faults: others,
            })?;
            Ok(())
        }
    }
}

/// Counts a fault of this name: in its file's count, or without a file in the count of all other names.
pub(crate) fn count_fault(files: &mut Vec<NamedFile>, others: &mut u64, name: &[u8])
    ensures contents { contents_of files.new.items ≡ contents_of files.old.items }
    ensures later { NoneFell (count_of files.old.items others.old) (count_of files.new.items others.new) }
    ensures rose { Rose (count_of files.old.items others.old name.now) (count_of files.new.items others.new name.now) }
    ensures counts { (r : Items ℕ) → count_of files.new.items others.new r
        ≡ cond (counts_for (contents_of files.old.items) name.now r) (one_more (count_of files.old.items others.old r))
        (count_of files.old.items others.old r) }
{
    match place_of(files, name) {
        Some(i) => {
            let file = &mut files[i];
            file.faults = file.faults.saturating_add(1);
        }
        None => *others = others.saturating_add(1),
    }
}
