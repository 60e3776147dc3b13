//! Loading a source.

ghost use Rattle.adl_import.specs.Loaded.{AlikeInSource, AlikeInTurns, IsLoaded, IsLoadedFrom, IsRefusedRoot};
ghost use Rattle.cam_io.specs.Causes.{Rose};
ghost use Rattle.cam_io.specs.Reading.{InAll, KeepsFiles, LearnsOnly};
ghost use Rattle.std.specs.Prelude.{◌≡◌, ◌∷◌, [], ℕ, List as Items, Err, IfOk};
ghost use Rattle.std.specs.Str.{IsUtf8};

use crate::imports::fault_at;
use crate::turn::take_turn;
use crate::{BadPath, fold_root};
use adl_ast::Source;
use cam_base::{Code, List, Made, Place, Refused, SourceError, Text, Unread};
use cam_io::Files;
use indexmap::IndexMap;
use std::alloc::Global;

/// The root is met at the beginning of file 0.
const ROOT_PLACE: Place = Place {
    file: 0,
    first: 0,
    end: 0,
};

fn met_root(alloc: Global, root: &Text) -> Made<IndexMap<Text, Place>>
    ensures { IfOk result (λ known. known.entries ≡ (root.now, ROOT_PLACE) ∷ []) }
{
    let mut known = IndexMap::new(alloc);
    known.insert(root.copy(alloc)?, ROOT_PLACE)?;
    Ok(known)
}

fn load_from<F: Files>(alloc: Global, files: &mut F, root: &Text) -> Result<Source, SourceError>
    requires { IsUtf8 root.now }
    ensures kept { KeepsFiles F.told F.faults files.old files.new }
    ensures rose { (read : Items ℕ) → result ≡ Err (Unread.ReadFault read)
        → Rose (F.faults files.old read) (F.faults files.new read) }
    ensures learned { LearnsOnly F.told (AlikeInTurns root.now) files.old files.new }
    ensures loaded { InAll (F.told files.new) (λ m. IsLoadedFrom m root.now result) }
{
    let mut known = met_root(alloc, root)?;
    let mut done = List::new(alloc);
    let mut room = Vec::new(alloc);
    let top = root.as_bytes();
    while let Some(file) = take_turn(alloc, files, top, done.as_slice(), &mut known, &mut room)? {
        done.push(file)?;
    }
    Ok(Source { files: done })
}

fn refused_root(alloc: Global, root: &str) -> Result<Source, SourceError>
    ensures { IsRefusedRoot root.now result }
{
    let fault = fault_at(alloc, Code::BadPath, ROOT_PLACE, b"")?;
    Err(Unread::Fault(fault, Text::new(alloc, root.as_bytes())?))
}

/// The source of a root: its file, and the files that it and they import, each read once. Refused exactly where a turn
/// has a fault, by the first fault of the first such turn: `specs/Loaded.antt`. `ReadFault` only where the count of the
/// name that it gives rose. It looks at no file but those whose turns come, and at no more of one than the limit and a byte.
pub fn load<F: Files>(alloc: Global, files: &mut F, root: &str) -> Result<Source, SourceError>
    ensures kept { KeepsFiles F.told F.faults files.old files.new }
    ensures rose { (read : Items ℕ) → result ≡ Err (Unread.ReadFault read)
        → Rose (F.faults files.old read) (F.faults files.new read) }
    ensures learned { LearnsOnly F.told (AlikeInSource root.now) files.old files.new }
    ensures loaded { InAll (F.told files.new) (λ m. IsLoaded m root.now result) }
{
    match fold_root(alloc, root.as_bytes()) {
        Ok(name) => load_from(alloc, files, &name),
        Err(Refused::Fault(BadPath)) => refused_root(alloc, root),
        Err(Refused::NoMemory) => Err(Unread::NoMemory),
    }
}
