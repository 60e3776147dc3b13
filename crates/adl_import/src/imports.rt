//! Taking the imports of a file.

ghost use Rattle.adl_import.specs.Folding.{is_slash};
ghost use Rattle.adl_import.specs.Imports.{is_built_in, folder_of, imports_in};
ghost use Rattle.adl_import.specs.Taking.{IsTaken};
ghost use Rattle.adl_import.specs.Turns.{fault_at, meet, take_import, take_imports};
ghost use Rattle.std.specs.Prelude.{◌≡◌, IfOk};

use crate::{BadPath, fold};
use adl_ast::{Ended, Import, Item};
use cam_base::{Code, Fault, Made, Place, Refused, Text};
use indexmap::IndexMap;
use std::alloc::Global;

/// The greatest number of files.
const FILES_LIMIT: usize = 64;

pub(crate) fn fault_at(alloc: Global, code: Code, place: Place, name: &[u8]) -> Made<Fault>
    ensures { IfOk result (λ fault. fault ≡ fault_at code place name.now) }
{
    let name = Text::new(alloc, name)?;
    Ok(Fault { code, place, name })
}

/// The bytes of a name up to its last slash.
fn folder_of(name: &[u8]) -> &[u8]
    ensures { result.now ≡ folder_of name.now }
{
    let mut folder = name;
    while let Some((last, front)) = folder.split_last() {
        if *last == b'/' {
            break;
        }
        folder = front;
    }
    folder
}

fn is_built_in(import: &Import) -> bool
    ensures { result ≡ is_built_in import.now }
{
    let name = import.path.as_bytes();
    import.angle
        && (name == b"std_connector.camkes".as_slice()
            || name == b"global-connector.camkes".as_slice()
            || name == b"global-connectors.camkes".as_slice())
}

/// Meets a name, unless it is known.
fn meet(
    alloc: Global,
    name: Text,
    place: Place,
    known: &mut IndexMap<Text, Place>,
) -> Result<(), Refused<Fault>>
    ensures { IsTaken (meet known.old.entries place name) known.new.entries result }
{
    if known.contains_key(&name) {
        return Ok(());
    }
    if known.len() >= FILES_LIMIT {
        return Err(Refused::Fault(fault_at(alloc, Code::Limit, place, b"files")?));
    }
    known.insert(name, place)?;
    Ok(())
}

fn take_import(
    alloc: Global,
    root: &[u8],
    own: &[u8],
    import: &Import,
    known: &mut IndexMap<Text, Place>,
) -> Result<(), Refused<Fault>>
    ensures { IsTaken (take_import root.now own.now known.old.entries import.now) known.new.entries result }
{
    if is_built_in(import) {
        return Ok(());
    }
    let top = if import.angle { root } else { own };
    match fold(alloc, folder_of(top), import.path.as_bytes()) {
        Ok(name) => meet(alloc, name, import.place, known),
        Err(Refused::Fault(BadPath)) => Err(Refused::Fault(fault_at(
            alloc,
            Code::BadPath,
            import.place,
            b"",
        )?)),
        Err(Refused::NoMemory) => Err(Refused::NoMemory),
    }
}

/// Meets the names that the imports of a file give, in source order.
pub(crate) fn take_imports(
    alloc: Global,
    root: &[u8],
    own: &[u8],
    items: &[Ended],
    known: &mut IndexMap<Text, Place>,
) -> Result<(), Refused<Fault>>
    ensures { IsTaken (take_imports root.now own.now known.old.entries (imports_in items.now)) known.new.entries result }
{
    for ended in items {
        match &ended.item {
            Item::Import(import) => take_import(alloc, root, own, import, known)?,
            Item::Procedure(_) | Item::Component(_) | Item::Assembly(_) => {}
        }
    }
    Ok(())
}
