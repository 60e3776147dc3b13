ghost use Rattle.cspace_layout.specs.Limit.{keyword_of, keyword_in, keyword_among, limit_fault};
ghost use Rattle.std.specs.Prelude.{◌≡◌, IfOk};

use adl_ast::{Ended, Item, Source, SourceFile};
use cam_base::{Code, Fault, Made, Place, Text};
use std::alloc::Global;

fn keyword_of(item: &Item) -> Option<Place>
    ensures { result ≡ keyword_of item.now }
{
    match item {
        Item::Assembly(assembly) => Some(assembly.get().place),
        _ => None,
    }
}

fn keyword_in(items: &[Ended]) -> Option<Place>
    ensures { result ≡ keyword_in items.now }
{
    for ended in items {
        if let Some(place) = keyword_of(&ended.item) {
            return Some(place);
        }
    }
    None
}

/// The place of the keyword of the first assembly.
fn keyword_among(files: &[SourceFile]) -> Option<Place>
    ensures { result ≡ keyword_among files.now }
{
    for file in files {
        if let Some(place) = keyword_in(file.tree.items.as_slice()) {
            return Some(place);
        }
    }
    None
}

/// The fault of a limit of that name, at the keyword of the first assembly; none where there is no assembly:
/// `specs/Limit.antt`.
///
/// # Errors
///
/// Want of memory.
#[tactic(auto, using(crate::proofs::Keyword::limit_there, crate::proofs::Keyword::limit_nowhere))]
pub fn limit_fault(alloc: Global, source: &Source, name: &[u8]) -> Made<Option<Fault>>
    ensures { IfOk result (λ fault. fault ≡ limit_fault source.now name.now) }
{
    let Some(place) = keyword_among(source.files.as_slice()) else {
        return Ok(None);
    };
    Ok(Some(Fault {
        code: Code::Limit,
        place,
        name: Text::new(alloc, name)?,
    }))
}
