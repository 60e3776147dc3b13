//! The pages of spaces with the numbers of their frames, and the frames of domains' own.

ghost use Rattle.cam_base.specs.Gather.{gather};
ghost use Rattle.std.specs.Prelude.{◌≡◌, ◌<◌, ◌+◌, ◌^◌, ◌++◌, ℕ, length, map, slice_get, sum, Some, IfOk, OnOk};
ghost use Rattle.vspace_layout.specs.FrameNumbers.{AreAllNumbered, IsNumbered};
ghost use Rattle.vspace_layout.specs.FrameNumbers.{all_numbered, number_of, own_added, pages_numbered};
ghost use Rattle.vspace_layout.specs.declared.mapped.MappedPage.{MappedPage as Told};
ghost use Rattle.vspace_layout.specs.Frames.{own_frame};

use crate::mapped::{MappedPage, Shown};
use crate::owner::Owner;
use crate::spaces::{FrameInfo, Page};
use cam_base::{List, Made};
use std::alloc::Global;

/// The number of the frame that a page shows, where `firsts` has the number of the first frame of each connection's memory. A
/// frame of the domain's own is added.
fn frame_of(domain: u32, shown: Shown, firsts: &[u64], frames: &mut List<FrameInfo>) -> Made<u32>
    requires few { length frames.old < 2 ^ 32 }
    requires memory { IsNumbered firsts.now shown }
    ensures number { IfOk result (λ n. n ≡ number_of firsts.now (length frames.old) shown) }
    ensures frames { OnOk result (frames.new ≡ frames.old ++ own_frame domain shown) }
{
    match shown {
        Shown::Own(fill) => {
            let number = frames.len() as u32;
            frames.push(FrameInfo {
                owner: Owner::OfDomain(domain),
                paddr: None,
                fill,
            })?;
            Ok(number)
        }
        Shown::Memory { connection, page } => Ok((firsts[connection as usize] + page) as u32),
    }
}

/// The pages of a domain with the numbers of their frames. The domain's own frames are added.
fn number_pages(
    alloc: Global,
    domain: u32,
    mapped: List<MappedPage>,
    firsts: &[u64],
    frames: &mut List<FrameInfo>,
) -> Made<List<Page>>
    requires few { length frames.old + length mapped < 2 ^ 32 }
    requires memory { (n : ℕ) (page : Told) → slice_get mapped n ≡ Some page → IsNumbered firsts.now page.shown }
    ensures pages { IfOk result (λ pages. pages ≡ pages_numbered domain firsts.now (length frames.old) mapped) }
    ensures frames { OnOk result (frames.new ≡ frames.old ++ own_added domain mapped) }
{
    let mut pages = List::from_vec(Vec::with_capacity(alloc, mapped.len())?);
    for page in mapped.into_vec() {
        let frame = frame_of(domain, page.shown, firsts, frames)?;
        pages.push(Page {
            vaddr: page.at,
            frame,
            write: page.write,
            read: page.read,
        })?;
    }
    Ok(pages)
}

/// The pages of all domains with the numbers of their frames. All own frames are added.
pub fn number_all(
    alloc: Global,
    mapped: Vec<List<MappedPage>>,
    firsts: &[u64],
    frames: &mut List<FrameInfo>,
) -> Made<Vec<List<Page>>>
    requires domains { length mapped.items < 2 ^ 32 }
    requires few { length frames.old + sum (map length mapped.items) < 2 ^ 32 }
    requires memory { AreAllNumbered firsts.now mapped.items }
    ensures pages { IfOk result (λ all. all.items ≡ all_numbered firsts.now (length frames.old) mapped.items) }
    ensures frames { OnOk result (frames.new ≡ frames.old ++ gather own_added mapped.items) }
{
    let mut all = Vec::with_capacity(alloc, mapped.len())?;
    let mut domain: u32 = 0;
    for pages in mapped {
        all.push(number_pages(alloc, domain, pages, firsts, frames)?)?;
        domain += 1;
    }
    Ok(all)
}
