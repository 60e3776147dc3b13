//! The threads, windows and regions of a domain, before any page is listed.

ghost use Rattle.std.specs.Prelude.{◌≡◌, IfOk};
ghost use Rattle.vspace_layout.specs.Outlines.{outlines};

use crate::region::{Region, regions_of, windows_of};
use crate::thread::{ThreadOf, threads_of};
use cam_base::{List, Made};
use cspace_layout::{EndAt, Wiring};
use std::alloc::Global;

/// The threads of a domain, its ends that see memory, and the regions of both.
#[derive(Drop)]
pub struct Outline {
    pub threads: List<ThreadOf>,
    pub windows: List<EndAt>,
    pub regions: List<Region>,
}

/// The outlines of all domains.
pub fn outlines_of(alloc: Global, wiring: &Wiring<'_>) -> Made<Vec<Outline>>
    ensures { IfOk result (λ all. all.items ≡ outlines wiring.now) }
{
    let mut all = Vec::with_capacity(alloc, wiring.domains().len())?;
    for domain in wiring.domains() {
        let leaves = domain.leaves.as_slice();
        let threads = threads_of(alloc, wiring, leaves)?;
        let windows = windows_of(alloc, wiring, leaves)?;
        let regions = regions_of(alloc, wiring, threads.as_slice(), windows.as_slice())?;
        all.push(Outline {
            threads,
            windows,
            regions,
        })?;
    }
    Ok(all)
}
