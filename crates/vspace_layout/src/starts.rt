//! Where regions begin, and with them the stacks and buffers of threads, and windows.

ghost use Rattle.std.specs.Prelude.{◌≡◌, ◌<◌, ◌≤◌, ◌+◌, ◌*◌, ◌^◌, length, IfOk};
ghost use Rattle.vspace_layout.specs.Outlines.{StacksFit, starts_in, thread_places, window_places};
ghost use Rattle.vspace_layout.specs.Regions.{pages_in};

use crate::region::{Region, stack_pages, window_pages};
use crate::spaces::{ThreadPlace, Window};
use crate::thread::ThreadOf;
use cam_base::{List, Made};
use cspace_layout::{EndAt, Wiring};
use std::alloc::Global;

/// Where each region begins, if the first page behind the base stays free.
pub fn starts_of(alloc: Global, base: u64, regions: &[Region]) -> Made<List<u64>>
    requires { base + 4096 * (length regions.now + pages_in regions.now) < 2 ^ 64 }
    ensures { IfOk result (λ starts. starts ≡ starts_in base regions.now) }
{
    let mut starts = List::from_vec(Vec::with_capacity(alloc, regions.len())?);
    let mut end = base;
    for region in regions {
        let start = end + 4096;
        starts.push(start)?;
        end = start + 4096 * region.pages;
    }
    Ok(starts)
}

/// The places of threads, where thread `i` has the regions `2 i` and `2 i + 1`.
pub fn thread_places(
    alloc: Global,
    wiring: &Wiring<'_>,
    starts: &[u64],
    threads: &[ThreadOf],
) -> Made<List<ThreadPlace>>
    requires each { 2 * length threads.now ≤ length starts.now }
    requires fit { StacksFit wiring.now.settled starts.now threads.now }
    ensures { IfOk result (λ places. places ≡ thread_places wiring.now.settled starts.now threads.now) }
{
    let mut places = List::from_vec(Vec::with_capacity(alloc, threads.len())?);
    for (number, thread) in threads.iter().enumerate() {
        places.push(ThreadPlace {
            leaf: thread.leaf,
            end: thread.end,
            sp: starts[2 * number] + 4096 * stack_pages(wiring, thread.leaf),
            buffer: starts[2 * number + 1],
        })?;
    }
    Ok(places)
}

/// The places of windows, whose regions are those from number `first` on.
pub fn window_places(
    alloc: Global,
    wiring: &Wiring<'_>,
    starts: &[u64],
    first: usize,
    windows: &[EndAt],
) -> Made<List<Window>>
    requires { first + length windows.now ≤ length starts.now }
    ensures { IfOk result (λ places. places ≡ window_places wiring.now.flat wiring.now.settled starts.now first windows.now) }
{
    let mut places = List::from_vec(Vec::with_capacity(alloc, windows.len())?);
    for (number, end) in windows.iter().enumerate() {
        places.push(Window {
            end: *end,
            vaddr: starts[first + number],
            pages: window_pages(wiring, *end),
        })?;
    }
    Ok(places)
}
