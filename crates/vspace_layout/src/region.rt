//! The regions of domains: what stands in their spaces behind the sections.

ghost use Rattle.cspace_layout.specs.System.{all_ends};
ghost use Rattle.std.specs.Prelude.{◌≡◌, ◌++◌, IfOk, OnOk};
ghost use Rattle.vspace_layout.specs.Regions.{domain_windows, leaf_windows, regions_in, sees_memory};
ghost use Rattle.vspace_layout.specs.Regions.{stack_pages, window_pages};

use crate::memory::memory_pages;
use crate::thread::ThreadOf;
use adl_ast::Role;
use adl_meaning::Connector;
use cam_base::{List, Made};
use cspace_layout::{EndAt, Wiring};
use std::alloc::Global;

/// What a region of a space is for.
#[derive(Clone, Copy)]
pub enum Content {
    Stack,
    Buffer,
    Window(EndAt),
}

/// A region of a space: what it is for, and how many pages it has.
#[derive(Clone, Copy)]
pub struct Region {
    pub content: Content,
    pub pages: u64,
}

// ---- windows

/// Whether the end sees memory: an end of shared memory, or the one of software at a device's registers.
fn sees_memory(wiring: &Wiring<'_>, end: EndAt) -> bool
    ensures { result ≡ sees_memory wiring.now.flat end }
{
    match wiring.end(end) {
        Some((connector, end)) => match connector {
            Connector::SharedMemory => true,
            Connector::Mmio => matches!(end.role, Role::From),
            _ => false,
        },
        None => false,
    }
}

fn push_windows(wiring: &Wiring<'_>, leaf: u32, windows: &mut List<EndAt>) -> Made<()>
    ensures { OnOk result (windows.new ≡ windows.old ++ leaf_windows wiring.now.flat (all_ends wiring.now) leaf) }
{
    for end in wiring.ends(leaf) {
        if sees_memory(wiring, *end) {
            windows.push(*end)?;
        }
    }
    Ok(())
}

/// The ends that see memory, of a domain with these leaves.
pub fn windows_of(alloc: Global, wiring: &Wiring<'_>, leaves: &[u32]) -> Made<List<EndAt>>
    ensures { IfOk result (λ windows. windows ≡ domain_windows wiring.now.flat (all_ends wiring.now) leaves.now) }
{
    let mut windows = List::new(alloc);
    for leaf in leaves {
        push_windows(wiring, *leaf, &mut windows)?;
    }
    Ok(windows)
}

/// The pages of an end's window. Takes no memory.
pub fn window_pages(wiring: &Wiring<'_>, end: EndAt) -> u64
    ensures { result ≡ window_pages wiring.now.flat wiring.now.settled end }
{
    match wiring.connections().get(end.connection as usize) {
        Some(connection) => memory_pages(wiring, end.connection, connection),
        None => 0,
    }
}

// ---- regions

/// The pages of the stack of a leaf's threads. Takes no memory.
pub fn stack_pages(wiring: &Wiring<'_>, leaf: u32) -> u64
    ensures { result ≡ stack_pages wiring.now.settled leaf }
{
    match wiring.settled().leaves.as_slice().get(leaf as usize) {
        Some(setting) => setting.stack / 4096,
        None => 0,
    }
}

/// The regions of a domain with these threads and windows.
pub fn regions_of(
    alloc: Global,
    wiring: &Wiring<'_>,
    threads: &[ThreadOf],
    windows: &[EndAt],
) -> Made<List<Region>>
    ensures { IfOk result (λ regions. regions ≡ regions_in wiring.now.flat wiring.now.settled threads.now windows.now) }
{
    let mut regions = List::new(alloc);
    for thread in threads {
        regions.push(Region {
            content: Content::Stack,
            pages: stack_pages(wiring, thread.leaf),
        })?;
        regions.push(Region {
            content: Content::Buffer,
            pages: 1,
        })?;
    }
    for end in windows {
        regions.push(Region {
            content: Content::Window(*end),
            pages: window_pages(wiring, *end),
        })?;
    }
    Ok(regions)
}
