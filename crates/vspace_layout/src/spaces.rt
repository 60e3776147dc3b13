use crate::owner::Owner;
use cam_base::{Boxed, List};
use cap_model::Fill;
use cspace_layout::EndAt;
use page_tables::Addressed;

/// A page that is mapped in a space.
#[derive(Clone, Copy)]
pub struct Page {
    pub vaddr: u64,
    /// The number of its frame among all frames.
    pub frame: u32,
    pub write: bool,
    pub read: bool,
}

impl Addressed for Page {
    ghost address = { λ x. x.vaddr };

    fn address(&self) -> u64 {
        self.vaddr
    }
}

/// A thread of a leaf: its control thread, or the one of an end that serves calls.
#[derive(Clone, Copy)]
pub struct ThreadPlace {
    pub leaf: u32,
    /// The end that it serves at; the control thread has none.
    pub end: Option<EndAt>,
    /// The end of its stack.
    pub sp: u64,
    /// The address of its IPC buffer.
    pub buffer: u64,
}

/// The pages by which an end sees the memory of its connection.
#[derive(Clone, Copy)]
pub struct Window {
    pub end: EndAt,
    pub vaddr: u64,
    pub pages: u64,
}

/// The space of a domain: its pages by address, its threads, and its windows.
#[derive(Drop)]
pub struct Space {
    pub pages: List<Page>,
    pub threads: List<ThreadPlace>,
    pub windows: List<Window>,
}

/// A frame.
#[derive(Drop)]
pub struct FrameInfo {
    pub owner: Owner,
    /// Its physical address, where it is a device's.
    pub paddr: Option<u64>,
    /// What it is filled with.
    pub fill: Option<Boxed<Fill>>,
}

/// The spaces of all domains, and all frames.
#[derive(Drop)]
pub struct Spaces {
    pub spaces: List<Space>,
    pub frames: List<FrameInfo>,
}
