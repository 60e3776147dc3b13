use crate::{Cap, Rights};

/// The caller who waits for a reply, and whether the reply may bring a copy of a capability.
#[derive(Clone, Copy)]
pub struct Pending {
    pub caller: u32,
    pub grants: bool,
}

/// What a CNode has at a number.
#[derive(Clone, Copy)]
pub enum Content {
    Capability(Cap),
    SavedReply(Pending),
}

/// A thread: its root CNode, its space root, the reply that it owes, and whether it waits.
#[derive(Clone, Copy)]
pub struct ThreadState {
    pub root: Option<u32>,
    pub space: Option<u32>,
    pub pending: Option<Pending>,
    pub waits: bool,
}

/// A frame that a step added to a space, with its rights there.
#[derive(Clone, Copy)]
pub struct Mapped {
    pub space: u32,
    pub frame: u32,
    pub rights: Rights,
}
