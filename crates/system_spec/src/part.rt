use crate::Series;
use arch_policy::Owner;
use cap_model::Level;

/// What a part of a system is of, by number.
#[derive(Clone, Copy)]
pub enum What {
    /// A domain.
    CNodeOf(u32),
    /// A domain, and a thread among the domain's.
    ThreadOf(u32, u32),
    /// A connection.
    EndpointOf(u32),
    /// A connection.
    NotificationOf(u32),
    /// A domain, and the place of the lock's use among the uses of the domain's slots.
    LockOf(u32, u32),
    /// A connection.
    IrqOf(u32),
    /// A domain, and the page table's place among the domain's.
    TableOf(u32, u32),
    /// A frame.
    FrameOf(u32),
}

/// A part that has no number yet: whose it is, and what it is of.
#[derive(Clone, Copy)]
pub struct Owned {
    pub owner: Owner,
    pub what: What,
}

/// A part of a system: the series and the number by which it is named, whose it is, and what it is of.
#[derive(Clone, Copy)]
pub struct Part {
    pub series: Series,
    pub number: u32,
    pub owner: Owner,
    pub what: What,
}

/// A page table: its domain, its place among the domain's, and its level.
#[derive(Clone, Copy)]
pub struct PageTable {
    pub domain: u32,
    pub place: u32,
    pub level: Level,
}
