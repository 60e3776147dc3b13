use cspace_layout::EndAt;

/// A line of the map. `tcb` and `object` are places in the spec.
#[derive(Clone, Copy)]
pub enum MapLine {
    DomainLine(u32),
    ThreadLine {
        tcb: u32,
        leaf: u32,
        /// The end that the thread serves at; the control thread has none.
        end: Option<EndAt>,
    },
    SlotLine {
        connection: u32,
        end: u32,
        slot: u64,
        object: u32,
    },
    OwnLine {
        leaf: u32,
        member: u32,
        slot: u64,
        object: u32,
    },
    WindowLine {
        connection: u32,
        end: u32,
        vaddr: u64,
        bytes: u64,
    },
}
