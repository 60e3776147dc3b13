use cap_model::{Cap, Mapped, Pending};

/// What a legal step does to a state.
#[derive(Clone, Copy)]
pub enum Change {
    Add {
        node: u32,
        cap: Cap,
    },
    Call {
        t: u32,
        u: u32,
        grants: bool,
    },
    Reply {
        t: u32,
        caller: u32,
    },
    ReplyAdd {
        t: u32,
        caller: u32,
        node: u32,
        cap: Cap,
    },
    Root {
        thread: u32,
        node: u32,
    },
    Space {
        thread: u32,
        root: u32,
    },
    Map {
        added: Mapped,
    },
    Bind {
        irq: u32,
        notification: u32,
    },
    Drop {
        node: u32,
        number: u64,
    },
    Save {
        t: u32,
        node: u32,
        pending: Pending,
    },
    Release {
        node: u32,
        number: u64,
        caller: u32,
    },
    ReleaseAdd {
        node: u32,
        number: u64,
        caller: u32,
        to: u32,
        cap: Cap,
    },
}
