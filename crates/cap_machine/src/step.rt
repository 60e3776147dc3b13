use cap_model::Rights;

/// Why a step is illegal. A number is the one in a CNode that the answer is about.
#[derive(Clone, Copy)]
pub enum Why {
    /// The thread waits for a reply.
    Waiting,
    /// The thread has no root CNode.
    NoRoot,
    /// The thread owes no reply.
    NoPending,
    /// The thread may not give a capability with its reply.
    NoGrant,
    /// Nothing stands at the number.
    NoCap(u64),
    /// What stands at the number is of another kind.
    WrongKind(u64),
    /// The capability at the number lacks the right.
    NoRight(u64),
    /// The thread is its own peer.
    SamePeer,
    /// The peer waits for a reply.
    PeerWaiting,
    /// The peer, or the caller, has no root CNode.
    PeerNoRoot,
    /// Nothing stands at the number in the peer's root.
    PeerNoCap(u64),
    /// What stands there is of another kind.
    PeerWrongKind(u64),
    /// The capability there lacks the right.
    PeerNoRight(u64),
    /// The peer's capability is to another endpoint.
    OtherEndpoint,
}

/// One action of the thread `t`. `t` and `u` are places of objects in the spec, `i`, `j` and `k` numbers in CNodes, and
/// `r` the rights that a copy is lessened to. The table of steps stands in `specs/StepTable.antt`.
#[derive(Clone, Copy)]
pub enum Step {
    Take {
        t: u32,
        i: u64,
        j: u64,
        r: Rights,
    },
    Put {
        t: u32,
        i: u64,
        j: u64,
        r: Rights,
    },
    Grant {
        t: u32,
        i: u64,
        u: u32,
        j: u64,
        k: u64,
        r: Rights,
    },
    Call {
        t: u32,
        i: u64,
        u: u32,
        j: u64,
    },
    Reply {
        t: u32,
        copy: Option<(u64, Rights)>,
    },
    SetCspace {
        t: u32,
        i: u64,
        j: u64,
    },
    SetVspace {
        t: u32,
        i: u64,
        j: u64,
    },
    Map {
        t: u32,
        i: u64,
        j: u64,
        r: Rights,
    },
    Bind {
        t: u32,
        i: u64,
        j: u64,
    },
    Drop {
        t: u32,
        i: u64,
    },
    Save {
        t: u32,
    },
    ReplyTo {
        t: u32,
        i: u64,
        copy: Option<(u64, Rights)>,
    },
}
