use cam_base::List;

/// What a slot is for.
#[derive(Clone, Copy)]
pub enum SlotUse {
    /// The endpoint or notification of an end: the numbers of the connection and of its end.
    OfEnd(u32, u32),
    /// The interrupt of an end: the numbers of the connection and of its end.
    Handler(u32, u32),
    /// A lock: the number of the leaf, and the lock's place among the members of the leaf's component.
    OwnLock(u32, u32),
}

/// What the slots of a domain's CNode are for, from slot 1 on.
#[derive(Drop)]
pub struct SlotPlan {
    pub uses: List<SlotUse>,
}

/// The slots of each domain, by number.
#[derive(Drop)]
pub struct Slots {
    pub domains: List<SlotPlan>,
}
