use cam_base::List;

/// The settings of a leaf; 0 for a device.
#[derive(Clone, Copy)]
pub struct LeafSetting {
    pub priority: u8,
    /// The bytes of a stack, whole pages.
    pub stack: u64,
}

/// The settings of an end. A field that has no meaning for its end is 0 or false.
#[derive(Clone, Copy)]
pub struct EndSetting {
    pub read: bool,
    pub write: bool,
    pub badge: u64,
    /// The bytes of the shared memory or of the device's registers, whole pages.
    pub bytes: u64,
    pub paddr: u64,
    pub irq: u64,
}

/// The settings of a connection's ends, in their order.
#[derive(Drop)]
pub struct EndSettings {
    pub ends: List<EndSetting>,
}

/// The settings of all leaves and connections, in the order of the flat system.
#[derive(Drop)]
pub struct Settled {
    pub leaves: List<LeafSetting>,
    pub connections: List<EndSettings>,
}
