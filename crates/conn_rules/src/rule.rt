use adl_ast::Role;
use adl_meaning::Connector;
use cap_model::{AuthoritySet, Rights};

/// What the capabilities of a row lead to.
#[derive(Clone, Copy)]
pub enum ObjectKind {
    /// The end gets no capability.
    NoObject,
    /// The connection's endpoint.
    OfEndpoint,
    /// The connection's notification.
    OfNotification,
    /// The connection's frames.
    OfFrames,
    /// The frames of the device at the connection's other end.
    OfDevice,
    /// The interrupt of the device at the connection's other end.
    OfIrq,
}

/// A row of the connector table: one object of one end. The rights on frames are lessened by the end's access setting.
#[derive(Clone, Copy)]
pub struct RuleRow {
    pub connector: Connector,
    pub role: Role,
    pub object: ObjectKind,
    pub rights: Rights,
    pub authorities: AuthoritySet,
}
