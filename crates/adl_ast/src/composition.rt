use crate::{Configuration, Dotted, Id};
use cam_base::{List, Place};

/// The instances of an assembly or a component, and how they are joined. Its place is that of the keyword.
#[derive(Drop)]
pub struct Composition {
    pub place: Place,
    pub lines: List<Line>,
}

/// A line of a composition.
#[derive(Drop)]
pub enum Line {
    Instance(Instance),
    Group(Group),
    Connection(Connection),
    Export(Export),
}

/// An instance of a component.
#[derive(Drop)]
pub struct Instance {
    pub component: Id,
    pub id: Id,
}

/// Instances that share one address space.
#[derive(Drop)]
pub struct Group {
    pub id: Id,
    pub instances: List<Instance>,
}

/// The side of a connection on which an end stands.
#[derive(Clone, Copy, Debug, PartialEq, Eq)]
pub enum Role {
    From,
    To,
}

/// An end of a connection. Its place runs from the first word of its dotted name to the end of the last.
#[derive(Drop)]
pub struct End {
    pub role: Role,
    /// The words of the dotted name, two or three.
    pub words: Dotted,
    pub place: Place,
}

/// A connection.
#[derive(Drop)]
pub struct Connection {
    pub connector: Id,
    pub id: Id,
    /// At least one.
    pub ends: List<End>,
}

/// An interface that a composition offers under a name of its component. Its place runs from the first word of its
/// dotted name to the end of the last.
#[derive(Drop)]
pub struct Export {
    /// The words of the dotted name, two or three.
    pub words: Dotted,
    pub target: Id,
    pub place: Place,
}

/// An assembly. Its place is that of the keyword.
#[derive(Drop)]
pub struct Assembly {
    pub place: Place,
    pub id: Option<Id>,
    pub composition: Composition,
    pub configuration: Option<Configuration>,
}
