ghost use Rattle.std.specs.Prelude.{◌≡◌, ◌↔◌, IsTrue};

use crate::{Connector, ItemAt};
use adl_ast::Role;
use cam_base::{List, Path, Place};

/// An instance whose component has no composition.
#[derive(Drop)]
pub struct Leaf {
    pub path: Path,
    pub component: ItemAt,
    /// That of the component's word.
    pub place: Place,
    pub hardware: bool,
    /// The number of its domain; a device has none.
    pub domain: Option<u32>,
}

/// Leaves that share one address space: the path of the outermost group above them, or of a single leaf.
#[derive(Drop)]
pub struct Domain {
    pub path: Path,
    pub leaves: List<u32>,
}

/// An end of a connection, at the leaf's interface that it joins.
#[derive(Clone, Copy)]
pub struct FlatEnd {
    pub role: Role,
    pub leaf: u32,
    /// The place of the interface among the members of the leaf's component.
    pub member: u32,
    pub place: Place,
}

/// A connection with its ends.
#[derive(Drop)]
pub struct FlatConnection {
    pub path: Path,
    pub connector: Connector,
    /// That of the connection's name.
    pub place: Place,
    pub ends: List<FlatEnd>,
}

/// A source without its hierarchy: its leaves, domains and connections, each in order.
#[derive(Drop)]
pub struct Flat {
    pub leaves: List<Leaf>,
    pub domains: List<Domain>,
    pub connections: List<FlatConnection>,
}

/// Whether both ends join one interface of one leaf. Takes no memory.
pub fn same_end(a: &FlatEnd, b: &FlatEnd) -> bool
    ensures { IsTrue result ↔ ((a.now.leaf ≡ b.now.leaf) × (a.now.member ≡ b.now.member)) }
{
    a.leaf == b.leaf && a.member == b.member
}
