//! The values of the settings of leaves and ends, and which settings have a meaning at an end.

ghost use Rattle.std.specs.Prelude.{◌≡◌};
ghost use Rattle.adl_settings.specs.Joints.{has_access, has_badge, is_device_event, is_device_memory, is_shared};
ghost use Rattle.adl_settings.specs.Judged.{has_value, is_judged};

use adl_ast::{Interface, InterfaceKind, Role, Value};
use adl_meaning::{Connector, FlatConnection, FlatEnd, Leaf};
use std::marker::Model;

/// A value, and the name of what gives it: the last word of a setting, or an attribute's name. Contracts see it as the two.
#[derive(Drop)]
pub struct Given<'a> {
    pub value: &'a Value,
    pub name: &'a [u8],
}

impl<'a> Model for Given<'a> {
    ghost use Rattle.adl_meaning.specs.Values.{Given as GivenOf};

    ghost Value = { GivenOf };

    ghost use Rattle.adl_ast.specs.contracts.value.ValueKind as values;
    ghost use Rattle.std.specs.Coded.{codes};

    ghost coded = { Prim.hlevel (codes, values.the_row.coded) };

    ghost view = { λ g. record { value = g.value.now; name = g.name.now } };
}

/// An end of a connection, at the interface of the leaf that it joins. Contracts see it as that.
#[derive(Drop)]
pub struct Joint<'a> {
    pub connection: &'a FlatConnection,
    /// That of a `from` end among the `from` ends of the connection, from 1.
    pub position: u64,
    pub end: FlatEnd,
    pub leaf: &'a Leaf,
    pub interface: &'a Interface,
}

impl<'a> Model for Joint<'a> {
    ghost use Rattle.adl_settings.specs.Joint.{Joint as JointOf};

    ghost Value = { JointOf };

    ghost view = { λ j. record {
      connection = j.connection.now;
      position = j.position;
      end = j.end;
      leaf = j.leaf.now;
      interface = j.interface.now;
    } };
}

/// The values of the settings of an end, where they have a meaning.
#[derive(Drop)]
pub struct Found<'a> {
    pub joint: Joint<'a>,
    pub access: Option<Given<'a>>,
    pub badge: Option<Given<'a>>,
    /// Of the shared memory, or else of the device's registers.
    pub size: Option<Given<'a>>,
    pub paddr: Option<Given<'a>>,
    pub irq: Option<Given<'a>>,
}

/// The values of the settings of a leaf, where they have a meaning. Contracts see it as that.
#[derive(Drop)]
pub struct LeafFound<'a> {
    pub leaf: &'a Leaf,
    pub priority: Option<Given<'a>>,
    pub stack: Option<Given<'a>>,
}

impl<'a> Model for LeafFound<'a> {
    ghost use Rattle.adl_settings.specs.Settled.{LeafFound as LeafFoundOf};

    ghost Value = { LeafFoundOf };

    ghost use Rattle.adl_ast.specs.contracts.value.ValueKind as values;
    ghost use Rattle.std.specs.Coded.{codes};

    ghost coded = { Prim.hlevel (codes, values.the_row.coded) };

    ghost view = { λ f. record { leaf = f.leaf.now; priority = f.priority; stack = f.stack } };
}

impl<'a> Given<'a> {
    /// The same value once more.
    pub fn again(&self) -> Given<'a>
        ensures { result ≡ self.now }
    {
        Given {
            value: self.value,
            name: self.name,
        }
    }
}

impl<'a> Found<'a> {
    fn has_value(&self) -> bool
        ensures { result ≡ has_value self.now }
    {
        self.access.is_some()
            || self.badge.is_some()
            || self.size.is_some()
            || self.paddr.is_some()
            || self.irq.is_some()
    }

    /// Whether a fault can stand at the end.
    pub fn is_judged(&self) -> bool
        ensures { result ≡ is_judged self.now }
    {
        self.joint.has_badge() || self.joint.leaf.hardware || self.has_value()
    }
}

/// Whether connections of this kind share memory.
pub fn is_shared(connector: Connector) -> bool
    ensures { result ≡ is_shared connector }
{
    connector == Connector::SharedMemory
}

impl<'a> Joint<'a> {
    /// Whether it is a dataport of software.
    pub fn has_access(&self) -> bool
        ensures { result ≡ has_access self.now }
    {
        self.interface.kind == InterfaceKind::Dataport && !self.leaf.hardware
    }

    /// Whether it is a dataport of a device.
    pub fn is_device_memory(&self) -> bool
        ensures { result ≡ is_device_memory self.now }
    {
        self.interface.kind == InterfaceKind::Dataport && self.leaf.hardware
    }

    /// Whether it is an interrupt of a device.
    pub fn is_device_event(&self) -> bool
        ensures { result ≡ is_device_event self.now }
    {
        self.interface.kind == InterfaceKind::Emits && self.leaf.hardware
    }

    /// Whether it is a `from` end of a call or an event.
    pub fn has_badge(&self) -> bool
        ensures { result ≡ has_badge self.now }
    {
        match (self.connection.connector, self.end.role) {
            (Connector::Rpc | Connector::Notification, Role::From) => true,
            _ => false,
        }
    }
}
