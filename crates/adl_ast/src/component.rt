use crate::{Composition, Configuration, Id, Import, Value, Words};
use cam_base::{Boxed, List, Place};

/// A component: what its instances offer and need.
#[derive(Drop)]
pub struct Component {
    pub id: Id,
    pub members: List<Member>,
}

/// A member of a component. The place of `control` and `hardware` is that of the keyword.
#[derive(Drop)]
pub enum Member {
    Control(Place),
    Hardware(Place),
    Include(Import),
    Interface(Interface),
    Attribute(Attribute),
    Lock(Lock),
    Composition(Composition),
    Configuration(Configuration),
}

/// A kind of interface.
#[derive(Clone, Copy, Debug, PartialEq, Eq)]
pub enum InterfaceKind {
    Uses,
    Provides,
    Emits,
    Consumes,
    Dataport,
}

/// An interface of a component.
#[derive(Drop)]
pub struct Interface {
    /// It may stay unconnected.
    pub maybe: bool,
    pub kind: InterfaceKind,
    /// The procedure, the type of the event, or the type of the data.
    pub word: Id,
    /// The bytes of a data port of type `Buf` whose size stands in parentheses.
    pub size: Option<u64>,
    pub id: Id,
}

/// An attribute of a component, with its default.
#[derive(Drop)]
pub struct Attribute {
    /// The words of its type, one to three.
    pub words: Words,
    pub id: Id,
    /// `[]` stands behind the name.
    pub array: bool,
    pub value: Option<Boxed<Value>>,
}

/// A kind of lock.
#[derive(Clone, Copy, Debug, PartialEq, Eq)]
pub enum LockKind {
    Mutex,
    Semaphore,
    BinarySemaphore,
}

/// A lock of a component.
#[derive(Drop)]
pub struct Lock {
    pub kind: LockKind,
    pub id: Id,
}
