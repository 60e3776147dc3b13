ghost use Rattle.cap_model.specs.Kinds.{kind_of_object};
ghost use Rattle.std.specs.Prelude.{◌≡◌};

use crate::{Cap, Kind, Level};
use cam_base::{Boxed, List, Text};

/// What a frame is filled with: so many bytes of a file, from `at` on, put at an offset of the frame.
#[derive(Drop)]
pub struct Fill {
    pub offset: u64,
    pub length: u64,
    pub file: Text,
    pub at: u64,
}

/// A thread: the address of its IPC buffer, its entry, its stack's end, its priority, the name of its image, its root
/// CNode, its space root, and the capability to the frame of its IPC buffer.
#[derive(Drop)]
pub struct Tcb {
    pub addr: u64,
    pub ip: u64,
    pub sp: u64,
    pub prio: u64,
    pub elf: Option<Text>,
    pub cspace: Option<u32>,
    pub vspace: Option<u32>,
    pub buffer: Option<Cap>,
}

/// An object of a spec. Slots are sorted by number.
#[derive(Drop)]
pub enum Object {
    Endpoint,
    Notification,
    CNode {
        bits: u8,
        slots: List<(u64, Cap)>,
    },
    Thread(Boxed<Tcb>),
    Frame {
        paddr: Option<u64>,
        fill: Option<Boxed<Fill>>,
    },
    Pages {
        level: Level,
        slots: List<(u64, Cap)>,
    },
    Irq {
        notification: Option<u32>,
    },
}

impl Object {
    /// The kind of the object.
    pub fn kind(&self) -> Kind
        ensures { result ≡ kind_of_object self.now }
    {
        match self {
            Object::Endpoint => Kind::Endpoint,
            Object::Notification => Kind::Notification,
            Object::CNode { .. } => Kind::CNode,
            Object::Thread(_) => Kind::Thread,
            Object::Frame { .. } => Kind::Frame,
            Object::Pages { level, .. } => Kind::Pages(*level),
            Object::Irq { .. } => Kind::Irq,
        }
    }
}
