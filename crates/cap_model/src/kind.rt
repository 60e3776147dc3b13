ghost use Rattle.cap_model.specs.Kinds.{kind_number, same_kind, kind_rights, has_badge};
ghost use Rattle.std.specs.Prelude.{◌≡◌};

use crate::{Level, Rights};

/// The kinds of object.
#[derive(Clone, Copy)]
pub enum Kind {
    Endpoint,
    Notification,
    CNode,
    Thread,
    Frame,
    Pages(Level),
    Irq,
}

impl Kind {
    /// A number for each kind.
    fn number(self) -> u8
        ensures { result ≡ kind_number self }
    {
        match self {
            Kind::Endpoint => 0,
            Kind::Notification => 1,
            Kind::CNode => 2,
            Kind::Thread => 3,
            Kind::Frame => 4,
            Kind::Irq => 5,
            Kind::Pages(Level::Global) => 6,
            Kind::Pages(Level::Upper) => 7,
            Kind::Pages(Level::Directory) => 8,
            Kind::Pages(Level::Table) => 9,
        }
    }

    /// Whether both are one kind.
    pub fn is(self, other: Kind) -> bool
        ensures { result ≡ same_kind self other }
    {
        self.number() == other.number()
    }

    /// The rights that a capability to an object of this kind may have.
    pub fn rights(self) -> Rights
        ensures { result ≡ kind_rights self }
    {
        match self {
            Kind::Endpoint => Rights {
                read: true,
                write: true,
                grant: true,
                reply: true,
            },
            Kind::Notification | Kind::Frame => Rights {
                read: true,
                write: true,
                grant: false,
                reply: false,
            },
            _ => Rights::none(),
        }
    }

    /// Whether a capability to an object of this kind may have a badge.
    pub fn has_badge(self) -> bool
        ensures { result ≡ has_badge self }
    {
        matches!(self, Kind::Endpoint | Kind::Notification)
    }
}
