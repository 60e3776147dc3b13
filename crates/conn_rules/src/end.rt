use adl_ast::{InterfaceKind, Role};
use adl_meaning::Connector;

/// What an end of a connection joins, and how many such ends a connection has.
#[derive(Clone, Copy)]
pub struct EndRule {
    pub interface: InterfaceKind,
    /// The interface is a device's.
    pub hardware: bool,
    pub least: u64,
    /// None where there is no greatest count.
    pub most: Option<u64>,
}

impl EndRule {
    ghost use Rattle.conn_rules.specs.Ends.{allows, end_rule, one_hardware, one_software, some_software};
    ghost use Rattle.std.specs.Prelude.{◌≡◌};

    /// The rule of the ends of this role at this connector. Takes no memory.
    pub fn of(connector: Connector, role: Role) -> EndRule
        ensures { result ≡ end_rule connector role }
    {
        match (connector, role) {
            (Connector::Rpc, Role::From) => EndRule::some_software(InterfaceKind::Uses),
            (Connector::Rpc, Role::To) => EndRule::one_software(InterfaceKind::Provides),
            (Connector::Notification, Role::From) => EndRule::some_software(InterfaceKind::Emits),
            (Connector::Notification, Role::To) => EndRule::one_software(InterfaceKind::Consumes),
            (Connector::SharedMemory, _) => EndRule::some_software(InterfaceKind::Dataport),
            (Connector::Mmio, Role::From) => EndRule::one_software(InterfaceKind::Dataport),
            (Connector::Mmio, Role::To) => EndRule::one_hardware(InterfaceKind::Dataport),
            (Connector::Interrupt, Role::From) => EndRule::one_hardware(InterfaceKind::Emits),
            (Connector::Interrupt, Role::To) => EndRule::one_software(InterfaceKind::Consumes),
            (Connector::Direct, Role::From) => EndRule::some_software(InterfaceKind::Uses),
            (Connector::Direct, Role::To) => EndRule::one_software(InterfaceKind::Provides),
        }
    }

    /// Whether a connection may have so many such ends. Takes no memory.
    pub fn allows(self, count: u64) -> bool
        ensures { result ≡ allows self count }
    {
        self.least <= count && self.most.is_none_or(|most| count <= most)
    }

    fn one_software(interface: InterfaceKind) -> EndRule
        ensures { result ≡ one_software interface }
    {
        EndRule {
            interface,
            hardware: false,
            least: 1,
            most: Some(1),
        }
    }

    fn one_hardware(interface: InterfaceKind) -> EndRule
        ensures { result ≡ one_hardware interface }
    {
        EndRule {
            interface,
            hardware: true,
            least: 1,
            most: Some(1),
        }
    }

    fn some_software(interface: InterfaceKind) -> EndRule
        ensures { result ≡ some_software interface }
    {
        EndRule {
            interface,
            hardware: false,
            least: 1,
            most: None,
        }
    }
}
