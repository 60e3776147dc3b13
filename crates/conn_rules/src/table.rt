ghost use Rattle.conn_rules.specs.Row.{listed, rows_of, table};
ghost use Rattle.std.specs.Prelude.{◌≡◌};

use crate::{ObjectKind, RuleRow};
use adl_ast::Role;
use adl_meaning::Connector;
use cap_model::{Authority, AuthoritySet, Rights};
use std::marker::Model;

/// Rows of the connector table. Contracts see it as the list of its rows.
#[derive(Drop)]
pub struct RuleTable<const N: usize> {
    rows: [RuleRow; N],
}

impl<const N: usize> Model for RuleTable<N> {
    ghost use Rattle.std.specs.Prelude.{List};
    ghost use Rattle.conn_rules.specs.declared.rule.RuleRow.{RuleRow};

    ghost Value = { List RuleRow };

    ghost view = { λ t. t.rows };
}

impl<const N: usize> RuleTable<N> {
    /// The rows, in the table's order.
    pub fn as_slice(&self) -> &[RuleRow]
        ensures { result.now ≡ self.now }
    {
        self.rows.as_slice()
    }
}

macro_rules! rows {
    ($($connector:ident $role:ident $object:ident [$($right:ident),*] [$($authority:ident),*];)*) => {
        [$(RuleRow {
            connector: Connector::$connector,
            role: Role::$role,
            object: ObjectKind::$object,
            rights: Rights { $($right: true,)* ..Rights::none() },
            authorities: AuthoritySet { bits: 0 $(| 1 << Authority::$authority as u16)* },
        }),*]
    };
}

/// The connector table. Takes no memory.
pub fn rules() -> RuleTable<13>
    ensures { result ≡ table }
{
    RuleTable {
        rows: rows![
            Rpc From OfEndpoint [write, reply] [SyncSend, Call, Reset];
            Rpc To OfEndpoint [read] [Receive, Reset];
            Notification From OfNotification [write] [AsyncSend, Reset];
            Notification To OfNotification [read] [Receive, Reset];
            SharedMemory From OfFrames [read, write] [Read, Write];
            SharedMemory To OfFrames [read, write] [Read, Write];
            Mmio From OfDevice [read, write] [Read, Write];
            Mmio To NoObject [] [];
            Interrupt From OfNotification [write] [AsyncSend];
            Interrupt To OfNotification [read] [Receive, Reset];
            Interrupt To OfIrq [] [Handle];
            Direct From NoObject [] [];
            Direct To NoObject [] [];
        ],
    }
}

/// The rows of one end: one, or two at the end of an interrupt that receives it. Takes no memory.
pub fn row(connector: Connector, role: Role) -> (RuleRow, Option<RuleRow>)
    ensures { listed result.0 result.1 ≡ rows_of connector role }
{
    let RuleTable {
        rows: [
            rpc_from,
            rpc_to,
            notification_from,
            notification_to,
            shared_from,
            shared_to,
            mmio_from,
            mmio_to,
            interrupt_from,
            interrupt_to,
            handler,
            direct_from,
            direct_to,
        ],
    } = rules();
    match (connector, role) {
        (Connector::Rpc, Role::From) => (rpc_from, None),
        (Connector::Rpc, Role::To) => (rpc_to, None),
        (Connector::Notification, Role::From) => (notification_from, None),
        (Connector::Notification, Role::To) => (notification_to, None),
        (Connector::SharedMemory, Role::From) => (shared_from, None),
        (Connector::SharedMemory, Role::To) => (shared_to, None),
        (Connector::Mmio, Role::From) => (mmio_from, None),
        (Connector::Mmio, Role::To) => (mmio_to, None),
        (Connector::Interrupt, Role::From) => (interrupt_from, None),
        (Connector::Interrupt, Role::To) => (interrupt_to, Some(handler)),
        (Connector::Direct, Role::From) => (direct_from, None),
        (Connector::Direct, Role::To) => (direct_to, None),
    }
}
