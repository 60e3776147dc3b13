//! The memory of connections: how much there is, and where it stands.

ghost use Rattle.std.specs.Prelude.{◌≡◌};
ghost use Rattle.vspace_layout.specs.Memory.{registers, to_place};
ghost use Rattle.vspace_layout.specs.Memory.{memory_paddr, memory_pages, memory_place, memory_setting};

use adl_ast::Role;
use adl_meaning::{Connector, EndSetting, FlatConnection, FlatEnd};
use cspace_layout::Wiring;

/// The place of the first `to` end.
fn to_place(ends: &[FlatEnd]) -> Option<usize>
    ensures { result ≡ to_place ends.now }
{
    ends.iter().position(|end| matches!(end.role, Role::To))
}

/// The place of the end at which the memory is settled.
fn memory_place(connection: &FlatConnection) -> Option<usize>
    ensures { result ≡ memory_place connection.now.connector connection.now.ends }
{
    match connection.connector {
        Connector::SharedMemory => Some(0),
        Connector::Mmio => to_place(connection.ends.as_slice()),
        _ => None,
    }
}

fn memory_setting(
    wiring: &Wiring<'_>,
    number: u32,
    connection: &FlatConnection,
) -> Option<EndSetting>
    ensures { result ≡ memory_setting wiring.now.settled number connection.now }
{
    let place = memory_place(connection)?;
    let settings = wiring
        .settled()
        .connections
        .as_slice()
        .get(number as usize)?;
    Some(*settings.ends.as_slice().get(place)?)
}

/// The pages of a connection's memory, by the connection's number. Takes no memory.
pub fn memory_pages(wiring: &Wiring<'_>, number: u32, connection: &FlatConnection) -> u64
    ensures { result ≡ memory_pages wiring.now.settled number connection.now }
{
    memory_setting(wiring, number, connection).map_or(0, |setting| setting.bytes / 4096)
}

/// The physical address of a connection's memory, by the connection's number. Takes no memory.
pub fn memory_paddr(wiring: &Wiring<'_>, number: u32, connection: &FlatConnection) -> u64
    ensures { result ≡ memory_paddr wiring.now.settled number connection.now }
{
    memory_setting(wiring, number, connection).map_or(0, |setting| setting.paddr)
}

/// The end at the device's registers, of a connection to a device. Takes no memory.
pub fn registers(connection: &FlatConnection) -> Option<FlatEnd>
    ensures { result ≡ registers connection.now }
{
    match connection.connector {
        Connector::Mmio => {
            let ends = connection.ends.as_slice();
            let place = to_place(ends)?;
            Some(*ends.get(place)?)
        }
        _ => None,
    }
}
