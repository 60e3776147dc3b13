//! Where the objects of connections stand.

ghost use Rattle.cam_base.specs.Gather.{gather};
ghost use Rattle.std.specs.Prelude.{◌≡◌, ◌+◌, ◌<◌, ◌^◌, length, IfOk};
ghost use Rattle.system_spec.specs.Buildable.{AreFew};
ghost use Rattle.system_spec.specs.Parts.{first_of};
ghost use Rattle.system_spec.specs.Landmarks.{ArePlaces, mark, one, places_from, stands};
ghost use Rattle.system_spec.specs.Tables.{told};

use crate::tables::Tables;
use adl_meaning::{Connector, FlatConnection};
use cam_base::{List, Made};
use std::alloc::Global;

/// The places of the endpoint, the notification and the interrupt of each connection, where it has one.
#[derive(Drop)]
pub struct Places {
    pub endpoints: List<u32>,
    pub notifications: List<u32>,
    pub irqs: List<u32>,
}

/// What connections have an object for.
#[derive(Clone, Copy)]
pub enum Standing {
    Endpoint,
    Notification,
    Interrupt,
}

/// Whether connections of this connector have such an object.
fn stands(standing: Standing, connector: Connector) -> bool
    ensures { result ≡ stands standing connector }
{
    match standing {
        Standing::Endpoint => matches!(connector, Connector::Rpc),
        Standing::Notification => {
            matches!(connector, Connector::Notification | Connector::Interrupt)
        }
        Standing::Interrupt => matches!(connector, Connector::Interrupt),
    }
}

/// How many such objects connections of this connector have.
fn number_of(standing: Standing, connector: Connector) -> u32
    ensures { result ≡ one (stands standing connector) }
{
    if stands(standing, connector) { 1 } else { 0 }
}

/// The place of each connection's object, where the first stands at this place.
fn places_from(
    alloc: Global,
    standing: Standing,
    first: u32,
    connections: &[FlatConnection],
) -> Made<List<u32>>
    requires { first + length (gather (mark standing) connections.now) < 2 ^ 32 }
    ensures { IfOk result (λ places. places ≡ places_from standing first connections.now) }
{
    let mut places = List::new(alloc);
    let mut next = first;
    for connection in connections {
        places.push(next)?;
        next += number_of(standing, connection.connector);
    }
    Ok(places)
}

/// Where the objects of connections stand, if the first endpoint, notification and interrupt stand at these places.
pub fn places_of(
    alloc: Global,
    tables: &Tables<'_>,
    endpoint: u32,
    notification: u32,
    irq: u32,
) -> Made<Places>
    requires few { AreFew (told tables.now) }
    requires endpoint { endpoint ≡ first_of (told tables.now) 2 }
    requires notification { notification ≡ first_of (told tables.now) 3 }
    requires irq { irq ≡ first_of (told tables.now) 5 }
    ensures { IfOk result (λ places. ArePlaces (told tables.now) places) }
{
    let connections = tables.flat.connections.as_slice();
    Ok(Places {
        endpoints: places_from(alloc, Standing::Endpoint, endpoint, connections)?,
        notifications: places_from(alloc, Standing::Notification, notification, connections)?,
        irqs: places_from(alloc, Standing::Interrupt, irq, connections)?,
    })
}
