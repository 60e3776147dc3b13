//! The interrupt lines.

ghost use Rattle.cam_base.specs.Gather.{gather};
ghost use Rattle.std.specs.Prelude.{◌≡◌, ◌++◌, IfOk, OnOk};
ghost use Rattle.system_spec.specs.Buildable.{AreFew};
ghost use Rattle.system_spec.specs.Objects.{line, lines};
ghost use Rattle.system_spec.specs.Parts.{first_of, place};
ghost use Rattle.system_spec.specs.Tables.{irq_number, told};
ghost use Rattle.system_spec.specs.declared.part.What.TheVariants.{IrqOf};

use crate::tables::{Tables, device_place};
use adl_meaning::{Connector, FlatConnection, Settled};
use cam_base::{List, Made};
use std::alloc::Global;

/// The settled number of the interrupt of a connection.
fn irq_number(settled: &Settled, number: u32, connection: &FlatConnection) -> u64
    ensures { result ≡ irq_number settled.now number connection.now }
{
    let Some(place) = device_place(connection.connector, connection.ends.as_slice()) else {
        return 0;
    };
    let Some(settings) = settled.connections.as_slice().get(number as usize) else {
        return 0;
    };
    match settings.ends.as_slice().get(place) {
        Some(setting) => setting.irq,
        None => 0,
    }
}

/// Puts the line of a connection's interrupt, whose object stands at this place, behind the others.
fn push_line(
    tables: &Tables<'_>,
    number: u32,
    connection: &FlatConnection,
    at: u32,
    lines: &mut List<(u64, u32)>,
) -> Made<()>
    requires { at ≡ place (told tables.now) (IrqOf number) }
    ensures { OnOk result (lines.new ≡ lines.old ++ line (told tables.now) number connection.now) }
{
    match connection.connector {
        Connector::Interrupt => lines.push((irq_number(tables.settled, number, connection), at)),
        _ => Ok(()),
    }
}

/// The interrupt lines in the order of connections.
fn gathered(alloc: Global, tables: &Tables<'_>, first: u32) -> Made<List<(u64, u32)>>
    requires few { AreFew (told tables.now) }
    requires first { first ≡ first_of (told tables.now) 5 }
    ensures { IfOk result (λ list. list ≡ gather (line (told tables.now)) tables.now.flat.now.connections) }
{
    let mut lines = List::new(alloc);
    for (number, connection) in tables.flat.connections.as_slice().iter().enumerate() {
        let at = first + lines.len() as u32;
        push_line(tables, number as u32, connection, at, &mut lines)?;
    }
    Ok(lines)
}

/// The interrupt lines by number, where the first interrupt stands at this place: `specs/Objects.antt`.
///
/// # Errors
///
/// Want of memory.
pub(crate) fn irq_lines(alloc: Global, tables: &Tables<'_>, first: u32) -> Made<List<(u64, u32)>>
    requires few { AreFew (told tables.now) }
    requires first { first ≡ first_of (told tables.now) 5 }
    ensures { IfOk result (λ list. list ≡ lines (told tables.now)) }
{
    let list = gathered(alloc, tables, first)?;
    let mut lines = list.into_vec();
    lines.sort_by_key(|line| line.0)?;
    Ok(List::from_vec(lines))
}
