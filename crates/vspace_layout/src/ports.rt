//! The first connection to each dataport of a device.

ghost use Rattle.std.specs.Option.{option_or};
ghost use Rattle.std.specs.Prelude.{◌≡◌, ◌≤◌, None, Some, length, IfOk, OnOk, if◌then◌else◌};
ghost use Rattle.vspace_layout.specs.FrameNumbers.{first_at, first_noted, first_numbers, leads_by};

use crate::memory::registers;
use adl_meaning::FlatConnection;
use cam_base::Made;
use indexmap::IndexMap;
use std::alloc::Global;

/// A dataport of a device: its leaf and its member there.
#[derive(Clone, Copy, PartialEq, Eq, Hash)]
struct PortKey {
    leaf: u32,
    member: u32,
}

/// The first connection to each dataport.
#[derive(Drop)]
struct Ports {
    firsts: IndexMap<PortKey, u32>,
}

impl Ports {
    /// No dataports. Takes no memory.
    fn new(alloc: Global) -> Ports
        ensures { (k : PortKey) → first_at result k ≡ None }
    {
        Ports {
            firsts: IndexMap::new(alloc),
        }
    }

    /// Notes a connection, and tells which was the first to its registers; none where it leads to none.
    fn note(&mut self, connection: &FlatConnection, number: u32) -> Made<Option<u32>>
        ensures first { IfOk result (λ first. first ≡ first_noted self.new connection.now) }
        ensures ports { OnOk result ((k : PortKey) → first_at self.new k
            ≡ option_or (first_at self.old k) (if leads_by k connection.now then Some number else None)) }
    {
        let Some(end) = registers(connection) else {
            return Ok(None);
        };
        let key = PortKey {
            leaf: end.leaf,
            member: end.member,
        };
        match self.firsts.get(&key).copied() {
            Some(first) => Ok(Some(first)),
            None => {
                self.firsts.insert(key, number)?;
                Ok(Some(number))
            }
        }
    }
}

/// For each connection the number of the first one to its registers; none where it leads to none. Time linear in the
/// connections.
pub fn first_numbers(alloc: Global, connections: &[FlatConnection]) -> Made<Vec<Option<u32>>>
    requires { length connections.now ≤ 4096 }
    ensures { IfOk result (λ firsts. firsts.items ≡ first_numbers connections.now) }
{
    let mut ports = Ports::new(alloc);
    let mut firsts = Vec::with_capacity(alloc, connections.len())?;
    for (number, connection) in connections.iter().enumerate() {
        firsts.push(ports.note(connection, number as u32)?)?;
    }
    Ok(firsts)
}
