//! The flat system: the limits, the templates, the faults of joins.

ghost use Rattle.adl_meaning.specs.Prelude.{AreFew, AreNamesSound, HaveFewMembers, Refuses, first_flat_fault, flat_of, hierarchy_of};
ghost use Rattle.adl_flatten.specs.TemplateJoins.{flat_connection_of};
ghost use Rattle.std.specs.Prelude.{IfOk, map, ◌≡◌};

use crate::faults::check_joins;
use crate::leaves::{flat_domains, flat_leaves};
use crate::limits::check_limits;
use crate::{PlacedConnection, assembly_template};
use adl_ast::Source;
use adl_items::Names;
use adl_meaning::{Flat, FlatConnection, FlatEnd};
use adl_program::{Program, program_of};
use cam_base::{Fault, List, Made, Path, Refused};
use std::alloc::Global;
use std::slice;

fn flat_connection(alloc: Global, connection: &PlacedConnection<'_>) -> Made<FlatConnection>
    ensures { IfOk result (λ k. k ≡ flat_connection_of connection.now) }
{
    let id = &connection.connection.id;
    let path = Path::of(alloc, connection.path.as_slice(), slice::from_ref(&id.name))?;
    let mut ends = List::from_vec(Vec::with_capacity(alloc, connection.ends.len())?);
    for end in connection.ends.as_slice() {
        ends.push(FlatEnd {
            role: end.end.role,
            leaf: end.leaf,
            member: end.member,
            place: end.end.place,
        })?;
    }
    Ok(FlatConnection {
        path,
        connector: connection.connector,
        place: id.place(),
        ends,
    })
}

fn flat_connections(
    alloc: Global,
    connections: &[PlacedConnection<'_>],
) -> Made<List<FlatConnection>>
    ensures { IfOk result (λ ks. ks ≡ map flat_connection_of connections.now) }
{
    let mut flat = Vec::with_capacity(alloc, connections.len())?;
    for connection in connections {
        flat.push(flat_connection(alloc, connection)?)?;
    }
    Ok(List::from_vec(flat))
}

/// The leaves, domains and connections of a source that is resolved.
///
/// # Errors
///
/// The first limit of the hierarchy that is passed, or else the first fault of joins: `specs/JoinFaults.antt` of
/// `adl_meaning`. Want of memory.
#[tactic(auto, using(crate::proofs::PassedLimits::leaves_few))]
pub fn flatten_program(
    alloc: Global,
    source: &Source,
    program: &Program<'_>,
) -> Result<Flat, Refused<Fault>>
    requires few { AreFew source.now }
    requires members { HaveFewMembers source.now }
    requires sound { AreNamesSound source.now }
    requires program { program.now ≡ hierarchy_of source.now }
    ensures fault { Refuses result (first_flat_fault source.now) }
    ensures flat { IfOk result (λ f. f ≡ flat_of source.now) }
{
    check_limits(alloc, source, program)?;
    let template = assembly_template(alloc, program)?;
    let (leaves, paths) = flat_leaves(alloc, program, template.leaves.as_slice())?;
    check_joins(alloc, program, &template, leaves.as_slice())?;
    Ok(Flat {
        domains: flat_domains(alloc, paths.as_slice(), leaves.as_slice())?,
        leaves,
        connections: flat_connections(alloc, template.connections.as_slice())?,
    })
}

/// The leaves, domains and connections of a source. Its names, which aren't read, say that they were resolved before.
///
/// # Errors
///
/// The first limit of the hierarchy that is passed, or else the first fault of joins: `specs/JoinFaults.antt` of
/// `adl_meaning`. Want of memory.
pub fn flatten(alloc: Global, source: &Source, _names: &Names) -> Result<Flat, Refused<Fault>>
    requires few { AreFew source.now }
    requires members { HaveFewMembers source.now }
    requires sound { AreNamesSound source.now }
    ensures fault { Refuses result (first_flat_fault source.now) }
    ensures flat { IfOk result (λ f. f ≡ flat_of source.now) }
{
    let program = program_of(alloc, source)?;
    flatten_program(alloc, source, &program)
}
