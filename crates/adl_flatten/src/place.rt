//! Placing: a name comes in front of each path, and leaves are told by greater numbers.

ghost use Rattle.adl_meaning.specs.Prelude.{group_or, name_of};
ghost use Rattle.adl_flatten.specs.Templates.{moved_connection};
ghost use Rattle.std.specs.Prelude.{All, IfOk, OnOk, map, option_map, ◌++◌, ◌+◌, ◌<◌, ◌^◌, ◌∷◌, ◌≡◌};

use crate::placed::{PlacedConnection, PlacedEnd};
use adl_program::Part;
use cam_base::{List, Made, Name};
use std::alloc::Global;

/// The path behind a name.
pub fn behind(alloc: Global, name: &Name, path: &[Name]) -> Made<List<Name>>
    ensures { IfOk result (λ p. p ≡ name.now ∷ path.now) }
{
    let mut names = Vec::with_capacity(alloc, path.len().saturating_add(1))?;
    names.push_reserved(name.copy(alloc)?);
    for inner in path {
        names.push_reserved(inner.copy(alloc)?);
    }
    Ok(List::from_vec(names))
}

/// The path of the outermost group above what stands in an instance, from that inside its component.
pub fn home_of(
    alloc: Global,
    part: &Part<'_>,
    home: &Option<List<Name>>,
) -> Made<Option<List<Name>>>
    ensures { IfOk result (λ o. o ≡ group_or part.now.group (option_map (λ q. name_of part.now ∷ q) home.now)) }
{
    match (part.group, home) {
        (Some(group), _) => Ok(Some(behind(alloc, group, &[])?)),
        (None, None) => Ok(None),
        (None, Some(home)) => Ok(Some(behind(alloc, &part.instance.id.name, home.as_slice())?)),
    }
}

/// Adds the connections inside an instance, with so many leaves before the instance.
pub fn place_connections<'a>(
    alloc: Global,
    part: &Part<'_>,
    before: u32,
    inner: &[PlacedConnection<'a>],
    connections: &mut Vec<PlacedConnection<'a>>,
) -> Made<()>
    requires { All (λ c. All (λ e. before + e.leaf < 2 ^ 32) c.ends) inner.now }
    ensures { OnOk result (connections.new.items ≡ connections.old.items
        ++ map (moved_connection (name_of part.now) before) inner.now) }
{
    for connection in inner {
        let mut ends = Vec::with_capacity(alloc, connection.ends.len())?;
        for end in connection.ends.as_slice() {
            let leaf = before + end.leaf;
            ends.push(PlacedEnd { leaf, ..*end })?;
        }
        connections.push(PlacedConnection {
            path: behind(alloc, &part.instance.id.name, connection.path.as_slice())?,
            ends,
            ..*connection
        })?;
    }
    Ok(())
}
