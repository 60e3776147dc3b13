ghost use Rattle.cap_model.specs.Adds.{Adds, Is, IsOfSet};
ghost use Rattle.authorities.specs.Authorities.{number_of};
ghost use Rattle.std.specs.Prelude.{IfOk, ◌≡◌};

use crate::{Authority, AuthoritySet, Edge};
use cam_base::Made;

/// The edges and one more.
pub fn with_edge(edges: Vec<Edge>, edge: Edge) -> Made<Vec<Edge>>
    ensures { IfOk result (λ new. Adds (Is edge) edges.items new.items) }
{
    let mut edges = edges;
    edges.push(edge)?;
    Ok(edges)
}

/// The edges and those from one label to another with each authority of the set.
pub fn with_set(edges: Vec<Edge>, from: u32, set: AuthoritySet, to: u32) -> Made<Vec<Edge>>
    ensures { IfOk result (λ new. Adds (IsOfSet from set.bits to) edges.items new.items) }
{
    let mut edges = edges;
    for number in 0..12 {
        edges = with_numbered(edges, from, set, number, to)?;
    }
    Ok(edges)
}

/// The edges, and the one with the authority of that number where it is in the set.
fn with_numbered(
    edges: Vec<Edge>,
    from: u32,
    set: AuthoritySet,
    number: u8,
    to: u32,
) -> Made<Vec<Edge>>
    ensures { IfOk result (λ new. Adds (λ e. IsOfSet from set.bits to e × (number_of e.authority ≡ number))
        edges.items new.items) }
{
    match Authority::of_number(number) {
        Some(authority) if set.has(authority) => with_edge(
            edges,
            Edge {
                from,
                authority,
                to,
            },
        ),
        _ => Ok(edges),
    }
}
