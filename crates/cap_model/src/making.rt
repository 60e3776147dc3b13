//! The rows and the classes of edges that are in order.

ghost use Rattle.cap_model.specs.Making.{pair_of, HasClass, IsMade, IsPart, IsRun};
ghost use Rattle.cap_model.specs.Tables.{IsSorted};
ghost use Rattle.std.specs.Prelude.{◌≡◌, ◌++◌, map, IfOk};

use crate::rows::{Class, Row};
use crate::{Authority, Edge};
use cam_base::Made;
use std::alloc::Global;
use std::collections::BTreeMap;
use std::collections::btree_map::Entry;

/// The rows and classes of edges, and the place of each class by its list.
#[derive(Drop)]
pub struct Tabling {
    pub rows: Vec<Row>,
    pub classes: Vec<Class>,
    pub places: BTreeMap<Vec<(Authority, u32)>, usize>,
}

/// The rows and classes of edges.
pub fn made_of(alloc: Global, edges: &[Edge]) -> Made<Tabling>
    requires { IsSorted edges.now }
    ensures { IfOk result (λ made. IsMade edges.now made) }
{
    let mut made = Tabling {
        rows: Vec::new(alloc),
        classes: Vec::new(alloc),
        places: BTreeMap::new(alloc),
    };
    let mut at = 0;
    while at < edges.len() {
        let label = edges[at].from;
        let rest = &edges[at..];
        let count = rest.partition_point(|edge| edge.from <= label);
        made = with_row(alloc, made, label, at, &rest[..count])?;
        at += count;
    }
    Ok(made)
}

/// One row more, of the edges out of a label that is greater than those before it.
fn with_row(alloc: Global, made: Tabling, label: u32, first: usize, run: &[Edge]) -> Made<Tabling>
    requires run { IsRun label run.now }
    ensures { IfOk result (λ new. IsPart made label first run.now new) }
{
    let before = run.partition_point(|edge| edge.authority.number() < 9);
    let rest = &run[before..];
    let count = rest.partition_point(|edge| edge.authority.number() <= 9);
    let pairs = pairs_of(alloc, &run[..before], &rest[count..])?;
    let replies = replies_of(alloc, &rest[..count])?;
    let (mut made, class) = with_class(alloc, made, label, pairs, before)?;
    made.rows.push(Row {
        label,
        first,
        replies,
        class,
    })?;
    Ok(made)
}

/// The classes with one of this list among them, and its place.
fn with_class(
    alloc: Global,
    made: Tabling,
    label: u32,
    pairs: Vec<(Authority, u32)>,
    before: usize,
) -> Made<(Tabling, usize)>
    ensures { IfOk result (λ new. HasClass made label pairs.items before new.0 new.1) }
{
    let mut made = made;
    let place = match made.places.entry(pairs)? {
        Entry::Occupied(known) => *known.get(),
        Entry::Vacant(new) => {
            let place = made.classes.len();
            made.classes.push(Class {
                label,
                pairs: new.key().to_vec(alloc)?,
                before,
            })?;
            new.insert(place);
            place
        }
    };
    Ok((made, place))
}

fn pairs_of(alloc: Global, before: &[Edge], behind: &[Edge]) -> Made<Vec<(Authority, u32)>>
    ensures { IfOk result (λ pairs. pairs.items ≡ map pair_of before.now ++ map pair_of behind.now) }
{
    let pairs = Vec::with_capacity(alloc, before.len() + behind.len())?;
    with_pairs(with_pairs(pairs, before)?, behind)
}

fn with_pairs(pairs: Vec<(Authority, u32)>, run: &[Edge]) -> Made<Vec<(Authority, u32)>>
    ensures { IfOk result (λ new. new.items ≡ pairs.items ++ map pair_of run.now) }
{
    let mut pairs = pairs;
    for edge in run {
        pairs.push((edge.authority, edge.to))?;
    }
    Ok(pairs)
}

fn replies_of(alloc: Global, run: &[Edge]) -> Made<Vec<u32>>
    ensures { IfOk result (λ replies. replies.items ≡ map (λ e. e.to) run.now) }
{
    let mut replies = Vec::with_capacity(alloc, run.len())?;
    for edge in run {
        replies.push(edge.to)?;
    }
    Ok(replies)
}
