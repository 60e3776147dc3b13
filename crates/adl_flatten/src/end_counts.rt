//! All ends with what they join, and where several of them join one interface.

ghost use Rattle.adl_meaning.specs.Prelude.{count_by, is_at, list_any};
ghost use Rattle.adl_flatten.specs.TemplateJoins.{all_joined, joins, joins_apart, same_key, seen_at, tally};
ghost use Rattle.adl_meaning.specs.UsedTwice.{clashes};
ghost use Rattle.std.specs.Prelude.{IfOk, None, OnOk, Some, false, if◌then◌else◌, is_some, nat_le, unwrap_or, ◌+◌, ◌≡◌, ◌≤◌};

use crate::{PlacedConnection, PlacedEnd};
use cam_base::Made;
use indexmap::IndexMap;
use std::alloc::Global;
use std::marker::Model;

/// An end of the connection of a number, with the interface that it joins. Contracts see it as the definitions do.
#[derive(Drop)]
pub struct JoinedEnd<'t, 'a> {
    pub connection: usize,
    pub placed: &'t PlacedEnd<'a>,
}

impl<'t, 'a> Model for JoinedEnd<'t, 'a> {
    ghost use Rattle.adl_flatten.specs.TemplateJoins.{joined_end_of};
    ghost use Rattle.adl_meaning.specs.JoinedEnds.{JoinedEnd as JoinedEndOf};

    ghost Value = { JoinedEndOf };

    ghost view = { λ e. joined_end_of e.connection e.placed.now };
}

/// An interface of a leaf, and the connection whose ends are looked at there, or `None` for those of all connections.
#[derive(Clone, Copy, PartialEq, Eq, Hash)]
struct EndKey {
    connection: Option<usize>,
    leaf: usize,
    member: usize,
}

/// Adds an end at a key, and answers whether one was there. The table says of each key whether there are several.
fn add_at(seen: &mut IndexMap<EndKey, bool>, key: EndKey) -> Made<bool>
    ensures before { IfOk result (λ before. before ≡ is_some (seen_at seen.old.entries key)) }
    ensures seen { OnOk result ((k : EndKey) → seen_at seen.new.entries k
        ≡ (if same_key key k then Some (is_some (seen_at seen.old.entries key)) else seen_at seen.old.entries k)) }
{
    match seen.insert(key, false)? {
        None => Ok(false),
        Some(_) => {
            seen.insert(key, true)?;
            Ok(true)
        }
    }
}

fn are_several(seen: &IndexMap<EndKey, bool>, key: EndKey) -> bool
    ensures { result ≡ unwrap_or (seen_at seen.now.entries key) false }
{
    seen.get(&key).copied().unwrap_or(false)
}

impl<'t, 'a> JoinedEnd<'t, 'a> {
    /// Whether it alone may join its interface.
    fn is_once(&self) -> bool
        ensures { result ≡ self.now.once }
    {
        let placed = self.placed;
        placed.once
    }

    fn key(&self, connection: Option<usize>) -> EndKey
        ensures { result ≡ record { connection = connection; leaf = self.now.end.leaf; member = self.now.end.member } }
    {
        let placed = self.placed;
        EndKey {
            connection,
            leaf: placed.leaf as usize,
            member: placed.member as usize,
        }
    }

    /// Its key among the ends of its connection.
    fn key_apart(&self) -> EndKey
        ensures { result ≡ record {
          connection = Some self.now.connection;
          leaf = self.now.end.leaf;
          member = self.now.end.member;
        } }
    {
        self.key(Some(self.connection))
    }
}

fn joined_ends<'t, 'a>(
    alloc: Global,
    connections: &'t [PlacedConnection<'a>],
) -> Made<Vec<JoinedEnd<'t, 'a>>>
    ensures { IfOk result (λ v. v.items ≡ all_joined connections.entry.now) }
{
    let mut ends = Vec::new(alloc);
    for (connection, it) in connections.iter().enumerate() {
        for placed in it.ends.as_slice() {
            ends.push(JoinedEnd { connection, placed })?;
        }
    }
    Ok(ends)
}

/// Adds the ends of all connections together, and answers whether several join one interface.
fn add_all(ends: &[JoinedEnd<'_, '_>], seen: &mut IndexMap<EndKey, bool>) -> Made<bool>
    requires { (k : EndKey) → seen_at seen.old.entries k ≡ None }
    ensures seen { OnOk result ((k : EndKey) → seen_at seen.new.entries k ≡ tally (count_by (joins k) ends.now)) }
    ensures once { IfOk result (λ several. several ≡ false → (k : EndKey) → count_by (joins k) ends.now ≤ 1) }
{
    let mut several = false;
    for end in ends {
        let before = add_at(seen, end.key(None))?;
        several = several || before;
    }
    Ok(several)
}

/// Adds the ends of each connection apart.
fn add_apart(ends: &[JoinedEnd<'_, '_>], seen: &mut IndexMap<EndKey, bool>) -> Made<()>
    requires { (k : EndKey) → seen_at seen.old.entries k ≡ tally (count_by (joins k) ends.now) }
    ensures { OnOk result ((k : EndKey) → seen_at seen.new.entries k
        ≡ tally (count_by (joins k) ends.now + count_by (joins_apart k) ends.now)) }
{
    for end in ends {
        add_at(seen, end.key_apart())?;
    }
    Ok(())
}

/// The ends of all connections, and where several join one interface. Contracts see them as the ends.
#[derive(Drop)]
pub struct CountedEnds<'t, 'a> {
    ends: Vec<JoinedEnd<'t, 'a>>,
    /// Those of each connection apart are in it only where several ends join one interface.
    seen: IndexMap<EndKey, bool>,
    several: bool,
}

impl<'t, 'a> Model for CountedEnds<'t, 'a> {
    ghost use Rattle.adl_meaning.specs.Prelude.{JoinedEnd};
    ghost use Rattle.std.specs.Prelude.{List};

    ghost Value = { List JoinedEnd };

    ghost use Rattle.adl_flatten.specs.TemplateJoins.{AreSeen};

    ghost view = { λ t. t.ends.items };

    ghost invariant = { λ t. AreSeen t.seen.entries t.several t.ends.items };
}

impl<'t, 'a> CountedEnds<'t, 'a> {
    /// Counts the ends of connections.
    pub fn new(alloc: Global, connections: &'t [PlacedConnection<'a>]) -> Made<CountedEnds<'t, 'a>>
        ensures { IfOk result (λ t. t ≡ all_joined connections.entry.now) }
    {
        let ends = joined_ends(alloc, connections)?;
        let mut seen = IndexMap::with_capacity(alloc, ends.len())?;
        let several = add_all(ends.as_slice(), &mut seen)?;
        if several {
            add_apart(ends.as_slice(), &mut seen)?;
            return Ok(CountedEnds {
                ends,
                seen,
                several: true,
            });
        }
        Ok(CountedEnds {
            ends,
            seen,
            several: false,
        })
    }

    /// The ends, in order.
    pub fn as_slice(&self) -> &[JoinedEnd<'t, 'a>]
        ensures { result.now ≡ self.now }
    {
        self.ends.as_slice()
    }

    /// Whether another end keeps this one, which is among the ends, from joining its interface.
    pub fn is_clash(&self, end: &JoinedEnd<'_, '_>) -> bool
        ensures { result ≡ nat_le 2 (count_by (clashes end.now) self.now) }
    {
        if !self.several {
            return false;
        }
        if end.is_once() {
            return are_several(&self.seen, end.key(None));
        }
        are_several(&self.seen, end.key_apart())
    }

    /// Whether an end joins the interface.
    pub fn is_joined(&self, leaf: usize, member: usize) -> bool
        ensures { result ≡ list_any (is_at leaf member) self.now }
    {
        let key = EndKey {
            connection: None,
            leaf,
            member,
        };
        self.seen.contains_key(&key)
    }
}
