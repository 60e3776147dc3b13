//! The first end of a kind that is looked for, and the first lock of a domain.

ghost use Rattle.adl_meaning.specs.declared.flat.Leaf.{Leaf as Place};
ghost use Rattle.arch_policy.specs.Tables.{told};
ghost use Rattle.arch_policy.specs.Triples.{signal_edges};
ghost use Rattle.cap_model.specs.Tables.{has};
ghost use Rattle.explain.specs.Sought.{CanSearch, IsFirstAt, IsFirstEnd, IsFirstLock, IsFirstMember, IsFirstOfLeaf, fits, found, has_side, is_async, is_reply, is_side, opens};
ghost use Rattle.cspace_layout.specs.Members.{members_at};
ghost use Rattle.std.specs.Prelude.{◌≡◌, ◌<◌, ◌^◌, length, slice_get, IfOk, Some, ℕ};

use adl_ast::{Member, Role};
use adl_meaning::{Connector, FlatConnection, FlatEnd, Leaf};
use arch_policy::{EndHere, Tables, connection_label, domain_label, leaf_label};
use cam_base::Made;
use cap_model::{Authority, Edge, EdgeTable};
use cspace_layout::{is_lock, members_at};
use std::alloc::Global;

/// An end that was found, by the numbers of its connection and of itself, with the label of its leaf.
#[derive(Clone, Copy)]
pub struct Found {
    pub place: u32,
    pub number: u32,
    pub label: u32,
}

/// An end that is looked for.
#[derive(Clone, Copy)]
pub enum Sought {
    /// One that is given the authority directly.
    Given,
    /// The `from` end of an RPC, whose label may be replied to.
    Caller,
    /// The `to` end of this RPC.
    Server(u32),
    /// The `to` end of an interrupt, where its label signals on the notification.
    Handler,
    /// The `from` end of the notification by which this label signals.
    Signaller(u32),
    /// The `to` end of an interrupt, which has the label that may be signalled.
    LockHandler,
}

/// The edge that is to be explained, with what it is explained from. `signals` has who signals on which notification.
#[derive(Clone, Copy)]
pub struct Search<'a> {
    pub tables: Tables<'a>,
    pub signals: &'a EdgeTable,
    pub edge: Edge,
}

fn is_reply(authority: Authority) -> bool
    ensures { result ≡ is_reply authority }
{
    matches!(authority, Authority::Reply)
}

fn is_async(authority: Authority) -> bool
    ensures { result ≡ is_async authority }
{
    matches!(authority, Authority::AsyncSend)
}

fn is_side(tables: &Tables<'_>, role: Role, label: u32, end: FlatEnd) -> bool
    ensures { result ≡ is_side (told tables.now) role label end }
{
    end.role == role && leaf_label(tables, end.leaf) == label
}

fn has_side(tables: &Tables<'_>, role: Role, label: u32, connection: &FlatConnection) -> bool
    ensures { result ≡ has_side (told tables.now) role label connection.now }
{
    let ends = connection.ends.as_slice();
    ends.iter().any(|end| is_side(tables, role, label, *end))
}

impl<'a> Search<'a> {
    fn opens(&self, sought: Sought, place: u32, connection: &FlatConnection) -> bool
        ensures { result ≡ opens (told self.now.tables) self.now.edge sought place connection.now }
    {
        let Edge {
            from,
            authority,
            to,
        } = self.edge;
        match sought {
            Sought::Given => true,
            Sought::Caller => {
                is_reply(authority)
                    && connection.connector == Connector::Rpc
                    && has_side(&self.tables, Role::To, from, connection)
            }
            Sought::Server(rpc) => place == rpc,
            Sought::Handler | Sought::LockHandler => {
                is_async(authority)
                    && connection.connector == Connector::Interrupt
                    && has_side(&self.tables, Role::From, from, connection)
            }
            Sought::Signaller(_) => {
                connection.connector == Connector::Notification
                    && connection_label(&self.tables, place) == to
            }
        }
    }

    fn signals(&self, label: u32) -> bool
        requires { CanSearch (told self.now.tables) self.now.signals.now }
        ensures { result ≡ has (signal_edges (told self.now.tables))
            (record { from = label; authority = Authority.AsyncSend; to = self.now.edge.to }) }
    {
        self.signals.contains(&Edge {
            from: label,
            authority: Authority::AsyncSend,
            to: self.edge.to,
        })
    }

    fn fits(&self, alloc: Global, sought: Sought, here: EndHere<'_>) -> Made<bool>
        requires ready { CanSearch (told self.now.tables) self.now.signals.now }
        requires tables { told here.tables ≡ told self.now.tables }
        ensures { IfOk result (λ fit. fit ≡ fits (told self.now.tables) self.now.edge sought here.entry.place
            here.entry.connection.now here.entry.number here.entry.end) }
    {
        let end = here.end;
        Ok(match sought {
            Sought::Given => here.gives(alloc, self.edge)?,
            Sought::Caller => is_side(&self.tables, Role::From, self.edge.to, end),
            Sought::Server(_) => is_side(&self.tables, Role::To, self.edge.from, end),
            Sought::Handler => {
                end.role == Role::To && self.signals(leaf_label(&self.tables, end.leaf))
            }
            Sought::Signaller(label) => is_side(&self.tables, Role::From, label, end),
            Sought::LockHandler => is_side(&self.tables, Role::To, self.edge.to, end),
        })
    }

    /// The first end that fits among those of a connection at which one may stand.
    fn first_at(
        &self,
        alloc: Global,
        sought: Sought,
        place: u32,
        connection: &'a FlatConnection,
    ) -> Made<Option<Found>>
        requires few { length connection.now.ends < 2 ^ 32 }
        requires ready { CanSearch (told self.now.tables) self.now.signals.now }
        ensures { IfOk result (IsFirstAt (told self.now.tables) self.now.edge sought place connection.now) }
    {
        if !self.opens(sought, place, connection) {
            return Ok(None);
        }
        for (number, end) in connection.ends.as_slice().iter().enumerate() {
            let here = EndHere {
                tables: self.tables,
                place,
                connection,
                number: number as u32,
                end: *end,
            };
            if self.fits(alloc, sought, here)? {
                return Ok(Some(Found {
                    place,
                    number: number as u32,
                    label: leaf_label(&self.tables, end.leaf),
                }));
            }
        }
        Ok(None)
    }

    /// The first of all ends that is one of those that are looked for.
    pub fn first_end(&self, alloc: Global, sought: Sought) -> Made<Option<Found>>
        requires { CanSearch (told self.now.tables) self.now.signals.now }
        ensures { IfOk result (IsFirstEnd (told self.now.tables) self.now.edge sought) }
    {
        let connections = self.tables.flat.connections.as_slice();
        for (place, connection) in connections.iter().enumerate() {
            if let Some(found) = self.first_at(alloc, sought, place as u32, connection)? {
                return Ok(Some(found));
            }
        }
        Ok(None)
    }
}

fn first_member(members: &[Member]) -> Option<u32>
    requires { length members.now < 2 ^ 32 }
    ensures { IsFirstMember members.now result }
{
    for (place, member) in members.iter().enumerate() {
        if is_lock(member) {
            return Some(place as u32);
        }
    }
    None
}

fn first_of_leaf(tables: &Tables<'_>, label: u32, leaf: &Leaf) -> Option<u32>
    requires { length (members_at tables.now.source.now leaf.now.component) < 2 ^ 32 }
    ensures { IsFirstOfLeaf (told tables.now) label leaf.now result }
{
    match leaf.domain {
        Some(domain) if domain_label(tables, domain) == label => {
            first_member(members_at(tables.source, leaf.component))
        }
        _ => None,
    }
}

/// The first lock of the domain with this label, by leaf and member.
pub fn first_lock(tables: &Tables<'_>, label: u32) -> Option<(u32, u32)>
    requires few { length tables.now.flat.now.leaves < 2 ^ 32 }
    requires members { (l : ℕ) (x : Place) → slice_get tables.now.flat.now.leaves l ≡ Some x
        → length (members_at tables.now.source.now x.component) < 2 ^ 32 }
    ensures { IsFirstLock (told tables.now) label result }
{
    for (number, leaf) in tables.flat.leaves.as_slice().iter().enumerate() {
        if let Some(member) = first_of_leaf(tables, label, leaf) {
            return Some((number as u32, member));
        }
    }
    None
}
