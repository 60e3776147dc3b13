//! The edges that ends are given, and those of each two ends of one connection.

ghost use Rattle.arch_policy.specs.Gives.{leaves, opposite};
ghost use Rattle.adl_ast.specs.declared.composition.Role.TheVariants.{From, To};
ghost use Rattle.adl_meaning.specs.declared.connector.Connector.TheVariants.{Notification};
ghost use Rattle.adl_meaning.specs.declared.flat.FlatConnection.{FlatConnection as Line};
ghost use Rattle.arch_policy.specs.Tables.{leaf_label, told};
ghost use Rattle.arch_policy.specs.Triples.{crossed, crossed_at, crossed_edges, direct_edges, end_edges, given_with, labels_in_role, lock_edges, row_edges, signal_edges};
ghost use Rattle.authorities.specs.AuthoritySets.{set_has};
ghost use Rattle.cap_model.specs.Edges.{edge};
ghost use Rattle.cap_model.specs.Tables.{has};
ghost use Rattle.cap_model.specs.declared.edge.Edge.{Edge as Triple};
ghost use Rattle.conn_rules.specs.Row.{same_connector, same_role};
ghost use Rattle.cspace_layout.specs.Members.{is_lock, members_at};
ghost use Rattle.cam_base.specs.Gather.{gather};
ghost use Rattle.std.specs.List.{list_any};
ghost use Rattle.std.specs.Prelude.{◌≡◌, ◌<◌, ◌^◌, ◌++◌, ◌∷◌, ◌&&◌, [], if◌then◌else◌, length, slice_get, IfOk, OnOk, Some, ℕ};

use crate::Tables;
use crate::tables::{connection_label, domain_label, leaf_label};
use adl_ast::{Member, Role};
use adl_meaning::{Connector, EndSetting, FlatConnection, FlatEnd};
use cam_base::{List, Made};
use cap_model::{Authority, Edge, EdgeTable};
use conn_rules::{ObjectKind, RuleRow, row};
use cspace_layout::{is_lock, members_at, setting_of};
use std::alloc::Global;

/// All authorities, by number.
const AUTHORITIES: [Authority; 12] = [
    Authority::Receive,
    Authority::SyncSend,
    Authority::AsyncSend,
    Authority::Reset,
    Authority::Grant,
    Authority::Read,
    Authority::Write,
    Authority::Control,
    Authority::Call,
    Authority::Reply,
    Authority::GrantBack,
    Authority::Handle,
];

/// An end, with all that its edges are made from.
#[derive(Clone, Copy)]
pub struct EndHere<'a> {
    pub tables: Tables<'a>,
    pub place: u32,
    pub connection: &'a FlatConnection,
    pub number: u32,
    pub end: FlatEnd,
}

fn leaves(setting: Option<EndSetting>, authority: Authority) -> bool
    ensures { result ≡ leaves setting authority }
{
    match authority {
        Authority::Read => setting.is_some_and(|setting| setting.read),
        Authority::Write => setting.is_some_and(|setting| setting.write),
        _ => true,
    }
}

fn opposite(role: Role) -> Role
    ensures { result ≡ opposite role }
{
    match role {
        Role::From => Role::To,
        Role::To => Role::From,
    }
}

// ---- direct

/// The labels at the ends in this role.
fn labels_in_role(
    alloc: Global,
    tables: &Tables<'_>,
    role: Role,
    ends: &[FlatEnd],
) -> Made<List<u32>>
    ensures { IfOk result (λ labels. labels ≡ labels_in_role (told tables.now) role ends.now) }
{
    let mut labels = List::new(alloc);
    for end in ends {
        if end.role == role {
            labels.push(leaf_label(tables, end.leaf))?;
        }
    }
    Ok(labels)
}

/// Whether a row gives an authority to an end with this setting.
fn gives(row: RuleRow, setting: Option<EndSetting>, authority: Authority) -> bool
    ensures { result ≡ (set_has row.authorities.bits authority && leaves setting authority) }
{
    row.authorities.has(authority) && leaves(setting, authority)
}

/// Puts the edges from one label to another with the authorities that a row gives an end with this setting behind the others.
fn push_given(
    row: RuleRow,
    setting: Option<EndSetting>,
    from: u32,
    to: u32,
    edges: &mut List<Edge>,
) -> Made<()>
    ensures { OnOk result (edges.new ≡ edges.old ++ given_with setting row from to) }
{
    let authorities = AUTHORITIES;
    for authority in authorities.as_slice() {
        if gives(row, setting, *authority) {
            edges.push(Edge {
                from,
                authority: *authority,
                to,
            })?;
        }
    }
    Ok(())
}

/// The same, to each of the labels.
fn push_given_to_each(
    row: RuleRow,
    setting: Option<EndSetting>,
    from: u32,
    targets: &[u32],
    edges: &mut List<Edge>,
) -> Made<()>
    ensures { OnOk result (edges.new ≡ edges.old ++ gather (λ i m. given_with setting row from m) targets.now) }
{
    for to in targets {
        push_given(row, setting, from, *to, edges)?;
    }
    Ok(())
}

impl EndHere<'_> {
    fn push_row(self, alloc: Global, row: RuleRow, edges: &mut List<Edge>) -> Made<()>
        ensures { OnOk result (edges.new ≡ edges.old ++ row_edges (told self.entry.tables) self.entry.place
            self.entry.connection.now self.entry.number self.entry.end row) }
    {
        let setting = setting_of(self.tables.settled, self.place, self.number);
        let from = leaf_label(&self.tables, self.end.leaf);
        match row.object {
            ObjectKind::OfEndpoint | ObjectKind::OfNotification | ObjectKind::OfFrames => {
                let own = connection_label(&self.tables, self.place);
                push_given_to_each(row, setting, from, &[own], edges)
            }
            ObjectKind::OfDevice | ObjectKind::OfIrq => {
                let ends = self.connection.ends.as_slice();
                let others = labels_in_role(alloc, &self.tables, opposite(self.end.role), ends)?;
                push_given_to_each(row, setting, from, others.as_slice(), edges)
            }
            ObjectKind::NoObject => Ok(()),
        }
    }

    fn push_all(self, alloc: Global, edges: &mut List<Edge>) -> Made<()>
        ensures { OnOk result (edges.new ≡ edges.old ++ end_edges (told self.entry.tables) self.entry.place
            self.entry.connection.now self.entry.number self.entry.end) }
    {
        let (first, second) = row(self.connection.connector, self.end.role);
        self.push_row(alloc, first, edges)?;
        match second {
            Some(second) => self.push_row(alloc, second, edges),
            None => Ok(()),
        }
    }

    /// Whether the connector table gives the end the authority of the edge, over the label that the edge leads to.
    ///
    /// # Errors
    ///
    /// Want of memory.
    pub fn gives(self, alloc: Global, edge: Edge) -> Made<bool>
        ensures { IfOk result (λ given. given ≡ has (end_edges (told self.entry.tables) self.entry.place
            self.entry.connection.now self.entry.number self.entry.end) edge) }
    {
        if leaf_label(&self.tables, self.end.leaf) != edge.from {
            return Ok(false);
        }
        let mut edges = List::new(alloc);
        self.push_all(alloc, &mut edges)?;
        let table = EdgeTable::from_list(alloc, edges.as_slice())?;
        Ok(table.contains(&edge))
    }
}

/// The edges that the connector table gives ends.
pub fn direct_edges(alloc: Global, tables: &Tables<'_>) -> Made<List<Edge>>
    requires few { length tables.now.flat.now.connections < 2 ^ 32 }
    requires short { (k : ℕ) (c : Line) → slice_get tables.now.flat.now.connections k ≡ Some c → length c.ends < 2 ^ 32 }
    ensures { IfOk result (λ edges. edges ≡ direct_edges (told tables.now)) }
{
    let mut edges = List::new(alloc);
    for (place, connection) in tables.flat.connections.as_slice().iter().enumerate() {
        for (number, end) in connection.ends.as_slice().iter().enumerate() {
            let here = EndHere {
                tables: *tables,
                place: place as u32,
                connection,
                number: number as u32,
                end: *end,
            };
            here.push_all(alloc, &mut edges)?;
        }
    }
    Ok(edges)
}

// ---- of two ends of one connection

/// Puts an edge with the authority from a label to that of each `from` end behind the others.
fn push_to_each(
    tables: &Tables<'_>,
    from: u32,
    authority: Authority,
    ends: &[FlatEnd],
    edges: &mut List<Edge>,
) -> Made<()>
    ensures { OnOk result (edges.new ≡ edges.old ++ gather (λ j m. edge from authority m ∷ [])
        (labels_in_role (told tables.now) From ends.now)) }
{
    for end in ends {
        if end.role == Role::From {
            let to = leaf_label(tables, end.leaf);
            edges.push(Edge {
                from,
                authority,
                to,
            })?;
        }
    }
    Ok(())
}

/// Puts an edge with the authority from the label of an end, where it is a `to` end, to that of each `from` end behind the
/// others.
fn push_from(
    tables: &Tables<'_>,
    authority: Authority,
    ends: &[FlatEnd],
    end: FlatEnd,
    edges: &mut List<Edge>,
) -> Made<()>
    ensures { OnOk result (edges.new ≡ edges.old ++ (if same_role end.role To then gather (λ j m. edge (leaf_label
        (told tables.now) end.leaf) authority m ∷ []) (labels_in_role (told tables.now) From ends.now) else [])) }
{
    if end.role == Role::To {
        push_to_each(tables, leaf_label(tables, end.leaf), authority, ends, edges)?;
    }
    Ok(())
}

/// Puts an edge with the authority from the label of each `to` end to that of each `from` end behind the others.
fn push_crossed(
    tables: &Tables<'_>,
    authority: Authority,
    ends: &[FlatEnd],
    edges: &mut List<Edge>,
) -> Made<()>
    ensures { OnOk result (edges.new ≡ edges.old ++ crossed (labels_in_role (told tables.now) To ends.now) authority
        (labels_in_role (told tables.now) From ends.now)) }
{
    for end in ends {
        push_from(tables, authority, ends, *end, edges)?;
    }
    Ok(())
}

fn push_crossed_at(
    tables: &Tables<'_>,
    connector: Connector,
    authority: Authority,
    connection: &FlatConnection,
    edges: &mut List<Edge>,
) -> Made<()>
    ensures { OnOk result (edges.new ≡ edges.old ++ crossed_at (told tables.now) connector authority connection.now) }
{
    if connection.connector != connector {
        return Ok(());
    }
    push_crossed(tables, authority, connection.ends.as_slice(), edges)
}

/// Puts the edges with the authority from the `to` ends to the `from` ends of each connection of this connector behind
/// the others.
pub fn push_crossed_edges(
    tables: &Tables<'_>,
    connector: Connector,
    authority: Authority,
    edges: &mut List<Edge>,
) -> Made<()>
    ensures { OnOk result (edges.new ≡ edges.old ++ crossed_edges (told tables.now) connector authority) }
{
    for connection in tables.flat.connections.as_slice() {
        push_crossed_at(tables, connector, authority, connection, edges)?;
    }
    Ok(())
}

// ---- of interrupts

fn signals(connection: &FlatConnection, end: FlatEnd) -> bool
    ensures { result ≡ (same_connector connection.now.connector Notification && same_role end.role From) }
{
    connection.connector == Connector::Notification && end.role == Role::From
}

/// Puts who signals on which notification behind the others.
fn push_signals(tables: &Tables<'_>, edges: &mut List<Edge>) -> Made<()>
    requires { length tables.now.flat.now.connections < 2 ^ 32 }
    ensures { OnOk result (edges.new ≡ edges.old ++ signal_edges (told tables.now)) }
{
    for (place, connection) in tables.flat.connections.as_slice().iter().enumerate() {
        for end in connection.ends.as_slice() {
            if signals(connection, *end) {
                edges.push(Edge {
                    from: leaf_label(tables, end.leaf),
                    authority: Authority::AsyncSend,
                    to: connection_label(tables, place as u32),
                })?;
            }
        }
    }
    Ok(())
}

/// Whether one of the members is a lock.
pub fn has_lock(members: &[Member]) -> bool
    ensures { result ≡ list_any is_lock members.now }
{
    members.iter().any(|member| is_lock(member))
}

/// Puts which domains have a lock behind the others.
fn push_locks(tables: &Tables<'_>, edges: &mut List<Edge>) -> Made<()>
    ensures { OnOk result (edges.new ≡ edges.old ++ lock_edges (told tables.now)) }
{
    for leaf in tables.flat.leaves.as_slice() {
        if let Some(domain) = leaf.domain {
            if has_lock(members_at(tables.source, leaf.component)) {
                let label = domain_label(tables, domain);
                edges.push(Edge {
                    from: label,
                    authority: Authority::AsyncSend,
                    to: label,
                })?;
            }
        }
    }
    Ok(())
}

/// The table of who signals on which notification.
///
/// # Errors
///
/// Want of memory.
pub fn signal_table(alloc: Global, tables: &Tables<'_>) -> Made<EdgeTable>
    requires { length tables.now.flat.now.connections < 2 ^ 32 }
    ensures { IfOk result (λ table. (e : Triple) → has table e ≡ has (signal_edges (told tables.now)) e) }
{
    let mut edges = List::new(alloc);
    push_signals(tables, &mut edges)?;
    EdgeTable::from_list(alloc, edges.as_slice())
}

/// By which edges labels signal, on notifications and by locks.
pub fn signals_of(alloc: Global, tables: &Tables<'_>) -> Made<List<Edge>>
    requires { length tables.now.flat.now.connections < 2 ^ 32 }
    ensures { IfOk result (λ edges. edges ≡ signal_edges (told tables.now) ++ lock_edges (told tables.now)) }
{
    let mut edges = List::new(alloc);
    push_signals(tables, &mut edges)?;
    push_locks(tables, &mut edges)?;
    Ok(edges)
}
