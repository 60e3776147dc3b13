ghost use Rattle.adl_meaning.specs.Faults.{Refuses};
ghost use Rattle.adl_meaning.specs.declared.flat.FlatConnection.{FlatConnection as Line};
ghost use Rattle.arch_policy.specs.Labels.{label_lines, label_numbers};
ghost use Rattle.arch_policy.specs.Policies.{IsPolicyOf, edge_count, first_edge_fault};
ghost use Rattle.arch_policy.specs.Tables.{tables_of, told};
ghost use Rattle.arch_policy.specs.Triples.{handle_edges, lock_edges, reasoned_edges, signal_edges, triples};
ghost use Rattle.cap_model.specs.Tables.{IsSorted, has};
ghost use Rattle.cap_model.specs.declared.edge.Edge.{Edge as Triple};
ghost use Rattle.cspace_layout.specs.Limit.{limit_fault};
ghost use Rattle.cspace_layout.specs.Within.{IsWithin};
ghost use Rattle.std.specs.Prelude.{◌≡◌, ◌+◌, ◌<◌, ◌^◌, ◌++◌, [], if◌then◌else◌, nat_lt, codes, length, slice_get, IfOk, None, Some, ℕ};

use crate::bound::push_bound;
use crate::edges::{direct_edges, push_crossed_edges, signals_of};
use crate::labels::{Labelling, label_lines, labels_of};
use crate::{LabelNumbers, Tables};
use adl_ast::Source;
use adl_meaning::{Connector, Flat, Settled};
use cam_base::{Fault, List, Made, Refused};
use cap_model::{Authority, Edge, EdgeTable, Policy};
use cspace_layout::limit_fault;
use std::alloc::Global;

/// Who handles the interrupt of which device.
fn handlers(alloc: Global, tables: &Tables<'_>) -> Made<EdgeTable>
    ensures { IfOk result (λ table. (e : Triple) → has table e ≡ has (handle_edges (told tables.now)) e) }
{
    let mut edges = List::new(alloc);
    push_crossed_edges(tables, Connector::Interrupt, Authority::Handle, &mut edges)?;
    EdgeTable::from_list(alloc, edges.as_slice())
}

/// By which edges labels signal. Where nothing is handled, none is bound, and none is listed.
fn signallers(alloc: Global, tables: &Tables<'_>, handlers: &EdgeTable) -> Made<EdgeTable>
    requires { length tables.now.flat.now.connections < 2 ^ 32 }
    ensures { IfOk result (λ table. 0 < length handlers.now → (e : Triple)
        → has table e ≡ has (signal_edges (told tables.now) ++ lock_edges (told tables.now)) e) }
{
    if handlers.is_empty() {
        return Ok(EdgeTable::empty(alloc));
    }
    let edges = signals_of(alloc, tables)?;
    EdgeTable::from_list(alloc, edges.as_slice())
}

/// The edges that have a reason, those within a label too.
fn reasoned_edges(alloc: Global, tables: &Tables<'_>) -> Made<List<Edge>>
    requires few { length tables.now.flat.now.connections < 2 ^ 32 }
    requires short { (k : ℕ) (c : Line) → slice_get tables.now.flat.now.connections k ≡ Some c → length c.ends < 2 ^ 32 }
    ensures { IfOk result (λ edges. (e : Triple) → has edges e ≡ has (reasoned_edges (told tables.now)) e) }
{
    let handlers = handlers(alloc, tables)?;
    let signallers = signallers(alloc, tables, &handlers)?;
    let mut edges = direct_edges(alloc, tables)?;
    push_crossed_edges(tables, Connector::Rpc, Authority::Reply, &mut edges)?;
    push_bound(&handlers, &signallers, &mut edges)?;
    Ok(edges)
}

/// The table of the assigned edges.
fn assigned_edges(alloc: Global, tables: &Tables<'_>) -> Made<EdgeTable>
    requires few { length tables.now.flat.now.connections < 2 ^ 32 }
    requires short { (k : ℕ) (c : Line) → slice_get tables.now.flat.now.connections k ≡ Some c → length c.ends < 2 ^ 32 }
    ensures sorted { IfOk result IsSorted }
    ensures same { IfOk result (λ table. (e : Triple) → has table e ≡ has (triples (told tables.now)) e) }
{
    let edges = reasoned_edges(alloc, tables)?;
    let mut kept = edges.into_vec();
    kept.retain(|edge| edge.from != edge.to);
    let table = EdgeTable::from_list(alloc, kept.as_slice())?;
    Ok(table)
}

fn edges_with(
    alloc: Global,
    source: &Source,
    flat: &Flat,
    settled: &Settled,
    numbers: &LabelNumbers,
) -> Made<EdgeTable>
    requires within { IsWithin source.now flat.now }
    requires numbers { numbers.now ≡ label_numbers flat.now }
    ensures sorted { IfOk result IsSorted }
    ensures edges { IfOk result (IsPolicyOf (tables_of source.now flat.now settled.now)) }
    ensures count { IfOk result (λ table. length table ≡ edge_count (tables_of source.now flat.now settled.now)) }
{
    let tables = Tables {
        source,
        flat,
        settled,
        numbers,
    };
    let table = assigned_edges(alloc, &tables)?;
    Ok(table)
}

/// The limit on edges, where so many pass it.
fn edge_fault(alloc: Global, source: &Source, count: usize) -> Made<Option<Fault>>
    ensures { IfOk result (λ fault. fault ≡ (if nat_lt 200000 count then limit_fault source.now (codes "edges") else None)) }
{
    if count > 200_000 {
        limit_fault(alloc, source, b"edges")
    } else {
        Ok(None)
    }
}

/// The policy of a system, and the numbers of its labels.
#[derive(Drop)]
pub struct Assigned {
    /// It labels no object.
    pub policy: Policy,
    pub numbers: LabelNumbers,
}

/// The policy of a system: its labels, numbered from 0 in the byte order of their texts, and the assigned edges; and these
/// numbers.
///
/// # Errors
///
/// The limit on edges, where it is passed: `specs/Policies.antt`. Want of memory.
pub fn policy_of(
    alloc: Global,
    source: &Source,
    flat: &Flat,
    settled: &Settled,
) -> Result<Assigned, Refused<Fault>>
    requires within { IsWithin source.now flat.now }
    requires few { length flat.now.domains + length flat.now.connections + length flat.now.leaves < 2 ^ 32 }
    ensures limit { Refuses result (first_edge_fault (tables_of source.now flat.now settled.now)) }
    ensures labels { IfOk result (λ assigned. assigned.policy.labels ≡ label_lines flat.now) }
    ensures objects { IfOk result (λ assigned. assigned.policy.objects ≡ []) }
    ensures edges { IfOk result (λ assigned. IsPolicyOf (tables_of source.now flat.now settled.now) assigned.policy.edges) }
    ensures sorted { IfOk result (λ assigned. IsSorted assigned.policy.edges) }
    ensures numbers { IfOk result (λ assigned. assigned.numbers ≡ label_numbers flat.now) }
{
    let Labelling { texts, numbers } = labels_of(alloc, flat)?;
    let edges = edges_with(alloc, source, flat, settled, &numbers)?;
    if let Some(fault) = edge_fault(alloc, source, edges.len())? {
        return Err(Refused::Fault(fault));
    }
    let policy = Policy {
        labels: label_lines(alloc, texts)?,
        objects: List::new(alloc),
        edges,
    };
    Ok(Assigned { policy, numbers })
}
