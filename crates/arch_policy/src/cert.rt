ghost use Rattle.arch_policy.specs.LockEdges.{IsOfLeaf, IsWithLock};
ghost use Rattle.arch_policy.specs.Policies.{IsCertificateOf, IsLockEdge, IsPolicyOf};
ghost use Rattle.arch_policy.specs.Tables.{domain_label, told};
ghost use Rattle.cap_model.specs.Adds.{Adds};
ghost use Rattle.authorities.specs.AuthoritySets.{IsSetOf};
ghost use Rattle.cap_model.specs.Tables.{IsSorted, has};
ghost use Rattle.cap_model.specs.declared.edge.Edge.{Edge as Triple};
ghost use Rattle.cap_model.specs.Confers.{kind_confers};
ghost use Rattle.cap_model.specs.declared.kind.Kind.TheVariants.{Notification};
ghost use Rattle.conn_rules.specs.Row.{RW};
ghost use Rattle.std.specs.Prelude.{◌≡◌, ◌↔◌, ◌⊎◌, true, IfOk};

use crate::edges::has_lock;
use crate::{Tables, domain_label};
use adl_meaning::Leaf;
use cam_base::Made;
use cap_model::{Authority, AuthoritySet, Edge, EdgeTable, with_set};
use cspace_layout::members_at;
use std::alloc::Global;

/// What rights to read and write a notification confer.
fn lock_authorities() -> AuthoritySet
    ensures { IsSetOf (kind_confers Notification RW) result.bits }
{
    AuthoritySet::empty()
        .with(Authority::Reset)
        .with(Authority::Receive)
        .with(Authority::AsyncSend)
}

/// The edges, and what there is to do with a lock within this label.
fn with_lock(edges: Vec<Edge>, label: u32) -> Made<Vec<Edge>>
    ensures { IfOk result (λ new. Adds (IsWithLock label) edges.items new.items) }
{
    with_set(edges, label, lock_authorities(), label)
}

fn with_leaf(edges: Vec<Edge>, tables: &Tables<'_>, leaf: &Leaf) -> Made<Vec<Edge>>
    ensures { IfOk result (λ new. Adds (IsOfLeaf (told tables.now) leaf.now) edges.items new.items) }
{
    let Some(domain) = leaf.domain else {
        return Ok(edges);
    };
    if !has_lock(members_at(tables.source, leaf.component)) {
        return Ok(edges);
    }
    with_lock(edges, domain_label(tables, domain))
}

/// The edges, and those of domains with a lock.
fn with_locks(edges: Vec<Edge>, tables: &Tables<'_>) -> Made<Vec<Edge>>
    ensures { IfOk result (λ new. Adds (IsLockEdge (told tables.now)) edges.items new.items) }
{
    let mut edges = edges;
    for leaf in tables.flat.leaves.as_slice() {
        edges = with_leaf(edges, tables, leaf)?;
    }
    Ok(edges)
}

/// The edges of a table.
fn edges_of(alloc: Global, table: &EdgeTable) -> Made<Vec<Edge>>
    ensures { IfOk result (λ edges. edges.items ≡ table.now) }
{
    let mut edges = Vec::with_capacity(alloc, table.len())?;
    for edge in table.iter() {
        edges.push(edge)?;
    }
    Ok(edges)
}

/// The edges, of which so many that stand first are in order already. Those of locks mostly rise too, so they are sorted by runs.
fn sorted(edges: Vec<Edge>, first: usize) -> Made<Vec<Edge>>
    ensures { IfOk result (λ sorted. (e : Triple) → has sorted.items e ≡ has edges.items e) }
{
    if edges.len() == first {
        return Ok(edges);
    }
    let mut edges = edges;
    edges.sort()?;
    Ok(edges)
}

/// The certificate of a system with this policy: what the policy has, and within the label of each domain with a lock what
/// the domain may do with a lock. An edge of several leaves stands once.
///
/// # Errors
///
/// Want of memory.
pub fn certificate_of(alloc: Global, tables: &Tables<'_>, policy: &EdgeTable) -> Made<EdgeTable>
    ensures sorted { IfOk result IsSorted }
    ensures exact { IfOk result (λ cert. (e : Triple) → (has cert e ≡ true)
        ↔ ((has policy.now e ≡ true) ⊎ IsLockEdge (told tables.now) e)) }
    ensures cert { IsPolicyOf (told tables.now) policy.now → IfOk result (IsCertificateOf (told tables.now)) }
{
    let kept = edges_of(alloc, policy)?;
    let edges = with_locks(kept, tables)?;
    let sorted = sorted(edges, policy.len())?;
    let cert = EdgeTable::from_list(alloc, sorted.as_slice())?;
    Ok(cert)
}
