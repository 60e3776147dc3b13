//! The replies that calls ask for, and the certificate with them.

ghost use Rattle.cap_model.specs.Adds.{Adds};
ghost use Rattle.cap_model.specs.Tables.{has, IsSorted};
ghost use Rattle.cap_model.specs.declared.edge.Edge.{Edge};
ghost use Rattle.least_cert.specs.Closing.{AreReceivers, AreReplies, IsAnswer, IsCertificate, IsLess, IsSound, IsSpread, receiver};
ghost use Rattle.least_cert.specs.LeastCertificate.{CloseRefused};
ghost use Rattle.std.specs.List.{filter_map};
ghost use Rattle.std.specs.Prelude.{◌≡◌, ◌≤◌, ◌<◌, ◌↔◌, ◌||◌, true, IsTrue, IfErr, IfOk, length};

use crate::asking::from_others;
use crate::closing::{CloseError, Closing, LIMIT, turned, with_more};
use cam_base::Made;
use cap_model::{Authority, Edge, EdgeSet, EdgeTable};
use std::alloc::Global;

/// The certificate that edges in the making come to, once nothing more is asked for.
pub fn certificate(alloc: Global, closing: &Closing<'_>) -> Result<EdgeTable, CloseError>
    requires { IsSound closing.now }
    ensures made { IfOk result (IsCertificate closing.now) }
    ensures few { IfOk result (λ cert. length cert ≤ 262144) }
    ensures refused { IfErr result (CloseRefused closing.now.spec closing.now.labels) }
{
    let edges = closing.spread()?;
    let replies = replies(alloc, closing, edges.as_slice())?;
    let edges = with_more(edges, replies.as_slice())?;
    let table = closing.table(edges.as_slice())?;
    Ok(table)
}

/// The replies that the calls among the edges ask for, in order.
fn replies(alloc: Global, closing: &Closing<'_>, edges: &[Edge]) -> Result<Vec<Edge>, CloseError>
    requires sound { IsSound closing.now }
    requires spread { IsSpread closing.now edges.now }
    ensures replies { IfOk result (λ replies. AreReplies closing.now edges.now replies.items) }
    ensures refused { IfErr result (CloseRefused closing.now.spec closing.now.labels) }
{
    let receivers = receivers(alloc, edges)?;
    let replies = answers(alloc, closing, edges, &receivers)?;
    let listed = replies.listed(alloc)?;
    Ok(listed)
}

fn answers(
    alloc: Global,
    closing: &Closing<'_>,
    edges: &[Edge],
    receivers: &EdgeSet,
) -> Result<EdgeSet, CloseError>
    requires sound { IsSound closing.now }
    requires spread { IsSpread closing.now edges.now }
    requires receivers { AreReceivers edges.now receivers.now }
    ensures replies { IfOk result (AreReplies closing.now edges.now) }
    ensures refused { IfErr result (CloseRefused closing.now.spec closing.now.labels) }
{
    let mut replies = EdgeSet::new(alloc);
    for edge in edges {
        replies = with_answers(alloc, replies, receivers, *edge)?;
        if is_over(&replies) {
            return Err(CloseError::Limit);
        }
    }
    Ok(replies)
}

fn is_over(edges: &EdgeSet) -> bool
    ensures over { IsTrue result ↔ (262144 < length edges.now) }
    ensures sorted { IsSorted edges.now }
{
    edges.len() > LIMIT
}

/// The Receive edges among the edges, each turned.
fn receivers(alloc: Global, edges: &[Edge]) -> Made<EdgeSet>
    ensures { IfOk result (AreReceivers edges.now) }
{
    let turned = turned_receivers(alloc, edges)?;
    let receivers = with_all(EdgeSet::new(alloc), turned.as_slice())?;
    Ok(receivers)
}

fn turned_receivers(alloc: Global, edges: &[Edge]) -> Made<Vec<Edge>>
    ensures { IfOk result (λ turned. turned.items ≡ filter_map receiver edges.now) }
{
    let turned = edges
        .iter()
        .filter_map(|edge| receiver(*edge))
        .collect(alloc)?;
    Ok(turned)
}

fn receiver(edge: Edge) -> Option<Edge>
    ensures { result ≡ receiver edge }
{
    if edge.authority.number() == 0 {
        return Some(turned(edge));
    }
    None
}

/// The replies with those that the edge asks for.
fn with_answers(alloc: Global, replies: EdgeSet, receivers: &EdgeSet, edge: Edge) -> Made<EdgeSet>
    requires { (e : Edge) → has receivers.now e ≡ true → IsLess e }
    ensures { IfOk result (λ new. Adds (IsAnswer receivers.now edge) replies new) }
{
    match edge.authority {
        Authority::Call => {
            let peers = receivers.out_with(alloc, edge.to, Authority::Receive)?;
            let answers = from_others(alloc, Authority::Reply, edge.from, peers.as_slice())?;
            let replies = with_all(replies, answers.as_slice())?;
            Ok(replies)
        }
        _ => Ok(replies),
    }
}

/// The set with edges more.
fn with_all(set: EdgeSet, edges: &[Edge]) -> Made<EdgeSet>
    ensures { IfOk result (λ new. (e : Edge) → has new e ≡ (has set e || has edges.now e)) }
{
    let mut set = set;
    for edge in edges {
        set.insert(*edge)?;
    }
    Ok(set)
}
