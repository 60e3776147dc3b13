//! What the rules ask for because of one edge.

ghost use Rattle.cap_model.specs.Tables.{has};
ghost use Rattle.cap_model.specs.declared.edge.Edge.{Edge};
ghost use Rattle.least_cert.specs.Closing.{AreAsked, AreGifts, ArePassed, IsSound, JoinsEnds, Looks, OfLeast, from_other, passed_to, to_other};
ghost use Rattle.least_cert.specs.LeastCertificate.{CloseRefused};
ghost use Rattle.std.specs.List.{filter_map};
ghost use Rattle.std.specs.Prelude.{◌≡◌, true, IfErr, IfOk, OnOk};

use crate::closing::{CloseError, Closing, passed_to};
use cam_base::Made;
use cap_model::{Authority, Edge};
use std::alloc::Global;

/// An edge from where another goes to the label, where these are two.
fn from_other(authority: Authority, label: u32, edge: Edge) -> Option<Edge>
    ensures { result ≡ from_other authority label edge }
{
    if edge.to == label {
        return None;
    }
    Some(Edge {
        from: edge.to,
        authority,
        to: label,
    })
}

/// An edge from the label to where another goes, where these are two.
fn to_other(authority: Authority, label: u32, edge: Edge) -> Option<Edge>
    ensures { result ≡ to_other authority label edge }
{
    if edge.to == label {
        return None;
    }
    Some(Edge {
        from: label,
        authority,
        to: edge.to,
    })
}

/// Edges from where others go to the label.
pub fn from_others(
    alloc: Global,
    authority: Authority,
    label: u32,
    edges: &[Edge],
) -> Made<Vec<Edge>>
    ensures { IfOk result (λ made. made.items ≡ filter_map (from_other authority label) edges.now) }
{
    let made = edges
        .iter()
        .filter_map(|edge| from_other(authority, label, *edge))
        .collect(alloc)?;
    Ok(made)
}

fn to_others(alloc: Global, authority: Authority, label: u32, edges: &[Edge]) -> Made<Vec<Edge>>
    ensures { IfOk result (λ made. made.items ≡ filter_map (to_other authority label) edges.now) }
{
    let made = edges
        .iter()
        .filter_map(|edge| to_other(authority, label, *edge))
        .collect(alloc)?;
    Ok(made)
}

/// The edge as that of each taker.
fn passed_to_all(alloc: Global, edge: Edge, gifts: &[Edge]) -> Made<Vec<Edge>>
    ensures { IfOk result (λ passed. passed.items ≡ filter_map (λ gift. passed_to gift.to edge) gifts.now) }
{
    let passed = gifts
        .iter()
        .filter_map(|gift| passed_to(gift.to, edge))
        .collect(alloc)?;
    Ok(passed)
}

/// The edge as that of all to whom its label gives.
fn passed(alloc: Global, closing: &Closing<'_>, edge: Edge) -> Made<Vec<Edge>>
    requires sound { IsSound closing.now }
    requires known { has closing.now.queue edge ≡ true }
    ensures { IfOk result (λ edges. ArePassed closing.now edge edges.items) }
{
    let gifts = closing.gifts_of(edge.from)?;
    let edges = passed_to_all(alloc, edge, gifts.as_slice())?;
    Ok(edges)
}

/// The signals that the edge asks for.
fn asked(alloc: Global, closing: &Closing<'_>, edge: Edge) -> Made<Vec<Edge>>
    requires sound { IsSound closing.now }
    requires known { has closing.now.queue edge ≡ true }
    ensures { IfOk result (λ edges. AreAsked closing.now edge edges.items) }
{
    match edge.authority {
        Authority::Handle => {
            let peers = closing.out_with(edge.from, Authority::AsyncSend)?;
            let edges = to_others(alloc, Authority::AsyncSend, edge.to, peers.as_slice())?;
            Ok(edges)
        }
        Authority::AsyncSend => {
            let peers = closing.out_with(edge.from, Authority::Handle)?;
            let edges = from_others(alloc, Authority::AsyncSend, edge.to, peers.as_slice())?;
            Ok(edges)
        }
        _ => Ok(Vec::new(alloc)),
    }
}

/// The gifts that the edge asks for, between labels that need not share a leader.
fn gifts(alloc: Global, closing: &Closing<'_>, edge: Edge) -> Made<Vec<Edge>>
    requires sound { IsSound closing.now }
    requires known { has closing.now.queue edge ≡ true }
    ensures { IfOk result (λ gifts. AreGifts closing.now edge gifts.items) }
{
    match edge.authority {
        Authority::Grant => {
            let peers = closing.to_with(edge.to, Authority::Receive)?;
            let gifts = to_others(alloc, Authority::Grant, edge.from, peers.as_slice())?;
            Ok(gifts)
        }
        Authority::Receive => {
            let peers = closing.to_with(edge.to, Authority::Grant)?;
            let gifts = from_others(alloc, Authority::Grant, edge.from, peers.as_slice())?;
            Ok(gifts)
        }
        Authority::Call => {
            let peers = closing.to_with(edge.to, Authority::GrantBack)?;
            let gifts = from_others(alloc, Authority::Grant, edge.from, peers.as_slice())?;
            Ok(gifts)
        }
        Authority::GrantBack => {
            let peers = closing.to_with(edge.to, Authority::Call)?;
            let gifts = to_others(alloc, Authority::Grant, edge.from, peers.as_slice())?;
            Ok(gifts)
        }
        _ => Ok(Vec::new(alloc)),
    }
}

/// Makes the ends of a Control edge share one leader.
fn join_ends(closing: &mut Closing<'_>, edge: Edge) -> Result<(), CloseError>
    requires sound { IsSound closing.old }
    requires least { OfLeast closing.old edge }
    ensures joined { OnOk result (JoinsEnds edge closing.old closing.new) }
    ensures refused { IfErr result (CloseRefused closing.old.spec closing.old.labels) }
{
    match edge.authority {
        Authority::Control => {
            closing.join(edge.from, edge.to)?;
            Ok(())
        }
        _ => Ok(()),
    }
}

/// Puts in all that the rules ask for because of an edge.
pub fn look(alloc: Global, closing: &mut Closing<'_>, edge: Edge) -> Result<(), CloseError>
    requires sound { IsSound closing.old }
    requires known { has closing.old.queue edge ≡ true }
    ensures looked { OnOk result (Looks closing.old edge closing.new) }
    ensures refused { IfErr result (CloseRefused closing.old.spec closing.old.labels) }
{
    let passed = passed(alloc, closing, edge)?;
    let asked = asked(alloc, closing, edge)?;
    let gifts = gifts(alloc, closing, edge)?;
    closing.add_all(passed.as_slice())?;
    closing.add_all(asked.as_slice())?;
    closing.give_all(gifts.as_slice())?;
    join_ends(closing, edge)?;
    Ok(())
}
