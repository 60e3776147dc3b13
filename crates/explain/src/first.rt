ghost use Rattle.arch_policy.specs.Reasons.{BindReason, CallReason, DirectReason, LockReason, Reason as Why, by_bind, by_call, by_direct, by_lock};
ghost use Rattle.arch_policy.specs.Tables.{tables_of, told};
ghost use Rattle.explain.specs.Explained.{Explains, IsAskedFor, IsFirstOf, IsFirstReason, told_of};
ghost use Rattle.explain.specs.Sought.{CanSearch};
ghost use Rattle.cspace_layout.specs.Within.{IsWithin};
ghost use Rattle.std.specs.Prelude.{◌+◌, ◌<◌, ◌^◌, ◌≡◌, length, position, IfOk};
ghost use Rattle.std.specs.Str.{bytes_eq};

use crate::search::{Search, Sought, first_lock};
use crate::{ExplainError, Reason, Rule};
use adl_ast::Source;
use adl_meaning::{Flat, Settled};
use arch_policy::{Labelling, Tables, labels_of, signal_table};
use cam_base::{Made, Text};
use cap_model::{Authority, Edge};
use std::alloc::Global;

fn direct_reason(search: &Search<'_>, alloc: Global) -> Made<Option<Reason>>
    requires { CanSearch (told search.now.tables) search.now.signals.now }
    ensures { IfOk result (IsFirstOf (DirectReason (told search.now.tables) search.now.edge)
        (λ d. told_of (told search.now.tables) search.now.edge (by_direct d))) }
{
    let Some(end) = search.first_end(alloc, Sought::Given)? else {
        return Ok(None);
    };
    Ok(Some(Reason {
        rule: Rule::Direct,
        first: (end.place, end.number),
        second: None,
        lock: None,
    }))
}

fn call_reason(search: &Search<'_>, alloc: Global) -> Made<Option<Reason>>
    requires { CanSearch (told search.now.tables) search.now.signals.now }
    ensures { IfOk result (IsFirstOf (CallReason (told search.now.tables) search.now.edge)
        (λ c. told_of (told search.now.tables) search.now.edge (by_call c))) }
{
    let Some(caller) = search.first_end(alloc, Sought::Caller)? else {
        return Ok(None);
    };
    let Some(server) = search.first_end(alloc, Sought::Server(caller.place))? else {
        return Ok(None);
    };
    Ok(Some(Reason {
        rule: Rule::ByCall,
        first: (caller.place, caller.number),
        second: Some((server.place, server.number)),
        lock: None,
    }))
}

fn bind_reason(search: &Search<'_>, alloc: Global) -> Made<Option<Reason>>
    requires { CanSearch (told search.now.tables) search.now.signals.now }
    ensures { IfOk result (IsFirstOf (BindReason (told search.now.tables) search.now.edge)
        (λ b. told_of (told search.now.tables) search.now.edge (by_bind b))) }
{
    let Some(handler) = search.first_end(alloc, Sought::Handler)? else {
        return Ok(None);
    };
    let Some(signaller) = search.first_end(alloc, Sought::Signaller(handler.label))? else {
        return Ok(None);
    };
    Ok(Some(Reason {
        rule: Rule::ByBind,
        first: (handler.place, handler.number),
        second: Some((signaller.place, signaller.number)),
        lock: None,
    }))
}

fn lock_reason(search: &Search<'_>, alloc: Global) -> Made<Option<Reason>>
    requires { CanSearch (told search.now.tables) search.now.signals.now }
    ensures { IfOk result (IsFirstOf (LockReason (told search.now.tables) search.now.edge)
        (λ k. told_of (told search.now.tables) search.now.edge (by_lock k))) }
{
    let Some(handler) = search.first_end(alloc, Sought::LockHandler)? else {
        return Ok(None);
    };
    let Some(lock) = first_lock(&search.tables, search.edge.to) else {
        return Ok(None);
    };
    Ok(Some(Reason {
        rule: Rule::ByBind,
        first: (handler.place, handler.number),
        second: None,
        lock: Some(lock),
    }))
}

/// The first reason of the edge, in the order of the stages.
fn first_reason(search: &Search<'_>, alloc: Global) -> Made<Option<Reason>>
    requires { CanSearch (told search.now.tables) search.now.signals.now }
    ensures { IfOk result (IsFirstOf (Why (told search.now.tables) search.now.edge)
        (told_of (told search.now.tables) search.now.edge)) }
{
    if let Some(direct) = direct_reason(search, alloc)? {
        return Ok(Some(direct));
    }
    if let Some(call) = call_reason(search, alloc)? {
        return Ok(Some(call));
    }
    if let Some(bind) = bind_reason(search, alloc)? {
        return Ok(Some(bind));
    }
    let lock = lock_reason(search, alloc)?;
    Ok(lock)
}

/// The first reason of an edge between different labels.
fn reason_with(alloc: Global, tables: &Tables<'_>, edge: Edge) -> Made<Option<Reason>>
    requires { IsWithin tables.now.source.now tables.now.flat.now }
    ensures { IfOk result (IsFirstReason (told tables.now) edge) }
{
    if edge.from == edge.to {
        return Ok(None);
    }
    let signals = signal_table(alloc, tables)?;
    let search = Search {
        tables: *tables,
        signals: &signals,
        edge,
    };
    let reason = first_reason(&search, alloc)?;
    Ok(reason)
}

/// The number of the label of this text.
fn number_of(texts: &[Text], text: &[u8]) -> Option<usize>
    ensures { result ≡ position (λ t. bytes_eq t text.now) texts.now }
{
    texts.iter().position(|label| label.as_bytes() == text)
}

/// The edge between the labels that the two texts name.
fn asked_edge(texts: &[Text], from: &[u8], authority: Authority, to: &[u8]) -> Option<Edge>
    requires { length texts.now < 2 ^ 32 }
    ensures { IsAskedFor texts.now from.now authority to.now result }
{
    let from = number_of(texts, from)?;
    let to = number_of(texts, to)?;
    Some(Edge {
        from: from as u32,
        authority,
        to: to as u32,
    })
}

/// The first reason why the label of the first text is assigned the authority over the label of the second.
///
/// # Errors
///
/// `NotAssigned` exactly where it isn't assigned, as where a text names no label. Want of memory.
pub fn explain(
    alloc: Global,
    source: &Source,
    flat: &Flat,
    settled: &Settled,
    from: &[u8],
    authority: Authority,
    to: &[u8],
) -> Result<Reason, ExplainError>
    requires within { IsWithin source.now flat.now }
    requires few { length flat.now.domains + length flat.now.connections + length flat.now.leaves < 2 ^ 32 }
    ensures { Explains (tables_of source.now flat.now settled.now) from.now authority to.now result }
{
    let Labelling { texts, numbers } = labels_of(alloc, flat)?;
    let Some(edge) = asked_edge(texts.as_slice(), from, authority, to) else {
        return Err(ExplainError::NotAssigned);
    };
    let tables = Tables {
        source,
        flat,
        settled,
        numbers: &numbers,
    };
    match reason_with(alloc, &tables, edge)? {
        Some(reason) => Ok(reason),
        None => Err(ExplainError::NotAssigned),
    }
}
