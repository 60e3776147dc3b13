//! Authorities, and tables of edges.

ghost use Rattle.cap_model.specs.Shared.{PairBefore};
ghost use Rattle.std.specs.Prelude.{◌≡◌, ◌≢◌, ◌<◌, length, All, AllPairs, IfOk, IsTrue};

use cap_model::{Authority, AuthoritySet, Edge, EdgeTable, with_edge, with_set};
use std::alloc::Global;
use std::test::Fail;

fn edge(from: u32, authority: Authority, to: u32) -> Edge {
    Edge {
        from,
        authority,
        to,
    }
}

/// Five edges, one of which is put in twice, not in their order.
fn unsorted(alloc: Global) -> Result<Vec<Edge>, Fail> {
    let control = edge(1, Authority::Control, 2);
    let edges = with_edge(Vec::new(alloc), control)?;
    let sends = AuthoritySet::empty()
        .with(Authority::SyncSend)
        .with(Authority::Reset);
    let edges = with_set(edges, 3, sends, 0)?;
    let edges = with_edge(edges, edge(1, Authority::Reset, 7))?;
    let edges = with_edge(edges, edge(1, Authority::Reset, 4))?;
    Ok(with_edge(edges, control)?)
}

fn table(alloc: Global) -> Result<EdgeTable, Fail> {
    let edges = unsorted(alloc)?;
    Ok(EdgeTable::from_list(alloc, edges.as_slice())?)
}

#[test]
fn edges_are_sorted(rt: HostRuntime) -> Result<(), Fail> {
    let table = table(rt.alloc())?;
    let sorted = [
        edge(1, Authority::Reset, 4),
        edge(1, Authority::Reset, 7),
        edge(1, Authority::Control, 2),
        edge(3, Authority::SyncSend, 0),
        edge(3, Authority::Reset, 0),
    ];
    for at in 0..5 {
        assert!(rt; table.get(at) == Some(sorted[at]) && table.contains(&sorted[at]));
    }
    assert!(rt; table.len() == 5 && !table.is_empty());
    Ok(())
}

#[test]
fn edges_out_of_a_label(rt: HostRuntime) -> Result<(), Fail> {
    let table = table(rt.alloc())?;
    assert!(rt;
        table.out_of(1) == (0, 3) && table.out_of(2) == (3, 3) && table.out_of(3) == (3, 5)
    );
    assert!(rt; !table.contains(&edge(1, Authority::Reset, 5)));
    Ok(())
}

#[test]
fn labels_of_one_class(rt: HostRuntime) -> Result<(), Fail> {
    let sends = AuthoritySet::empty()
        .with(Authority::SyncSend)
        .with(Authority::Reset);
    let edges = with_set(Vec::new(rt.alloc()), 0, sends, 2)?;
    let edges = with_set(edges, 1, sends, 2)?;
    let edges = with_edge(edges, edge(0, Authority::Control, 1))?;
    let edges = with_edge(edges, edge(1, Authority::Control, 1))?;
    let table = EdgeTable::from_list(rt.alloc(), edges.as_slice())?;
    assert!(rt;
        table.class_of(0) == Some(0) && table.class_of(1) == Some(0) && table.class_of(2).is_none()
    );
    Ok(())
}

/// The labels from 0 on, so many.
fn labels(alloc: Global, count: u32) -> Result<Vec<u32>, Fail>
    ensures rise { IfOk result (λ labels. AllPairs ◌<◌ labels.items) }
    ensures count { IfOk result (λ labels. length labels.items ≡ count) }
{
    Ok((0..count).collect(alloc)?)
}

/// Each of the eleven authorities other than Reply with each label below 8,192.
fn pairs(alloc: Global) -> Result<Vec<(Authority, u32)>, Fail> {
    let mut pairs = Vec::new(alloc);
    for number in [0, 1, 2, 3, 4, 5, 6, 7, 8, 10, 11] {
        if let Some(authority) = Authority::of_number(number) {
            for label in 0..8192 {
                pairs.push((authority, label))?;
            }
        }
    }
    Ok(pairs)
}

fn is_before(p: (Authority, u32), q: (Authority, u32)) -> bool
    ensures { IsTrue result → PairBefore p q }
{
    p.0.number() < q.0.number() || p.0.number() == q.0.number() && p.1 < q.1
}

/// Whether the pairs rise, and none of them is a reply.
fn may_be_shared(pairs: &[(Authority, u32)]) -> bool
    ensures rise { IsTrue result → AllPairs PairBefore pairs.now }
    ensures others { IsTrue result → All (λ p. p.0 ≢ Authority.Reply) pairs.now }
{
    for i in 1..pairs.len() {
        if !is_before(pairs[i - 1], pairs[i]) {
            return false;
        }
    }
    pairs.iter().all(|pair| pair.0 != Authority::Reply)
}

fn shared(alloc: Global, labels: &[u32], pairs: &[(Authority, u32)]) -> Result<EdgeTable, Fail>
    requires rise { AllPairs ◌<◌ labels.now }
    requires count { length labels.now ≡ 16384 }
{
    if pairs.len() > 90_112 || !may_be_shared(pairs) {
        return Err(Fail::new("pairs that can't be shared"));
    }
    Ok(EdgeTable::shared(alloc, labels, pairs)?)
}

/// More edges than memory has room for one by one.
fn wide_table(alloc: Global) -> Result<EdgeTable, Fail> {
    let labels = labels(alloc, 16_384)?;
    let pairs = pairs(alloc)?;
    shared(alloc, labels.as_slice(), pairs.as_slice())
}

#[test]
fn edges_that_labels_share(rt: HostRuntime) -> Result<(), Fail> {
    let table = wide_table(rt.alloc())?;
    assert!(rt;
        table.out_of(16_383) == (1_476_304_896, 1_476_395_008)
            && table.class_of(16_383) == Some(0)
            && table.get(1_476_395_007) == Some(edge(16_383, Authority::Handle, 8191))
    );
    Ok(())
}

#[test]
fn authorities_by_number_and_text(rt: HostRuntime) {
    let texts = [
        "Receive",
        "SyncSend",
        "AsyncSend",
        "Reset",
        "Grant",
        "Read",
        "Write",
        "Control",
    ];
    for (number, text) in (0..8).zip(texts) {
        let found = Authority::find(text.as_bytes());
        assert!(rt;
            found == Authority::of_number(number) && found.is_some_and(|a| a.text() == text)
        );
    }
    for (number, text) in (8..12).zip(["Call", "Reply", "GrantBack", "Handle"]) {
        let found = Authority::find(text.as_bytes());
        assert!(rt;
            found == Authority::of_number(number) && found.is_some_and(|a| a.text() == text)
        );
    }
    assert!(rt; Authority::of_number(12).is_none());
}
