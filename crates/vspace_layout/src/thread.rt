//! The threads of domains.

ghost use Rattle.cspace_layout.specs.System.{all_ends};
ghost use Rattle.std.specs.Prelude.{◌≡◌, ◌++◌, IfOk, OnOk};
ghost use Rattle.vspace_layout.specs.Threads.{domain_threads, leaf_threads, serves};

use adl_ast::Role;
use adl_meaning::Connector;
use cam_base::{List, Made};
use cspace_layout::{EndAt, Wiring};
use std::alloc::Global;

/// A thread: its leaf, and the end at which it serves calls. The control thread of a leaf has none.
#[derive(Clone, Copy)]
pub struct ThreadOf {
    pub leaf: u32,
    pub end: Option<EndAt>,
}

/// Whether calls come in by the end.
fn serves(wiring: &Wiring<'_>, end: EndAt) -> bool
    ensures { result ≡ serves wiring.now.flat end }
{
    match wiring.end(end) {
        Some((connector, end)) => matches!((connector, end.role), (Connector::Rpc, Role::To)),
        None => false,
    }
}

fn push_threads(wiring: &Wiring<'_>, leaf: u32, threads: &mut List<ThreadOf>) -> Made<()>
    ensures { OnOk result (threads.new ≡ threads.old ++ leaf_threads wiring.now.flat (all_ends wiring.now) leaf) }
{
    threads.push(ThreadOf { leaf, end: None })?;
    for end in wiring.ends(leaf) {
        if serves(wiring, *end) {
            threads.push(ThreadOf {
                leaf,
                end: Some(*end),
            })?;
        }
    }
    Ok(())
}

/// The threads of a domain with these leaves.
pub fn threads_of(alloc: Global, wiring: &Wiring<'_>, leaves: &[u32]) -> Made<List<ThreadOf>>
    ensures { IfOk result (λ threads. threads ≡ domain_threads wiring.now.flat (all_ends wiring.now) leaves.now) }
{
    let mut threads = List::new(alloc);
    for leaf in leaves {
        push_threads(wiring, *leaf, &mut threads)?;
    }
    Ok(threads)
}
