ghost use Rattle.arch_compile.specs.Summary.{cap_count, capped, caps_in, one_if, thread_count};
ghost use Rattle.std.specs.Prelude.{◌≡◌};

use adl_meaning::Flat;
use cap_model::{EdgeTable, Entry, Object, Spec};

/// How many domains, threads, connections, objects, capabilities and edges a system has.
#[derive(Clone, Copy)]
pub struct Summary {
    pub domains: u64,
    pub threads: u64,
    pub connections: u64,
    pub objects: u64,
    pub capabilities: u64,
    pub edges: u64,
}

impl Summary {
    ghost use Rattle.arch_compile.specs.Summary.{summary_of};

    /// That of a flat system, its spec and the edges of its policy. Takes no memory.
    pub fn of(flat: &Flat, spec: &Spec, edges: &EdgeTable) -> Summary
        ensures { result ≡ summary_of flat.now spec.now edges.now }
    {
        let entries = spec.entries.as_slice();
        Summary {
            domains: flat.domains.len() as u64,
            threads: thread_count(entries) as u64,
            connections: flat.connections.len() as u64,
            objects: entries.len() as u64,
            capabilities: cap_count(entries),
            edges: edges.len() as u64,
        }
    }
}

fn thread_count(entries: &[Entry]) -> usize
    ensures { result ≡ thread_count entries.now }
{
    entries
        .iter()
        .filter(|entry| matches!(entry.object, Object::Thread(_)))
        .count()
}

fn one_if<T>(option: &Option<T>) -> u64
    ensures { result ≡ one_if option.now }
{
    match option {
        Some(_) => 1,
        None => 0,
    }
}

/// How many capabilities an object has.
fn caps_in(object: &Object) -> u64
    ensures { result ≡ caps_in object.now }
{
    match object {
        Object::CNode { slots, .. } | Object::Pages { slots, .. } => slots.len() as u64,
        Object::Thread(tcb) => {
            let tcb = tcb.get();
            one_if(&tcb.cspace) + one_if(&tcb.vspace) + one_if(&tcb.buffer)
        }
        Object::Irq { notification } => one_if(notification),
        _ => 0,
    }
}

fn cap_count(entries: &[Entry]) -> u64
    ensures { result ≡ capped (cap_count entries.now) }
{
    let mut count: u64 = 0;
    for entry in entries {
        count = count.saturating_add(caps_in(&entry.object));
    }
    count
}
