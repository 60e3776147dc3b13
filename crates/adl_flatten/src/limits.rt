//! The limits of a hierarchy: how many leaves, connections and ends the assembly has, and how deep its leaves are. No path is
//! walked.

ghost use Rattle.adl_meaning.specs.Prelude.{AreFew, AreNamesSound, Refuses, body, first_size_fault, flat_map, hierarchy_of, noted, top_number};
ghost use Rattle.adl_flatten.specs.TotalsOf.{body_total, both, led_total, limits_in, outer, part_total, pass, saturated, totals_in};
ghost use Rattle.adl_items.specs.Located.{located};
ghost use Rattle.adl_flatten.specs.AreTemplates.{IsReady};
ghost use Rattle.std.specs.Prelude.{All, IfOk, length, ◌<◌, ◌≡◌, ◌≤◌};

use adl_ast::{Assembly, Source};
use adl_items::{Located, all_items, first_assembly};
use adl_meaning::Earliest;
use adl_program::{LedWire, Part, Program};
use cam_base::{Code, Fault, Made, Refused};
use std::alloc::Global;

const DEPTH: u64 = 16;

const LEAVES: u64 = 1024;

const CONNECTIONS: u64 = 4096;

const ENDS: u64 = 16384;

/// Sums over the paths in a body. None goes past the greatest number of 64 bits.
#[derive(Clone, Copy)]
struct Totals {
    leaves: u64,
    /// The names of the longest leaf path.
    depth: u64,
    connections: u64,
    ends: u64,
}

impl Totals {
    /// Whether they pass a limit.
    fn pass(self) -> bool
        ensures { result ≡ pass self }
    {
        DEPTH < self.depth
            || LEAVES < self.leaves
            || CONNECTIONS < self.connections
            || ENDS < self.ends
    }

    fn and(self, other: Totals) -> Totals
        ensures { result ≡ both self other }
    {
        Totals {
            leaves: self.leaves.saturating_add(other.leaves),
            depth: self.depth.max(other.depth),
            connections: self.connections.saturating_add(other.connections),
            ends: self.ends.saturating_add(other.ends),
        }
    }

    /// The totals of what is one name further in.
    fn outside(self) -> Totals
        ensures { result ≡ outer self }
    {
        if self.leaves == 0 {
            return self;
        }
        Totals {
            depth: self.depth.saturating_add(1),
            ..self
        }
    }
}

/// The number of ends of connections.
fn end_count(wires: &[LedWire<'_>]) -> u64
    ensures { result ≡ saturated (length (flat_map (λ w. w.wire.1.ends) wires.now)) }
{
    let mut count: u64 = 0;
    for wire in wires {
        count = count.saturating_add(wire.connection.ends.len() as u64);
    }
    count
}

/// The totals of the connections of a body itself.
fn own_totals(wires: &[LedWire<'_>]) -> Totals
    ensures { result ≡ led_total wires.now }
{
    Totals {
        leaves: 0,
        depth: 0,
        connections: wires.len() as u64,
        ends: end_count(wires),
    }
}

/// The totals of an instance, from those of its component.
fn part_totals(program: &Program<'_>, all: &[Totals], part: &Part<'_>) -> Totals
    requires { part.now.kind < length all.now }
    ensures { result ≡ part_total program.now all.now part.now }
{
    let inner = all[part.kind as usize];
    if program.body(part.kind).is_composite() {
        return inner.outside();
    }
    Totals {
        leaves: 1,
        depth: 1,
        ..inner
    }
}

/// The totals of the body of a number, from those of its instances' components.
#[tactic(auto, using(crate::proofs::Totals::led_total_is))]
fn body_totals(program: &Program<'_>, all: &[Totals], number: u32) -> Totals
    requires number { number ≤ top_number program.now }
    requires kinds { All (λ x. x.kind < length all.now) (body program.now number).parts }
    ensures { result ≡ body_total program.now all.now number }
{
    let mut totals = own_totals(program.wires(number));
    for part in program.body(number).parts() {
        totals = totals.and(part_totals(program, all, part));
    }
    totals
}

/// The totals of the assembly, from those of all bodies, inner ones first.
fn assembly_totals(alloc: Global, program: &Program<'_>) -> Made<Totals>
    requires { IsReady program.now }
    ensures { IfOk result (λ t. t ≡ totals_in program.now (top_number program.now)) }
{
    let top = program.top_number() as usize;
    let mut all = vec![in alloc; own_totals(&[]); top + 1]?;
    for number in program.order() {
        let totals = body_totals(program, all.as_slice(), *number);
        all[*number as usize] = totals;
    }
    Ok(all[top])
}

/// Notes each limit that the totals of the assembly pass.
#[tactic(auto, using(adl_meaning::proofs::Noting::noting))]
fn note_limits(assembly: &Located<'_, Assembly>, totals: Totals, first: &mut Earliest<'_>)
    ensures { first.new ≡ noted first.old (limits_in (located assembly.now) totals) }
{
    let place = assembly.item.place;
    first.note(DEPTH < totals.depth, Code::Limit, place, b"depth");
    first.note(LEAVES < totals.leaves, Code::Limit, place, b"leaves");
    let is_passed = CONNECTIONS < totals.connections;
    first.note(is_passed, Code::Limit, place, b"connections");
    first.note(ENDS < totals.ends, Code::Limit, place, b"ends");
}

/// Refuses a source whose assembly passes a limit.
///
/// # Errors
///
/// The first limit that is passed. Want of memory.
pub fn check_limits(
    alloc: Global,
    source: &Source,
    program: &Program<'_>,
) -> Result<(), Refused<Fault>>
    requires few { AreFew source.now }
    requires sound { AreNamesSound source.now }
    requires ready { IsReady program.now }
    requires program { program.now ≡ hierarchy_of source.now }
    ensures { Refuses result (first_size_fault source.now) }
{
    let totals = assembly_totals(alloc, program)?;
    if !totals.pass() {
        return Ok(());
    }
    let items = all_items(alloc, source)?;
    match first_assembly(items.as_slice()) {
        None => Ok(()),
        Some(assembly) => {
            let mut first = Earliest::none();
            note_limits(&assembly, totals, &mut first);
            first.refuse(alloc)
        }
    }
}
