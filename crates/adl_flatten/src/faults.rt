//! The faults of joins.

ghost use Rattle.adl_meaning.specs.Prelude.{Refuses, enumerate_from, flat_map, flattened, is_direct, join_faults_in, least, noted, same_domain, top_number, unjoined_at, used_twice};
ghost use Rattle.adl_flatten.specs.TemplateJoins.{all_in, domain_in, in_one, misplaced_call, misplaced_leaf};
ghost use Rattle.adl_meaning.specs.Unconnected.{may_stay};
ghost use Rattle.adl_flatten.specs.AreTemplates.{IsTemplate};
ghost use Rattle.std.specs.Prelude.{map, ◌≡◌};

use crate::end_counts::CountedEnds;
use crate::{PlacedConnection, PlacedEnd, PlacedLeaf, Template};
use adl_ast::{Interface, InterfaceKind, Member};
use adl_items::last_name;
use adl_meaning::{Connector, Earliest, Leaf};
use adl_program::Program;
use cam_base::{Code, Fault, Refused};
use std::alloc::Global;

/// Notes the ends whose interfaces they may not join beside others.
fn note_used_twice<'a>(ends: &CountedEnds<'_, 'a>, first: &mut Earliest<'a>)
    ensures { first.new ≡ noted first.old (flat_map (used_twice ends.now) ends.now) }
{
    for end in ends.as_slice() {
        let is_clash = ends.is_clash(end);
        let placed = end.placed;
        let word = last_name(placed.end.words.as_slice());
        first.note(is_clash, Code::UsedTwice, placed.end.place, word);
    }
}

fn may_stay(interface: &Interface) -> bool
    ensures { result ≡ may_stay interface.now }
{
    interface.maybe || !matches!(interface.kind, InterfaceKind::Uses)
}

/// Notes the interfaces of leaves that no end joins, of those that may not stay without one.
fn note_all_unjoined<'a>(
    program: &Program<'a>,
    ends: &CountedEnds<'_, '_>,
    leaves: &[PlacedLeaf<'a>],
    first: &mut Earliest<'a>,
)
    ensures { first.new ≡ noted first.old (flat_map (unjoined_at program.now ends.now)
        (enumerate_from 0 (map (λ x. x.leaf) leaves.now))) }
{
    for (number, leaf) in leaves.iter().enumerate() {
        let Some(component) = program.body(leaf.kind).component() else {
            continue;
        };
        let members = component.members.as_slice();
        for (place, member) in members.iter().enumerate() {
            if let Member::Interface(interface) = member {
                let is_joined = may_stay(interface) || ends.is_joined(number, place);
                let id = &interface.id;
                first.note(
                    !is_joined,
                    Code::Unconnected,
                    id.place(),
                    id.name.as_bytes(),
                );
            }
        }
    }
}

/// Notes the devices below a group.
fn note_devices<'a>(program: &Program<'_>, leaves: &[PlacedLeaf<'a>], first: &mut Earliest<'a>)
    ensures { first.new ≡ noted first.old (flat_map (misplaced_leaf program.now) leaves.now) }
{
    for leaf in leaves {
        let is_misplaced = program.body(leaf.kind).is_hardware() && leaf.home.is_some();
        let id = &leaf.instance.id;
        first.note(
            is_misplaced,
            Code::Placement,
            id.place(),
            id.name.as_bytes(),
        );
    }
}

fn domain_in(leaves: &[Leaf], end: &PlacedEnd<'_>) -> Option<u32>
    ensures { result ≡ domain_in leaves.now end.now }
{
    leaves.get(end.leaf as usize)?.domain
}

fn same_domain(a: Option<u32>, b: Option<u32>) -> bool
    ensures { result ≡ same_domain a b }
{
    match (a, b) {
        (Some(a), Some(b)) => a == b,
        _ => false,
    }
}

/// Whether all ends are in this domain.
fn all_in(leaves: &[Leaf], ends: &[PlacedEnd<'_>], domain: Option<u32>) -> bool
    ensures { result ≡ all_in leaves.now domain ends.now }
{
    ends.iter()
        .all(|end| same_domain(domain_in(leaves, end), domain))
}

fn in_one_domain(leaves: &[Leaf], ends: &[PlacedEnd<'_>]) -> bool
    ensures { result ≡ in_one leaves.now ends.now }
{
    match ends {
        [] => true,
        [first, ..] => all_in(leaves, ends, domain_in(leaves, first)),
    }
}

fn is_direct(connector: Connector) -> bool
    ensures { result ≡ is_direct connector }
{
    matches!(connector, Connector::Direct)
}

/// Notes the connections of direct calls whose ends aren't all in one domain.
fn note_calls<'a>(leaves: &[Leaf], connections: &[PlacedConnection<'a>], first: &mut Earliest<'a>)
    ensures { first.new ≡ noted first.old (flat_map (misplaced_call leaves.now) connections.now) }
{
    for connection in connections {
        let is_one = in_one_domain(leaves, connection.ends.as_slice());
        let is_parted = is_direct(connection.connector) && !is_one;
        let id = &connection.connection.id;
        first.note(is_parted, Code::Placement, id.place(), id.name.as_bytes());
    }
}

/// Refuses a source with a fault of joins, from the template of the assembly.
///
/// # Errors
///
/// The first fault of joins. Want of memory.
pub fn check_joins<'a>(
    alloc: Global,
    program: &Program<'a>,
    template: &Template<'a>,
    leaves: &[Leaf],
) -> Result<(), Refused<Fault>>
    requires template { IsTemplate program.now (top_number program.now) template.now }
    requires leaves { leaves.now ≡ (flattened program.now).leaves }
    ensures { Refuses result (least (join_faults_in program.now)) }
{
    let placed = template.leaves.as_slice();
    let connections = template.connections.as_slice();
    let ends = CountedEnds::new(alloc, connections)?;
    let mut first = Earliest::none();
    note_used_twice(&ends, &mut first);
    note_all_unjoined(program, &ends, placed, &mut first);
    note_devices(program, placed, &mut first);
    note_calls(leaves, connections, &mut first);
    first.refuse(alloc)
}
