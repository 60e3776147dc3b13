//! The faults of types.

ghost use Rattle.adl_meaning.specs.Prelude.{body, flat_map, least, noted, option_copied, option_map_or, top_number, wires_of};
ghost use Rattle.adl_types.specs.TypeFaults.{agree, count_of, faults_at, first_led, is_kind_of, led_faults, led_wire_faults, may_have, size_faults, type_faults_in, wire_faults};
ghost use Rattle.std.specs.Prelude.{[], true, ◌≡◌, ◌≤◌};

use adl_ast::{Component, End, Member, Role};
use adl_items::last_name;
use adl_meaning::{Connector, Earliest, noted_is_least};
use adl_program::{Leaf, LedEnd, LedWire, Program};
use cam_base::Code;
use conn_rules::EndRule;

/// The bytes of a data port whose size doesn't stand there.
const DEFAULT_SIZE: u64 = 4096;

/// The most bytes that a data port may have.
const GREATEST_SIZE: u64 = 268_435_456;

fn is_right(rule: EndRule, leaf: &Option<Leaf<'_>>) -> bool
    ensures { result ≡ option_map_or (is_kind_of rule) leaf.now true }
{
    match leaf {
        None => true,
        Some(leaf) => leaf.interface.kind == rule.interface && leaf.hardware == rule.hardware,
    }
}

fn agree(a: &Option<Leaf<'_>>, b: &Option<Leaf<'_>>) -> bool
    ensures { result ≡ agree a.now b.now }
{
    match (a, b) {
        (Some(a), Some(b)) => {
            let (a, b) = (a.interface, b.interface);
            a.word.name == b.word.name
                && a.size.unwrap_or(DEFAULT_SIZE) == b.size.unwrap_or(DEFAULT_SIZE)
        }
        _ => true,
    }
}

fn count_of(role: Role, ends: &[End]) -> u64
    ensures { result ≡ count_of role ends.now }
{
    ends.iter().filter(|end| end.role == role).count() as u64
}

fn may_have(connector: Connector, ends: &[End]) -> bool
    ensures { result ≡ may_have connector ends.now }
{
    EndRule::of(connector, Role::From).allows(count_of(Role::From, ends))
        && EndRule::of(connector, Role::To).allows(count_of(Role::To, ends))
}

/// Notes the faults of an end that joins this interface, beside the one that the first end of its connection joins.
fn note_end<'a>(
    connector: Connector,
    model: &Option<Leaf<'_>>,
    leaf: &Option<Leaf<'_>>,
    end: &'a End,
    first: &mut Earliest<'a>,
)
    ensures { first.new ≡ noted first.old (faults_at connector model.now leaf.now end.entry.now) }
{
    let word = last_name(end.words.as_slice());
    let is_right = is_right(EndRule::of(connector, end.role), leaf);
    first.note(!is_right, Code::Kind, end.place, word);
    let agrees = agree(model, leaf);
    first.note(
        connector != Connector::Interrupt && !agrees,
        Code::TypeMismatch,
        end.place,
        word,
    );
}

/// Notes the faults of a connection's ends.
fn note_ends<'a>(
    program: &Program<'a>,
    connector: Connector,
    ends: &[LedEnd<'a>],
    first: &mut Earliest<'a>,
)
    ensures { first.new ≡ noted first.old
        (flat_map (led_faults program.now connector (first_led program.now ends.now)) ends.now) }
{
    let model = match ends {
        [] => None,
        [head, ..] => program.leaf(head),
    };
    for end in ends {
        let leaf = program.leaf(end);
        note_end(connector, &model, &leaf, end.end, first);
    }
}

/// Notes the faults of a connection.
#[tactic(auto, using(adl_meaning::proofs::Noting::noting))]
fn note_wire<'a>(program: &Program<'a>, wire: &LedWire<'a>, first: &mut Earliest<'a>)
    ensures { first.new ≡ noted first.old (led_wire_faults program.now wire.now) }
{
    let connector = wire.connector;
    note_ends(program, connector, wire.ends.as_slice(), first);
    let connection = wire.connection;
    let name = &connection.id;
    first.note(
        !may_have(connector, connection.ends.as_slice()),
        Code::EndCount,
        name.place(),
        name.name.as_bytes(),
    );
}

/// Notes the sizes that no memory has.
fn note_sizes<'a>(component: Option<&'a Component>, first: &mut Earliest<'a>)
    ensures { first.new ≡ noted first.old
        (option_map_or (λ c. flat_map size_faults c.members) (option_copied component.entry) []) }
{
    let Some(component) = component else {
        return;
    };
    for member in component.members.as_slice() {
        if let Member::Interface(interface) = member {
            let name = &interface.id;
            let size = interface.size;
            let is_size = size.is_none_or(|size| 1 <= size && size <= GREATEST_SIZE);
            let word = name.name.as_bytes();
            first.note(!is_size, Code::TypeMismatch, name.place(), word);
        }
    }
}

/// Notes the faults of the connections of the body of the number.
fn note_wires<'a>(program: &Program<'a>, number: u32, first: &mut Earliest<'a>)
    requires { number ≤ top_number program.now }
    ensures { first.new ≡ noted first.old (flat_map (wire_faults program.now number) (wires_of (body program.now number))) }
{
    for wire in program.wires(number) {
        note_wire(program, wire, first);
    }
}

/// The first fault of types, if one stands: `specs/TypeFaults.antt`. Takes no memory.
#[tactic(auto, using(adl_meaning::proofs::Noting::noting))]
pub fn type_fault<'a>(program: &Program<'a>) -> Earliest<'a>
    ensures { result ≡ least (type_faults_in program.now) }
{
    noted_is_least();
    let mut first = Earliest::none();
    for number in 0..program.top_number() + 1 {
        note_wires(program, number, &mut first);
        note_sizes(program.body(number).component(), &mut first);
    }
    first
}
