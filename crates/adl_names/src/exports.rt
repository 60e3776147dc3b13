//! Exports that fit no interface, and ports of composites that no export gives.

ghost use Rattle.adl_meaning.specs.Prelude.{Export as ExportOf, Fault, Port as PortOf, differs, exports_in, held_as, interface_at, is_port, is_unled, known_in, misfit_exports, misfits_after, misfits_in_composition, noted, option_and_then, option_copied, option_map_or, port_of};
ghost use Rattle.adl_names.specs.Words.{inner_of};
ghost use Rattle.std.specs.Prelude.{IfOk, List as Seq, OnOk, false, option_map, ◌++◌, ◌||◌, ◌∷◌, ◌≡◌};
ghost use Rattle.adl_names.specs.Bodies.{owner_of};
ghost use Rattle.adl_names.specs.Ports.{as_port, is_port_among, misfits_from};

use crate::bodies::{Body, SourceTables};
use crate::tables::{ComponentTable, Held, Holding, target};
use adl_ast::{Export, Id, Instance, Interface, Line};
use adl_items::last_name;
use adl_meaning::Earliest;
use cam_base::{Code, Made, Name};
use indexmap::IndexSet;
use name_tables::NameSet;
use std::alloc::Global;

/// The bytes of a data port whose size doesn't stand there.
const DEFAULT_SIZE: u64 = 4096;

/// An instance, and the name of an interface.
#[derive(Clone, Copy)]
struct Port<'a> {
    instance: &'a Instance,
    interface: &'a Name,
}

/// What earlier exports of a composition have. Of an inner interface it is the first byte of the instance, and the name.
#[derive(Drop)]
struct Taken<'a> {
    targets: NameSet<'a>,
    inners: IndexSet<(u64, &'a [u8])>,
}

/// The port that a dotted name names.
fn port_of<'a>(holding: &Holding<'a>, words: &'a [Id]) -> Option<Port<'a>>
    ensures { option_map as_port result ≡ port_of (held_as holding.now) words.entry.now }
{
    let (instance, last) = match words {
        [name, last] => match holding.get(&name.name)? {
            Held::Instance(instance) => (*instance, last),
            Held::Group(_) | Held::Connection => return None,
        },
        [name, member, last] => match holding.get(&name.name)? {
            Held::Group(members) => (*members.get(&member.name)?, last),
            Held::Instance(_) | Held::Connection => return None,
        },
        _ => return None,
    };
    Some(Port {
        instance,
        interface: &last.name,
    })
}

/// The interface that the port's component declares.
fn interface_at<'a>(tables: &SourceTables<'a>, port: Option<Port<'a>>) -> Option<&'a Interface>
    ensures { option_copied result ≡ option_and_then (interface_at (known_in tables.now)) (option_map as_port port.entry) }
{
    let port = port?;
    tables
        .component(&port.instance.component.name)?
        .interface(port.interface)
}

fn differs(inner: Option<&Interface>, target: Option<&Interface>) -> bool
    ensures { result ≡ differs (option_copied inner.entry) (option_copied target.entry) }
{
    let (Some(a), Some(b)) = (inner, target) else {
        return false;
    };
    !(a.kind == b.kind
        && (a.word.name == b.word.name
            && a.size.unwrap_or(DEFAULT_SIZE) == b.size.unwrap_or(DEFAULT_SIZE)))
}

/// Whether the port is one of a composite's that no export gives.
fn is_unled<'a>(tables: &SourceTables<'a>, port: Option<Port<'a>>) -> bool
    ensures { result ≡ is_unled (known_in tables.now) (option_map as_port port.entry) }
{
    let Some(port) = port else {
        return false;
    };
    let Some(table) = tables.component(&port.instance.component.name) else {
        return false;
    };
    let name = port.interface;
    table.holding().is_some() && (!table.exports(name) && table.interface(name).is_some())
}

/// Takes the port, where its component declares the interface, and answers whether it was taken.
fn take<'a>(
    tables: &SourceTables<'a>,
    port: Option<Port<'a>>,
    inners: &mut IndexSet<(u64, &'a [u8])>,
) -> Made<bool>
    ensures met { IfOk result (λ met. met
        ≡ option_map_or (is_port_among inners.old.keys) (inner_of (known_in tables.now) (option_map as_port port.entry)) false) }
    ensures taken { OnOk result ((p : PortOf) → is_port_among inners.new.keys p
        ≡ (is_port_among inners.old.keys p || is_port (inner_of (known_in tables.now) (option_map as_port port.entry)) p)) }
{
    let Some(taken) = port else {
        return Ok(false);
    };
    if interface_at(tables, port).is_none() {
        return Ok(false);
    }
    let is_new = inners.insert((taken.instance.id.place().first, taken.interface.as_bytes()))?;
    Ok(!is_new)
}

/// Notes an export. What is noted behind it, is noted of the exports from it on.
fn note_export<'a>(
    tables: &SourceTables<'a>,
    owner: Option<&ComponentTable<'a>>,
    holding: &Holding<'a>,
    export: &'a Export,
    taken: &mut Taken<'a>,
    first: &mut Earliest<'a>,
) -> Made<()>
    ensures { OnOk result ((more : Seq ExportOf) →
        noted first.new (misfits_from tables.now owner.entry holding.now taken.new more)
        ≡ noted first.old (misfits_from tables.now owner.entry holding.now taken.old (export.entry.now ∷ more))) }
{
    let words = export.words.as_slice();
    let port = port_of(holding, words);
    let name = &export.target.name;
    let differs = differs(interface_at(tables, port), target(owner, name));
    let is_met = taken.targets.put(name)?;
    let is_taken = take(tables, port, &mut taken.inners)?;
    let is_unled = is_unled(tables, port);
    let is_wrong = owner.is_none() || (differs || (is_met || (is_taken || is_unled)));
    first.note(is_wrong, Code::Export, export.place, last_name(words));
    Ok(())
}

fn note_exports<'a>(
    alloc: Global,
    tables: &SourceTables<'a>,
    owner: Option<&ComponentTable<'a>>,
    holding: &Holding<'a>,
    first: &mut Earliest<'a>,
) -> Made<()>
    ensures { OnOk result (first.new ≡ noted first.old
        (misfits_after (known_in tables.now) (owner_of owner.entry) (held_as holding.now)
        (λ n. false) (λ p. false) (exports_in holding.now))) }
{
    let mut taken = Taken {
        targets: NameSet::new(alloc),
        inners: IndexSet::new(alloc),
    };
    for line in holding.composition.lines.as_slice() {
        if let Line::Export(export) = line {
            note_export(tables, owner, holding, export, &mut taken, first)?;
        }
    }
    Ok(())
}

fn note_composition<'a>(
    alloc: Global,
    tables: &SourceTables<'a>,
    owner: Option<&ComponentTable<'a>>,
    holding: &Holding<'a>,
    first: &mut Earliest<'a>,
) -> Made<()>
    ensures { OnOk result ((more : Seq Fault) → noted first.new more
        ≡ noted first.old (misfits_in_composition (known_in tables.now) (owner_of owner.entry) holding.now ++ more)) }
{
    note_exports(alloc, tables, owner, holding, first)?;
    for line in holding.composition.lines.as_slice() {
        if let Line::Connection(connection) = line {
            for end in connection.ends.as_slice() {
                let words = end.words.as_slice();
                let is_wrong = is_unled(tables, port_of(holding, words));
                first.note(is_wrong, Code::Export, end.place, last_name(words));
            }
        }
    }
    Ok(())
}

/// Notes the exports of a source that fit no interface, and the ports that no export gives.
#[tactic(auto, using(std::proofs::lemmas::Grind::common_steps, crate::proofs::BodyLists::walks))]
pub fn note_misfits<'a>(
    alloc: Global,
    tables: &SourceTables<'a>,
    first: &mut Earliest<'a>,
) -> Made<()>
    ensures { OnOk result (first.new ≡ noted first.old (misfit_exports tables.now)) }
{
    for body in tables.bodies() {
        match body {
            Body::Import(_) | Body::Procedure(_) => (),
            Body::Component(table) => {
                for holding in table.holdings() {
                    note_composition(alloc, tables, Some(table), holding, first)?;
                }
            }
            Body::Assembly(_, holding) => {
                note_composition(alloc, tables, None, holding.get(), first)?
            }
        }
    }
    Ok(())
}
