//! Tables of what the names of compositions and components stand for.

ghost use Rattle.adl_meaning.specs.Prelude.{Fault, a_group, attribute_of, composition_of, compositions, declared_as, declared_by, declared_in, duplicates_in_component, duplicates_in_composition, flat_map, held_as, held_by, interface_of, is_exported, member_of, noted, option_and_then, option_copied, repeats, slice_get};
ghost use Rattle.adl_names.specs.Words.{declared_told, declaring_told, first_named, is_among};
ghost use Rattle.std.specs.Prelude.{IfOk, IfSome, List as Seq, OnOk, Some, [], map, option_map, ℕ, ◌++◌, ◌∷◌, ◌≡◌};
ghost use Rattle.adl_names.specs.Bodies.{owner_of};
ghost use Rattle.adl_names.specs.Tables.{AreNamed, AreNoted, Declares, held_told, holding_told, words_of};

use crate::repeats::{are_few, note_again, note_few, put};
use adl_ast::{Attribute, Component, Composition, Group, Instance, Interface, Line, Member};
use adl_items::{Declared, declared_under};
use adl_meaning::Earliest;
use cam_base::{Made, Name};
use name_tables::{NameSet, NameTable};
use std::alloc::Global;
use std::marker::Model;

/// What a composition holds under a name.
#[derive(Drop)]
pub enum Held<'a> {
    Instance(&'a Instance),
    /// The instances of a group by name.
    Group(NameTable<'a, &'a Instance>),
    Connection,
}

/// A composition with what it holds by name. Contracts see it as the composition.
#[derive(Drop)]
pub struct Holding<'a> {
    pub composition: &'a Composition,
    held: NameTable<'a, Held<'a>>,
    /// The targets of its exports.
    targets: NameSet<'a>,
}

impl<'a> Model for Holding<'a> {
    ghost use Rattle.adl_meaning.specs.Prelude.{Composition};
    ghost use Rattle.adl_names.specs.Tables.{IsHolding};

    ghost Value = { Composition };

    ghost view = { λ h. h.composition.now };

    ghost invariant = { λ h. IsHolding h.held h.targets h.composition.now };
}

/// A component with what its names stand for. Contracts see it as the component.
#[derive(Drop)]
pub struct ComponentTable<'a> {
    pub component: &'a Component,
    /// What it declares by name, where its members are many; else none.
    declared: Vec<NameTable<'a, Declared<'a>>>,
    /// What its compositions hold, in their order.
    holdings: Vec<Holding<'a>>,
}

impl<'a> Model for ComponentTable<'a> {
    ghost use Rattle.adl_ast.specs.contracts.value.ValueKind as values;
    ghost use Rattle.adl_meaning.specs.Prelude.{Component};
    ghost use Rattle.adl_names.specs.Tables.{AreTold};
    ghost use Rattle.adl_meaning.specs.Prelude.{slice_get};
    ghost use Rattle.std.specs.Coded.{codes};

    ghost Value = { Component };

    ghost coded = { Prim.hlevel (codes, values.the_row.coded) };

    ghost view = { λ t. t.component.now };

    ghost invariant = { λ t. AreTold (slice_get t.declared.items 0) t.holdings.items t.component.now };
}

/// The instances of a group by name, of which the first counts.
fn members_of<'a>(alloc: Global, group: &'a Group) -> Made<Held<'a>>
    ensures { IfOk result (λ held. held_told held ≡ a_group (member_of group.entry.now)) }
{
    let mut members = NameTable::new(alloc);
    for instance in group.instances.as_slice() {
        members.add(&instance.id.name, instance)?;
    }
    Ok(Held::Group(members))
}

fn add_line<'a>(
    alloc: Global,
    line: &'a Line,
    table: &mut NameTable<'a, Held<'a>>,
    first: &mut Earliest<'a>,
) -> Made<()>
    ensures noted { OnOk result (AreNoted table.old first.old (held_by line.entry.now) table.new first.new) }
    ensures found { OnOk result (AreNamed (holding_told table.old) (held_by line.entry.now) (holding_told table.new)) }
{
    match line {
        Line::Instance(instance) => put(&instance.id, Held::Instance(instance), table, first),
        Line::Group(group) => {
            put(&group.id, members_of(alloc, group)?, table, first)?;
            for instance in group.instances.as_slice() {
                put(&instance.id, Held::Instance(instance), table, first)?;
            }
            Ok(())
        }
        Line::Connection(connection) => put(&connection.id, Held::Connection, table, first),
        Line::Export(_) => Ok(()),
    }
}

/// The targets of the exports of a composition.
fn targets<'a>(alloc: Global, composition: &'a Composition) -> Made<NameSet<'a>>
    ensures { IfOk result (λ t. (n : Seq ℕ) → is_among t n ≡ is_exported (Some composition.entry.now) n) }
{
    let mut targets = NameSet::new(alloc);
    for line in composition.lines.as_slice() {
        if let Line::Export(export) = line {
            targets.insert(&export.target.name)?;
        }
    }
    Ok(targets)
}

impl<'a> Holding<'a> {
    /// The table of a composition. Notes the names that stand twice.
    pub fn of(
        alloc: Global,
        composition: &'a Composition,
        first: &mut Earliest<'a>,
    ) -> Made<Holding<'a>>
        ensures noted { OnOk result ((more : Seq Fault) → noted first.new more
            ≡ noted first.old (duplicates_in_composition composition.entry.now ++ more)) }
        ensures holding { IfOk result (λ h. h ≡ composition.entry.now) }
    {
        let mut held = NameTable::with_room(alloc, composition.lines.len())?;
        for line in composition.lines.as_slice() {
            add_line(alloc, line, &mut held, first)?;
        }
        Ok(Holding {
            composition,
            held,
            targets: targets(alloc, composition)?,
        })
    }

    /// The first that the composition holds under the name.
    pub fn get(&self, name: &Name) -> Option<&Held<'a>>
        ensures { option_map held_told (option_copied result) ≡ held_as self.now name.now }
    {
        self.held.get(name)
    }

    /// Whether one of its exports has the name as target.
    fn exports(&self, name: &Name) -> bool
        ensures { result ≡ is_exported (Some self.now) name.now }
    {
        self.targets.contains(name)
    }
}

fn declare<'a>(
    member: &'a Member,
    table: &mut NameTable<'a, Declared<'a>>,
    first: &mut Earliest<'a>,
) -> Made<()>
    ensures noted { OnOk result (AreNoted table.old first.old (declared_by member.entry.now) table.new first.new) }
    ensures found { OnOk result (AreNamed (declaring_told table.old) (declared_by member.entry.now) (declaring_told table.new)) }
{
    match member {
        Member::Interface(it) => put(&it.id, Declared::Interface(it), table, first),
        Member::Attribute(it) => put(&it.id, Declared::Attribute(it), table, first),
        Member::Lock(it) => put(&it.id, Declared::Lock(it), table, first),
        _ => Ok(()),
    }
}

/// What many members declare by name. Notes the names that stand twice.
fn declaring<'a>(
    alloc: Global,
    members: &'a [Member],
    first: &mut Earliest<'a>,
) -> Made<NameTable<'a, Declared<'a>>>
    ensures noted { OnOk result (first.new ≡ noted first.old (repeats (words_of members.entry.now))) }
    ensures declared { IfOk result (λ t. (n : Seq ℕ) → declaring_told t n
        ≡ first_named (flat_map declared_by members.entry.now) n) }
{
    let mut table = NameTable::with_room(alloc, members.len())?;
    for member in members {
        declare(member, &mut table, first)?;
    }
    Ok(table)
}

/// What a component declares by name, where its members are many; else none. Notes the names that stand twice.
#[tactic(auto, using(crate::proofs::FewRepeated::declared_words))]
fn declared_of<'a>(
    alloc: Global,
    component: &'a Component,
    first: &mut Earliest<'a>,
) -> Made<Vec<NameTable<'a, Declared<'a>>>>
    ensures noted { OnOk result (first.new ≡ noted first.old (repeats (map (λ d. d.0) (declared_in component.entry.now)))) }
    ensures declared { IfOk result (λ v. IfSome (slice_get v.items 0) (Declares component.entry.now)) }
{
    let members = component.members.as_slice();
    let mut tables = Vec::new(alloc);
    if are_few(members) {
        note_few(members, first);
        return Ok(tables);
    }
    tables.push(declaring(alloc, members, first)?)?;
    Ok(tables)
}

/// What the compositions of a component hold. Notes the names that stand twice in one.
fn holdings<'a>(
    alloc: Global,
    component: &'a Component,
    first: &mut Earliest<'a>,
) -> Made<Vec<Holding<'a>>>
    ensures noted { OnOk result (first.new
        ≡ noted first.old (flat_map duplicates_in_composition (compositions component.entry.now))) }
    ensures holdings { IfOk result (λ v. v.items ≡ compositions component.entry.now) }
{
    let mut holdings = Vec::new(alloc);
    for member in component.members.as_slice() {
        if let Member::Composition(composition) = member {
            holdings.push(Holding::of(alloc, composition, first)?)?;
        }
    }
    Ok(holdings)
}

impl<'a> ComponentTable<'a> {
    /// The table of a component. Notes the names that stand twice, and second compositions and configurations.
    pub fn of(
        alloc: Global,
        component: &'a Component,
        first: &mut Earliest<'a>,
    ) -> Made<ComponentTable<'a>>
        ensures noted { OnOk result (first.new ≡ noted first.old (duplicates_in_component component.entry.now)) }
        ensures table { IfOk result (λ t. t ≡ component.entry.now) }
    {
        let declared = declared_of(alloc, component, first)?;
        note_again(component, first);
        let holdings = holdings(alloc, component, first)?;
        Ok(ComponentTable {
            component,
            declared,
            holdings,
        })
    }

    /// What the name stands for.
    fn declared(&self, name: &Name) -> Option<Declared<'a>>
        ensures { option_map declared_told result ≡ declared_as self.now name.now }
    {
        match self.declared.first() {
            None => declared_under(self.component.members.as_slice(), name.as_bytes()),
            Some(table) => table.get(name).copied(),
        }
    }

    /// The interface that the name stands for.
    pub fn interface(&self, name: &Name) -> Option<&'a Interface>
        ensures { option_copied result ≡ interface_of self.now name.now }
    {
        match self.declared(name)? {
            Declared::Interface(interface) => Some(interface),
            _ => None,
        }
    }

    /// The attribute that the name stands for.
    pub fn attribute(&self, name: &Name) -> Option<&'a Attribute>
        ensures { option_copied result ≡ attribute_of self.now name.now }
    {
        match self.declared(name)? {
            Declared::Attribute(attribute) => Some(attribute),
            _ => None,
        }
    }

    /// What its compositions hold, in their order.
    pub fn holdings(&self) -> &[Holding<'a>]
        ensures { result.now ≡ compositions self.now }
    {
        self.holdings.as_slice()
    }

    /// What its composition holds, the first; a leaf has none.
    pub fn holding(&self) -> Option<&Holding<'a>>
        ensures { option_copied result ≡ composition_of self.now }
    {
        self.holdings.as_slice().first()
    }

    /// Whether an export of its composition has the name as target.
    pub fn exports(&self, name: &Name) -> bool
        ensures { result ≡ is_exported (composition_of self.now) name.now }
    {
        match self.holding() {
            None => false,
            Some(holding) => holding.exports(name),
        }
    }
}

/// The interface that the name stands for in the component that has a composition; an assembly has none.
pub fn target<'a>(owner: Option<&ComponentTable<'a>>, name: &Name) -> Option<&'a Interface>
    ensures { option_copied result ≡ option_and_then (λ c. c.interface name.now) (owner_of owner.entry) }
{
    owner?.interface(name)
}
