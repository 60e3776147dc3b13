//! Bodies: components and the assembly.

ghost use Rattle.adl_meaning.specs.Prelude.{Id as Word, attribute_of, body_of, bytes_eq, configurations, declared_as, declared_by, flat_map, is_device, is_group, is_interface, joins_once, list_any, option_and_then, option_copied, option_map_or, option_or, parts_in, place_by, slice_get, top_of};
ghost use Rattle.adl_meaning.specs.Members.{Declared as Told};
ghost use Rattle.name_tables.specs.ByName.{found};
ghost use Rattle.adl_items.specs.Declaring.{declared_told, declaring_told};
ghost use Rattle.adl_items.specs.Firsts.{first_named};
ghost use Rattle.adl_items.specs.Located.{located};
ghost use Rattle.adl_program.specs.LeafInterfaces.{leaf_placed, port_at};
ghost use Rattle.adl_program.specs.Seen.{AreMembers, IsComposed, part_from, parts_seen};
ghost use Rattle.std.specs.Prelude.{IfOk, IfSome, List as Seq, OnOk, Some, false, is_some, length, option_map, unwrap_or, ℕ, ◌++◌, ◌≡◌};

use crate::part::{Part, PartAt, parts_of};
use adl_ast::{
    Assembly, Attribute, Component, Composition, Configuration, Interface, InterfaceKind, Member,
};
use adl_items::{Declared, Located, composition_of, declared_under, is_device};
use adl_meaning::ItemAt;
use cam_base::{Made, Name};
use name_tables::{FEW, NameTable};
use std::alloc::Global;
use std::marker::Model;

/// A component or the assembly. Contracts see it as the body that it is.
#[derive(Drop)]
pub struct Body<'a> {
    item: Option<ItemAt>,
    component: Option<&'a Component>,
    composition: Option<&'a Composition>,
    configuration: Option<&'a Configuration>,
    /// What stands in its composition, one or none: most bodies have none, and a list of none takes little room.
    composed: Vec<Composed<'a>>,
    /// What stands among the members of its component, where they are many; else none.
    members: Vec<Members<'a>>,
}

/// What stands in a composition.
#[derive(Drop)]
pub struct Composed<'a> {
    parts: Vec<Part<'a>>,
    named: NameTable<'a, PartAt>,
    groups: NameTable<'a, ()>,
}

/// What stands among the members of a component.
#[derive(Drop)]
pub struct Members<'a> {
    declared: NameTable<'a, Declared<'a>>,
    /// The place of the first interface of each name.
    places: NameTable<'a, usize>,
    count: usize,
    /// Whether one of them says `hardware`.
    hardware: bool,
}

/// An interface of a leaf, and whether the leaf is a device. Contracts see it as the two.
#[derive(Drop)]
pub struct Leaf<'a> {
    pub interface: &'a Interface,
    pub hardware: bool,
}

impl<'a> Model for Leaf<'a> {
    ghost use Rattle.adl_program.specs.LeafInterfaces.{LeafInterface};

    ghost Value = { LeafInterface };

    ghost view = { λ l. record { interface = l.interface.now; hardware = l.hardware } };
}

/// What the name of an interface means in a leaf.
#[derive(Clone, Copy)]
pub struct Port {
    /// The number of the leaf's component.
    pub kind: u32,
    /// The place of the interface among its members; where none has the name, their number.
    pub member: usize,
    /// Whether one end alone may join it.
    pub once: bool,
}

impl<'a> Model for Body<'a> {
    ghost use Rattle.adl_meaning.specs.Hierarchy.{Body as BodyOf};

    ghost Value = { BodyOf };

    ghost use Rattle.adl_ast.specs.contracts.value.ValueKind as values;
    ghost use Rattle.std.specs.Coded.{codes};

    ghost coded = { Prim.hlevel (codes, values.the_row.coded) };

    ghost use Rattle.adl_program.specs.Seen.{body_seen, IsIndexed};

    ghost view = { body_seen };

    ghost invariant = { IsIndexed };
}

impl<'a> Body<'a> {
    /// Where it stands.
    pub fn item(&self) -> Option<ItemAt>
        ensures { result ≡ self.now.item }
    {
        self.item
    }

    /// Its component; the assembly is none.
    pub fn component(&self) -> Option<&'a Component>
        ensures { option_copied result ≡ self.now.component }
    {
        self.component
    }

    /// Its composition; a leaf has none.
    pub fn composition(&self) -> Option<&'a Composition>
        ensures { option_copied result ≡ self.now.composition }
    {
        self.composition
    }

    /// Its first configuration.
    pub fn configuration(&self) -> Option<&'a Configuration>
        ensures { option_copied result ≡ self.now.configuration }
    {
        self.configuration
    }

    /// Whether it has a composition; a component without one is a leaf.
    pub fn is_composite(&self) -> bool
        ensures { result ≡ is_some self.now.composition }
    {
        self.composition.is_some()
    }

    /// Whether its component says `hardware`.
    pub fn is_hardware(&self) -> bool
        ensures { result ≡ option_map_or is_device self.now.component false }
    {
        match self.members.first() {
            None => match self.component {
                None => false,
                Some(component) => is_device(component),
            },
            Some(members) => members.hardware,
        }
    }

    /// Its instances, in order.
    pub fn parts(&self) -> &[Part<'a>]
        ensures { result.now ≡ self.now.parts }
    {
        match self.composed.as_slice() {
            [] => &[],
            [composed, ..] => composed.parts.as_slice(),
        }
    }

    /// The first instance of the name.
    pub fn part(&self, name: &Name) -> Option<PartAt>
        ensures { result ≡ part_from 0 self.now.parts name.now }
    {
        self.composed.first()?.named.get(name).copied()
    }

    /// Whether one of its groups has the name.
    pub fn has_group(&self, name: &[u8]) -> bool
        ensures { result ≡ is_group self.now name.now }
    {
        match self.composed.first() {
            None => false,
            Some(composed) => composed.groups.get_bytes(name).is_some(),
        }
    }

    /// What its component declares under the name.
    fn declared(&self, name: &[u8]) -> Option<Declared<'a>>
        ensures { option_map declared_told result ≡ option_and_then (λ c. declared_as c name.now) self.now.component }
    {
        match self.members.first() {
            None => declared_under(self.component?.members.as_slice(), name),
            Some(members) => members.declared.get_bytes(name).copied(),
        }
    }

    /// The attribute that its component declares under the name.
    pub fn attribute(&self, name: &[u8]) -> Option<&'a Attribute>
        ensures { option_copied result ≡ option_and_then (λ c. attribute_of c name.now) self.now.component }
    {
        match self.declared(name)? {
            Declared::Attribute(attribute) => Some(attribute),
            _ => None,
        }
    }

    /// The place of the interface among the members of its component; where it has none, their number.
    fn member_number(&self, name: &Name) -> usize
        ensures { result ≡ option_map_or (λ c. place_by (is_interface name.now) c.members) self.now.component 0 }
    {
        match self.members.first() {
            None => match self.component {
                None => 0,
                Some(component) => place_in(component.members.as_slice(), name),
            },
            Some(members) => members.place(name),
        }
    }

    /// Whether one end alone may join the interface that its component declares under the name.
    fn joins_once(&self, name: &Name) -> bool
        ensures { result ≡ (port_at 0 self.now name.now).once }
    {
        match self.declared(name.as_bytes()) {
            Some(Declared::Interface(interface)) => match interface.kind {
                InterfaceKind::Uses | InterfaceKind::Consumes => true,
                InterfaceKind::Emits => self.is_hardware(),
                InterfaceKind::Provides | InterfaceKind::Dataport => false,
            },
            _ => false,
        }
    }

    /// What the name of an interface means in it, if it is a leaf: `kind` is its number.
    pub fn port(&self, kind: u32, name: &Name) -> Port
        ensures { result ≡ port_at kind self.now name.now }
    {
        Port {
            kind,
            member: self.member_number(name),
            once: self.joins_once(name),
        }
    }

    /// The interface at a place among the members of its component, as typing looks at it.
    pub fn leaf(&self, member: usize) -> Option<Leaf<'a>>
        ensures { result ≡ leaf_placed member self.now }
    {
        let component = self.component?;
        match component.members.as_slice().get(member) {
            Some(Member::Interface(interface)) => Some(Leaf {
                interface,
                hardware: self.is_hardware(),
            }),
            _ => None,
        }
    }
}

impl<'a> Members<'a> {
    /// The place of the interface; where none has the name, the number of members.
    fn place(&self, name: &Name) -> usize
        ensures { result ≡ unwrap_or (found self.now.places name.now) self.now.count }
    {
        self.places.get(name).copied().unwrap_or(self.count)
    }
}

/// The place of the interface among members; where none has the name, their number.
fn place_in(members: &[Member], name: &Name) -> usize
    ensures { result ≡ place_by (is_interface name.now) members.now }
{
    for (place, member) in members.iter().enumerate() {
        if let Member::Interface(interface) = member
            && interface.id.name == *name
        {
            return place;
        }
    }
    members.len()
}

/// The configuration of a component, the first.
fn configuration_of(component: &Component) -> Option<&Configuration>
    ensures { option_copied result ≡ slice_get (configurations component.now) 0 }
{
    for member in component.members.as_slice() {
        if let Member::Configuration(configuration) = member {
            return Some(configuration);
        }
    }
    None
}

/// Instances by name, where the first of a name counts, and the names of groups.
#[tactic(auto, using(crate::proofs::Tables::filling, std::proofs::lemmas::Grind::common_steps))]
fn names_of<'a>(
    alloc: Global,
    parts: &[Part<'a>],
) -> Made<(NameTable<'a, PartAt>, NameTable<'a, ()>)>
    ensures parts { IfOk result (λ t. (n : Seq ℕ) → found t.0 n ≡ part_from 0 parts.now n) }
    ensures groups { IfOk result (λ t. (n : Seq ℕ)
        → is_some (found t.1 n) ≡ list_any (λ x. option_map_or (bytes_eq n) x.group false) parts.now) }
{
    let mut named = NameTable::with_room(alloc, parts.len())?;
    let mut groups = NameTable::new(alloc);
    for (number, part) in parts.iter().enumerate() {
        let kind = part.kind;
        named.add(&part.instance.id.name, PartAt { number, kind })?;
        if let Some(name) = part.group {
            groups.add(name, ())?;
        }
    }
    Ok((named, groups))
}

/// What stands in a composition that may be absent.
fn composed_of<'a>(
    alloc: Global,
    kinds: &NameTable<'_, u32>,
    composition: Option<&'a Composition>,
) -> Made<Vec<Composed<'a>>>
    ensures parts { IfOk result (λ v. parts_seen (slice_get v.items 0)
        ≡ parts_in (found kinds.now) (option_copied composition.entry)) }
    ensures tables { IfOk result (λ v. IsComposed (slice_get v.items 0)) }
{
    let Some(composition) = composition else {
        return Ok(Vec::new(alloc));
    };
    let lines = composition.lines.as_slice();
    let parts = parts_of(alloc, kinds, lines)?;
    let (named, groups) = names_of(alloc, parts.as_slice())?;
    let mut composed = Vec::with_capacity(alloc, 1)?;
    composed.push(Composed {
        parts,
        named,
        groups,
    })?;
    Ok(composed)
}

/// Puts what a member declares under its name, where the name has nothing yet.
#[tactic(auto, using(crate::proofs::Tables::filling, std::proofs::lemmas::Grind::common_steps))]
fn declare<'a>(member: &'a Member, table: &mut NameTable<'a, Declared<'a>>) -> Made<()>
    ensures { OnOk result ((n : Seq ℕ) (more : Seq (Word × Told)) → option_or (declaring_told table.new n) (first_named more n)
        ≡ option_or (declaring_told table.old n) (first_named (declared_by member.entry.now ++ more) n)) }
{
    match member {
        Member::Interface(it) => table.add(&it.id.name, Declared::Interface(it)),
        Member::Attribute(it) => table.add(&it.id.name, Declared::Attribute(it)),
        Member::Lock(it) => table.add(&it.id.name, Declared::Lock(it)),
        _ => Ok(()),
    }
}

/// What members declare, by name. The first of a name counts.
#[tactic(auto, using(crate::proofs::Tables::filling, std::proofs::lemmas::Grind::common_steps))]
fn declared_in<'a>(alloc: Global, members: &'a [Member]) -> Made<NameTable<'a, Declared<'a>>>
    ensures { IfOk result (λ t. (n : Seq ℕ) → declaring_told t n ≡ first_named (flat_map declared_by members.entry.now) n) }
{
    let mut declared = NameTable::with_room(alloc, members.len())?;
    for member in members {
        declare(member, &mut declared)?;
    }
    Ok(declared)
}

/// Where interfaces stand among members, by name. The first of a name counts.
#[tactic(auto, using(crate::proofs::Tables::filling, std::proofs::lemmas::Grind::common_steps))]
fn places_in<'a>(alloc: Global, members: &'a [Member]) -> Made<NameTable<'a, usize>>
    ensures { IfOk result (λ t. (n : Seq ℕ) → unwrap_or (found t n) (length members.entry.now)
        ≡ place_by (is_interface n) members.entry.now) }
{
    let interfaces = members.iter().filter(|m| matches!(m, Member::Interface(_)));
    let mut places = NameTable::with_room(alloc, interfaces.count())?;
    for (place, member) in members.iter().enumerate() {
        if let Member::Interface(interface) = member {
            places.add(&interface.id.name, place)?;
        }
    }
    Ok(places)
}

/// What stands among the members of a component.
fn members_of<'a>(alloc: Global, component: &'a Component) -> Made<Members<'a>>
    ensures { IfOk result (λ t. AreMembers (Some component.entry.now) t) }
{
    let members = component.members.as_slice();
    Ok(Members {
        declared: declared_in(alloc, members)?,
        places: places_in(alloc, members)?,
        count: members.len(),
        hardware: is_device(component),
    })
}

/// What stands among the members of a component, where they are many; else none.
fn many_of<'a>(alloc: Global, component: &'a Component) -> Made<Vec<Members<'a>>>
    ensures { IfOk result (λ v. IfSome (slice_get v.items 0) (AreMembers (Some component.entry.now))) }
{
    let mut many = Vec::new(alloc);
    if component.members.len() <= FEW {
        return Ok(many);
    }
    many.push(members_of(alloc, component)?)?;
    Ok(many)
}

/// The body of a component.
pub fn body_of<'a>(
    alloc: Global,
    kinds: &NameTable<'_, u32>,
    it: &Located<'a, Component>,
) -> Made<Body<'a>>
    ensures { IfOk result (λ b. b ≡ body_of (found kinds.now) (it.now.at, it.now.item.now)) }
{
    let composition = composition_of(it.item);
    Ok(Body {
        item: Some(it.at),
        component: Some(it.item),
        composition,
        configuration: configuration_of(it.item),
        composed: composed_of(alloc, kinds, composition)?,
        members: many_of(alloc, it.item)?,
    })
}

/// The body of an assembly that may be absent.
pub fn top_of<'a>(
    alloc: Global,
    kinds: &NameTable<'_, u32>,
    it: &Option<Located<'a, Assembly>>,
) -> Made<Body<'a>>
    ensures { IfOk result (λ b. b ≡ top_of (found kinds.now) (option_map located it.now)) }
{
    let (item, composition, configuration) = match it {
        None => (None, None, None),
        Some(it) => {
            let assembly = it.item;
            let configuration = assembly.configuration.as_ref();
            (Some(it.at), Some(&assembly.composition), configuration)
        }
    };
    Ok(Body {
        item,
        component: None,
        composition,
        configuration,
        composed: composed_of(alloc, kinds, composition)?,
        members: Vec::new(alloc),
    })
}
