//! The items of a source, with what the names in them stand for.

ghost use Rattle.adl_meaning.specs.Prelude.{Fault, component_of, components, duplicates, duplicates_in_item, flat_map, is_procedure, items_of, noted, option_copied, repeats};
ghost use Rattle.adl_names.specs.Words.{found};
ghost use Rattle.std.specs.Prelude.{IfOk, List as Seq, OnOk, map, ℕ, ◌++◌, ◌≡◌};
ghost use Rattle.adl_names.specs.Bodies.{item_number, item_of};

use crate::repeats::{note_procedure, put};
use crate::tables::{ComponentTable, Holding};
use adl_ast::{Assembly, Import, Item, Procedure, Source};
use adl_items::SourceItems;
use adl_meaning::Earliest;
use cam_base::{Boxed, Made, Name};
use name_tables::NameTable;
use std::alloc::Global;
use std::marker::Model;

/// An item with what the names in it stand for.
#[derive(Drop)]
pub enum Body<'a> {
    Import(&'a Import),
    Procedure(&'a Procedure),
    Component(ComponentTable<'a>),
    /// An assembly, and its composition.
    Assembly(&'a Assembly, Boxed<Holding<'a>>),
}

/// A source with what its names stand for. Contracts see it as the source.
#[derive(Drop)]
pub struct SourceTables<'a> {
    source: &'a Source,
    bodies: Vec<Body<'a>>,
    /// The number of the first component of each name.
    components: NameTable<'a, usize>,
    procedures: NameTable<'a, ()>,
}

impl<'a> Model for SourceTables<'a> {
    ghost use Rattle.adl_ast.specs.contracts.value.ValueKind as values;
    ghost use Rattle.adl_meaning.specs.Prelude.{Source};
    ghost use Rattle.adl_names.specs.Bodies.{AreKnown};
    ghost use Rattle.std.specs.Coded.{codes};

    ghost Value = { Source };

    ghost coded = { Prim.hlevel (codes, values.the_row.coded) };

    ghost view = { λ n. n.source.now };

    ghost invariant = { λ n. AreKnown n.bodies.items n.components n.procedures n.source.now };
}

/// An item with what the names in it stand for. Notes those that stand twice.
fn body_of<'a>(alloc: Global, item: &'a Item, first: &mut Earliest<'a>) -> Made<Body<'a>>
    ensures noted { OnOk result ((more : Seq Fault) → noted first.new more
        ≡ noted first.old (duplicates_in_item item.entry.now ++ more)) }
    ensures body { IfOk result (λ b. item_of b ≡ item.entry.now) }
{
    match item {
        Item::Import(it) => Ok(Body::Import(it)),
        Item::Procedure(it) => {
            note_procedure(alloc, it, first)?;
            Ok(Body::Procedure(it))
        }
        Item::Component(it) => Ok(Body::Component(ComponentTable::of(alloc, it, first)?)),
        Item::Assembly(it) => {
            let assembly = it.get();
            let holding = Holding::of(alloc, &assembly.composition, first)?;
            Ok(Body::Assembly(assembly, Boxed::new(alloc, holding)?))
        }
    }
}

/// Items with what the names in them stand for. Notes what stands twice within each item.
fn bodies<'a>(
    alloc: Global,
    items: &SourceItems<'a>,
    first: &mut Earliest<'a>,
) -> Made<Vec<Body<'a>>>
    ensures noted { OnOk result (first.new ≡ noted first.old (flat_map (λ x. duplicates_in_item x.1) (items_of items.now))) }
    ensures bodies { IfOk result (λ v. map item_of v.items ≡ map (λ x. x.1) (items_of items.now)) }
{
    let all = items.items();
    let mut bodies = Vec::with_capacity(alloc, all.len())?;
    for x in all {
        bodies.push_reserved(body_of(alloc, x.item, first)?);
    }
    Ok(bodies)
}

/// The number of the first component of each name among the items. Notes those that stand twice.
fn numbers<'a>(
    alloc: Global,
    items: &SourceItems<'a>,
    first: &mut Earliest<'a>,
) -> Made<NameTable<'a, usize>>
    ensures noted { OnOk result (first.new ≡ noted first.old (repeats (map (λ c. c.1.id) (components items.now)))) }
    ensures numbers { IfOk result (λ t. (n : Seq ℕ) → found t n ≡ item_number (map (λ x. x.1) (items_of items.now)) n) }
{
    let all = items.items();
    let mut numbers = NameTable::with_room(alloc, items.components().len())?;
    for (number, x) in all.iter().enumerate() {
        if let Item::Component(it) = x.item {
            put(&it.id, number, &mut numbers, first)?;
        }
    }
    Ok(numbers)
}

impl<'a> SourceTables<'a> {
    /// The tables of a source. Notes its duplicates.
    pub fn of(
        alloc: Global,
        items: &SourceItems<'a>,
        first: &mut Earliest<'a>,
    ) -> Made<SourceTables<'a>>
        ensures noted { OnOk result (first.new ≡ noted first.old (duplicates items.now)) }
        ensures tables { IfOk result (λ t. t ≡ items.now) }
    {
        let mut procedures = NameTable::with_room(alloc, items.procedures().len())?;
        for x in items.procedures() {
            put(&x.item.id, (), &mut procedures, first)?;
        }
        let components = numbers(alloc, items, first)?;
        let bodies = bodies(alloc, items, first)?;
        Ok(SourceTables {
            source: items.source(),
            bodies,
            components,
            procedures,
        })
    }

    /// The first component of the name.
    #[tactic(auto, using(crate::proofs::BodyLists::body_at))]
    pub fn component(&self, name: &Name) -> Option<&ComponentTable<'a>>
        ensures { option_copied result ≡ component_of self.now name.now }
    {
        let number = self.components.get(name)?;
        match self.bodies.as_slice().get(*number) {
            Some(Body::Component(table)) => Some(table),
            _ => None,
        }
    }

    /// Whether a procedure has the name.
    pub fn is_procedure(&self, name: &Name) -> bool
        ensures { result ≡ is_procedure self.now name.now }
    {
        self.procedures.get(name).is_some()
    }

    /// The items, in their order.
    pub fn bodies(&self) -> &[Body<'a>]
        ensures { map item_of result.now ≡ map (λ x. x.1) (items_of self.now) }
    {
        self.bodies.as_slice()
    }
}
