//! What the names of a source stand for, or the first fault of names.

ghost use Rattle.adl_meaning.specs.Prelude.{AreFew, Refuses, Rises, as_component, as_procedure, assemblies, bytes_eq, component_named, first_name_fault, none_of, noted, option_or, procedure_named, second_of};
ghost use Rattle.adl_names.specs.Words.{get, located};
ghost use Rattle.std.specs.Prelude.{IfOk, List as Seq, None, OnOk, Some, [], if◌then◌else◌, map, option_map, ℕ, ◌++◌, ◌∷◌, ◌≡◌};
ghost use Rattle.adl_names.specs.Places.{Finds, StayRising, table_places};

use crate::bodies::SourceTables;
use crate::exports::note_misfits;
use crate::misplaced::note_misplaced;
use crate::recursion::note_recursive;
use crate::unknown::note_unknown;
use adl_ast::{Assembly, Item, Source};
use adl_items::{Located, Names, SourceItems};
use adl_meaning::{Earliest, ItemAt, noted_is_least};
use cam_base::{Code, Fault, Made, Name, Place, Refused};
use indexmap::IndexMap;
use std::alloc::Global;

/// Notes each assembly but the first, and where there is none.
fn note_assemblies<'a>(assemblies: &[Located<'a, Assembly>], first: &mut Earliest<'a>)
    ensures { first.new ≡ noted first.old (second_of (map located assemblies.now) ++ none_of (map located assemblies.now)) }
{
    let mut is_later = false;
    for x in assemblies {
        first.note(is_later, Code::SecondAssembly, x.item.place, b"");
        is_later = true;
    }
    let root = Place {
        file: 0,
        first: 0,
        end: 0,
    };
    first.note(!is_later, Code::NoAssembly, root, b"");
}

/// The first fault of names that stands in a source.
fn first_fault<'a>(alloc: Global, items: &SourceItems<'a>) -> Made<Earliest<'a>>
    ensures { IfOk result (λ first. first ≡ first_name_fault items.now) }
{
    noted_is_least();
    let mut first = Earliest::none();
    note_assemblies(items.assemblies(), &mut first);
    let tables = SourceTables::of(alloc, items, &mut first)?;
    note_unknown(&tables, &mut first);
    note_recursive(alloc, items, &mut first)?;
    note_misplaced(&tables, &mut first);
    note_misfits(alloc, &tables, &mut first)?;
    Ok(first)
}

/// Puts a place under its name, where the name has none yet.
#[tactic(auto, using(std::proofs::lemmas::Grind::common_steps, crate::proofs::Rising::rises_drop))]
fn add_place(alloc: Global, name: &Name, at: ItemAt, table: &mut IndexMap<Name, ItemAt>) -> Made<()>
    ensures first { OnOk result ((n : Seq ℕ) → get bytes_eq table.new n
        ≡ option_or (get bytes_eq table.old n) (if bytes_eq n name.now then Some at else None)) }
    ensures rises { OnOk result (StayRising table.old table.new at) }
{
    if !table.contains_key(name) {
        table.insert(name.copy(alloc)?, at)?;
    }
    Ok(())
}

/// Puts the place of a procedure or a component under its name, where the name has none yet.
#[tactic(auto, using(std::proofs::lemmas::Grind::common_steps, crate::proofs::Rising::rises_drop))]
fn add_item(
    alloc: Global,
    x: &Located<'_, Item>,
    procedures: &mut IndexMap<Name, ItemAt>,
    components: &mut IndexMap<Name, ItemAt>,
) -> Made<()>
    ensures procedures { OnOk result (Finds as_procedure (λ p. p.id.name) procedures.old procedures.new (located x.now)) }
    ensures components { OnOk result (Finds as_component (λ c. c.id.name) components.old components.new (located x.now)) }
    ensures procedures_rise { OnOk result (StayRising procedures.old procedures.new x.now.at) }
    ensures components_rise { OnOk result (StayRising components.old components.new x.now.at) }
{
    match x.item {
        Item::Procedure(it) => add_place(alloc, &it.id.name, x.at, procedures),
        Item::Component(it) => add_place(alloc, &it.id.name, x.at, components),
        Item::Import(_) | Item::Assembly(_) => Ok(()),
    }
}

/// Refuses a source in which a fault of names stands.
///
/// # Errors
///
/// The first fault of names, exactly where one stands: `adl_meaning/specs/NameFaults.antt`. Want of memory.
pub fn check_names(alloc: Global, source: &Source) -> Result<(), Refused<Fault>>
    requires { AreFew source.now }
    ensures { Refuses result (first_name_fault source.now) }
{
    let items = SourceItems::of(alloc, source)?;
    first_fault(alloc, &items)?.refuse(alloc)
}

/// What the names of a source stand for: for each name the first procedure and the first component that has it, and the
/// one assembly.
///
/// # Errors
///
/// The first fault of names, exactly where one stands: `adl_meaning/specs/NameFaults.antt`. Want of memory.
pub fn resolve(alloc: Global, source: &Source) -> Result<Names, Refused<Fault>>
    requires { AreFew source.now }
    ensures fault { Refuses result (first_name_fault source.now) }
    ensures procedures { IfOk result (λ names. (n : Seq ℕ) → get bytes_eq names.procedures n
        ≡ option_map (λ p. p.0) (procedure_named source.now n)) }
    ensures components { IfOk result (λ names. (n : Seq ℕ) → get bytes_eq names.components n
        ≡ option_map (λ c. c.0) (component_named source.now n)) }
    ensures procedures_rise { IfOk result (λ names. Rises (table_places names.procedures)) }
    ensures components_rise { IfOk result (λ names. Rises (table_places names.components)) }
    ensures assembly { IfOk result (λ names. map (λ a. a.0) (assemblies source.now) ≡ names.assembly ∷ []) }
{
    let items = SourceItems::of(alloc, source)?;
    first_fault(alloc, &items)?.refuse(alloc)?;
    let assembly = items.assemblies()[0].at;
    let mut procedures = IndexMap::new(alloc);
    let mut components = IndexMap::new(alloc);
    for x in items.items() {
        add_item(alloc, x, &mut procedures, &mut components)?;
    }
    Ok(Names {
        procedures,
        components,
        assembly,
    })
}
