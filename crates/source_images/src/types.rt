//! The types of software, and their numbers.

ghost use Rattle.name_tables.specs.ByName.{found};
ghost use Rattle.source_images.specs.Told.{names_told, with_type};
ghost use Rattle.source_images.specs.Types.{type_number, type_of, types};
ghost use Rattle.std.specs.Option.{option_and_then, option_copied};
ghost use Rattle.std.specs.Prelude.{◌≡◌, ◌<◌, ◌≤◌, ◌^◌, ℕ, length, map, position, List as Items, IfOk, OnOk};
ghost use Rattle.std.specs.Str.{bytes_eq};

use adl_ast::{Item, Source};
use adl_meaning::{Flat, Leaf};
use cam_base::{List, Made, Name};
use name_tables::NameTable;
use std::alloc::Global;

/// The types of software, by number and by name.
#[derive(Drop)]
pub struct Types<'a> {
    pub names: Vec<&'a Name>,
    pub numbers: NameTable<'a, u32>,
}

/// The type of a leaf, the name of its component; a device has none.
fn type_of<'a>(source: &'a Source, leaf: &Leaf) -> Option<&'a Name>
    ensures { option_copied result ≡ type_of source.entry.now leaf.now }
{
    if leaf.hardware {
        return None;
    }
    let at = leaf.component;
    let file = source.files.as_slice().get(at.file as usize)?;
    let ended = file.tree.items.as_slice().get(at.item as usize)?;
    match &ended.item {
        Item::Component(component) => Some(&component.id.name),
        Item::Import(_) | Item::Procedure(_) | Item::Assembly(_) => None,
    }
}

impl<'a> Types<'a> {
    /// Adds a type, unless it is there.
    fn add(&mut self, name: &'a Name) -> Made<()>
        requires few { length self.old.names.items < 2 ^ 32 }
        requires told { (n : Items ℕ) → found self.old.numbers n ≡ position (bytes_eq n) (names_told self.old.names.items) }
        ensures told { OnOk result ((n : Items ℕ)
            → found self.new.numbers n ≡ position (bytes_eq n) (names_told self.new.names.items)) }
        ensures names { OnOk result (names_told self.new.names.items
            ≡ with_type (names_told self.old.names.items) name.entry.now) }
    {
        if self.numbers.get(name).is_none() {
            let number = self.names.len() as u32;
            self.names.push(name)?;
            self.numbers.add(name, number)?;
        }
        Ok(())
    }
}

/// The types of a system's software.
pub fn types_of<'a>(alloc: Global, source: &'a Source, flat: &Flat) -> Made<Types<'a>>
    requires { length flat.now.leaves < 2 ^ 32 }
    ensures told { IfOk result (λ t. (n : Items ℕ) → found t.numbers n
        ≡ position (bytes_eq n) (types source.entry.now flat.now)) }
    ensures names { IfOk result (λ t. names_told t.names.items ≡ types source.entry.now flat.now) }
    ensures few { IfOk result (λ t. length t.names.items ≤ length flat.now.leaves) }
{
    let mut types = Types {
        names: Vec::new(alloc),
        numbers: NameTable::new(alloc),
    };
    for leaf in flat.leaves.as_slice() {
        if let Some(name) = type_of(source, leaf) {
            types.add(name)?;
        }
    }
    Ok(types)
}

/// The number of a leaf's type, where the types have these numbers; a device has none.
pub fn number_of(source: &Source, leaf: &Leaf, numbers: &NameTable<'_, u32>) -> Option<u32>
    ensures { result ≡ option_and_then (found numbers.now) (type_of source.now leaf.now) }
{
    numbers.get(type_of(source, leaf)?).copied()
}

/// The number of each leaf's type, where the types have these numbers.
pub fn numbers_of(
    alloc: Global,
    source: &Source,
    flat: &Flat,
    numbers: &NameTable<'_, u32>,
) -> Made<List<Option<u32>>>
    requires { (n : Items ℕ) → found numbers.now n ≡ position (bytes_eq n) (types source.now flat.now) }
    ensures { IfOk result (λ list. list ≡ map (type_number source.now flat.now) flat.now.leaves) }
{
    let mut list = List::from_vec(Vec::with_capacity(alloc, flat.leaves.len())?);
    for leaf in flat.leaves.as_slice() {
        list.push(number_of(source, leaf, numbers))?;
    }
    Ok(list)
}
