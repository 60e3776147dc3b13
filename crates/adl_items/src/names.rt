//! Names of items, and the last words of dotted names.

ghost use Rattle.adl_items.specs.Located.{trees};
ghost use Rattle.adl_meaning.specs.Prelude.{last_name, number_named};
ghost use Rattle.name_tables.specs.ByName.{found};
ghost use Rattle.std.specs.Prelude.{◌≡◌, ◌<◌, ◌^◌, ℕ, List as Seq, length, IfOk};

use crate::located::Located;
use adl_ast::{Component, Id};
use adl_meaning::ItemAt;
use cam_base::{Made, Name};
use indexmap::IndexMap;
use name_tables::NameTable;
use std::alloc::Global;

/// The first procedure and the first component of each name, in source order, and the assembly.
#[derive(Drop)]
pub struct Names {
    pub procedures: IndexMap<Name, ItemAt>,
    pub components: IndexMap<Name, ItemAt>,
    pub assembly: ItemAt,
}

/// The number of the first component of each name.
pub fn component_numbers<'a>(
    alloc: Global,
    components: &[Located<'a, Component>],
) -> Made<NameTable<'a, u32>>
    requires { length components.now < 2 ^ 32 }
    ensures { IfOk result (λ t. (n : Seq ℕ) → found t n ≡ number_named (trees components.now) n) }
{
    let mut table = NameTable::with_room(alloc, components.len())?;
    for (i, x) in components.iter().enumerate() {
        table.add(&x.item.id.name, i as u32)?;
    }
    Ok(table)
}

/// The last word of a dotted name.
pub fn last_name(words: &[Id]) -> &[u8]
    ensures { result.now ≡ last_name words.now }
{
    match words.last() {
        None => b"",
        Some(last) => last.name.as_bytes(),
    }
}
