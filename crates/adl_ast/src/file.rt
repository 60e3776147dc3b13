ghost use Rattle.adl_ast.specs.Counts.{is_item, is_import, is_procedure, is_component, is_assembly};
ghost use Rattle.std.specs.List.{count_by};
ghost use Rattle.std.specs.Prelude.{◌≡◌};

use crate::{Assembly, Component, Procedure};
use cam_base::{Boxed, List, Place, Text};

/// A file: its items in order.
#[derive(Drop)]
pub struct File {
    pub items: List<Ended>,
}

/// An item, and whether a semicolon stands behind it.
#[derive(Drop)]
pub struct Ended {
    pub item: Item,
    pub semicolon: bool,
}

/// An item of a file.
#[derive(Drop)]
pub enum Item {
    Import(Import),
    Procedure(Procedure),
    Component(Component),
    Assembly(Boxed<Assembly>),
}

/// An import or an include. The path stands without its quotes or angle brackets; the place is that of the whole token.
#[derive(Drop)]
pub struct Import {
    pub path: Text,
    /// The path stood between angle brackets.
    pub angle: bool,
    pub place: Place,
}

#[derive(Clone, Copy)]
enum ItemKind {
    Imports,
    Procedures,
    Components,
    Assemblies,
}

fn is_item(kind: ItemKind, ended: &Ended) -> bool
    ensures { result ≡ is_item kind ended.now }
{
    match kind {
        ItemKind::Imports => matches!(ended.item, Item::Import(_)),
        ItemKind::Procedures => matches!(ended.item, Item::Procedure(_)),
        ItemKind::Components => matches!(ended.item, Item::Component(_)),
        ItemKind::Assemblies => matches!(ended.item, Item::Assembly(_)),
    }
}

fn number(kind: ItemKind, items: &[Ended]) -> usize
    ensures { result ≡ count_by (is_item kind) items.now }
{
    let mut count = 0;
    let mut rest = items;
    while let [ended, behind @ ..] = rest {
        if is_item(kind, ended) {
            count += 1;
        }
        rest = behind;
    }
    count
}

impl File {
    /// The numbers of imports, procedures, components and assemblies. Takes no memory.
    pub fn count(&self) -> (u64, u64, u64, u64)
        ensures { result ≡ (
          count_by is_import self.now.items,
          count_by is_procedure self.now.items,
          count_by is_component self.now.items,
          count_by is_assembly self.now.items,
        ) }
    {
        let items = self.items.as_slice();
        (
            number(ItemKind::Imports, items) as u64,
            number(ItemKind::Procedures, items) as u64,
            number(ItemKind::Components, items) as u64,
            number(ItemKind::Assemblies, items) as u64,
        )
    }
}
