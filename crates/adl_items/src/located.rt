//! The items of a source, each with its place.

ghost use Rattle.adl_meaning.specs.Prelude.{AreFew, as_assembly, as_component, as_procedure, assemblies, components, filter_map, items_in, items_of, slice_get};
ghost use Rattle.adl_meaning.specs.Items.{procedures};
ghost use Rattle.adl_items.specs.Located.{located};
ghost use Rattle.std.specs.Prelude.{◌≡◌, ◌<◌, ◌^◌, ◌++◌, map, length, option_map, OnOk, IfOk};

use adl_ast::{Assembly, Component, Item, Procedure, Source, SourceFile};
use adl_meaning::ItemAt;
use cam_base::Made;
use std::alloc::Global;
use std::marker::Model;

/// An item, and where it stands.
#[derive(Drop)]
pub struct Located<'a, T> {
    pub at: ItemAt,
    pub item: &'a T,
}

fn add_file<'a>(file: u32, tree: &'a SourceFile, items: &mut Vec<Located<'a, Item>>) -> Made<()>
    requires { length tree.now.tree.items < 2 ^ 32 }
    ensures { OnOk result (map located items.new.items ≡ map located items.old.items ++ items_in (file, tree.now)) }
{
    for (i, ended) in tree.tree.items.as_slice().iter().enumerate() {
        let at = ItemAt {
            file,
            item: i as u32,
        };
        items.push(Located {
            at,
            item: &ended.item,
        })?;
    }
    Ok(())
}

/// All items of a source, in order.
pub fn all_items<'a>(alloc: Global, source: &'a Source) -> Made<Vec<Located<'a, Item>>>
    requires { AreFew source.now }
    ensures { IfOk result (λ v. map located v.items ≡ items_of source.now) }
{
    let mut items = Vec::new(alloc);
    for (i, file) in source.files.as_slice().iter().enumerate() {
        add_file(i as u32, file, &mut items)?;
    }
    Ok(items)
}

/// The procedures among items.
fn procedures<'a>(alloc: Global, items: &[Located<'a, Item>]) -> Made<Vec<Located<'a, Procedure>>>
    ensures { IfOk result (λ v. map located v.items ≡ filter_map as_procedure (map located items.now)) }
{
    let mut found = Vec::new(alloc);
    for x in items {
        if let Item::Procedure(item) = x.item {
            found.push(Located { at: x.at, item })?;
        }
    }
    Ok(found)
}

/// The components among items.
pub fn components<'a>(
    alloc: Global,
    items: &[Located<'a, Item>],
) -> Made<Vec<Located<'a, Component>>>
    ensures { IfOk result (λ v. map located v.items ≡ filter_map as_component (map located items.now)) }
{
    let mut found = Vec::new(alloc);
    for x in items {
        if let Item::Component(item) = x.item {
            found.push(Located { at: x.at, item })?;
        }
    }
    Ok(found)
}

/// The assemblies among items.
fn assemblies<'a>(alloc: Global, items: &[Located<'a, Item>]) -> Made<Vec<Located<'a, Assembly>>>
    ensures { IfOk result (λ v. map located v.items ≡ filter_map as_assembly (map located items.now)) }
{
    let mut found = Vec::new(alloc);
    for x in items {
        if let Item::Assembly(assembly) = x.item {
            let item = assembly.get();
            found.push(Located { at: x.at, item })?;
        }
    }
    Ok(found)
}

/// The first assembly among items.
pub fn first_assembly<'a>(items: &[Located<'a, Item>]) -> Option<Located<'a, Assembly>>
    ensures { option_map located result ≡ slice_get (filter_map as_assembly (map located items.now)) 0 }
{
    for x in items {
        if let Item::Assembly(assembly) = x.item {
            let item = assembly.get();
            return Some(Located { at: x.at, item });
        }
    }
    None
}

/// A source with its items by kind. Contracts see it as the source.
#[derive(Drop)]
pub struct SourceItems<'a> {
    source: &'a Source,
    items: Vec<Located<'a, Item>>,
    procedures: Vec<Located<'a, Procedure>>,
    components: Vec<Located<'a, Component>>,
    assemblies: Vec<Located<'a, Assembly>>,
}

impl<'a> Model for SourceItems<'a> {
    ghost use Rattle.adl_meaning.specs.Prelude.{Source};

    ghost Value = { Source };

    ghost use Rattle.adl_ast.specs.contracts.value.ValueKind as values;
    ghost use Rattle.std.specs.Coded.{codes};

    ghost coded = { Prim.hlevel (codes, values.the_row.coded) };

    ghost use Rattle.adl_items.specs.Sorted.{AreSorted};

    ghost view = { λ t. t.source.now };

    ghost invariant = { λ t. AreSorted t.items.items t.procedures.items t.components.items t.assemblies.items t.source.now };
}

impl<'a> SourceItems<'a> {
    /// Sorts the items of a source.
    pub fn of(alloc: Global, source: &'a Source) -> Made<SourceItems<'a>>
        requires { AreFew source.now }
        ensures { IfOk result (λ t. t ≡ source.now) }
    {
        let items = all_items(alloc, source)?;
        let procedures = procedures(alloc, items.as_slice())?;
        let components = components(alloc, items.as_slice())?;
        let assemblies = assemblies(alloc, items.as_slice())?;
        Ok(SourceItems {
            source,
            items,
            procedures,
            components,
            assemblies,
        })
    }

    /// The source.
    pub fn source(&self) -> &'a Source
        ensures { result.now ≡ self.now }
    {
        self.source
    }

    /// Its items, in order.
    pub fn items(&self) -> &[Located<'a, Item>]
        ensures { map located result.now ≡ items_of self.now }
    {
        self.items.as_slice()
    }

    /// Its procedures, in order.
    pub fn procedures(&self) -> &[Located<'a, Procedure>]
        ensures { map located result.now ≡ procedures self.now }
    {
        self.procedures.as_slice()
    }

    /// Its components, in order.
    pub fn components(&self) -> &[Located<'a, Component>]
        ensures components { map located result.now ≡ components self.now }
        ensures few { length result.now < 2 ^ 32 }
    {
        self.components.as_slice()
    }

    /// Its assemblies, in order.
    pub fn assemblies(&self) -> &[Located<'a, Assembly>]
        ensures { map located result.now ≡ assemblies self.now }
    {
        self.assemblies.as_slice()
    }
}
