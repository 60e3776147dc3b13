//! The instances of a body.

ghost use Rattle.adl_meaning.specs.Prelude.{flat_map, parts_by};
ghost use Rattle.name_tables.specs.ByName.{found};
ghost use Rattle.std.specs.Prelude.{IfOk, ◌≡◌};

use adl_ast::{Instance, Line};
use adl_items::instances_by;
use cam_base::{Made, Name};
use name_tables::NameTable;
use std::alloc::Global;
use std::marker::Model;

/// An instance of a composition. Contracts see it as the part that it is.
#[derive(Drop)]
pub struct Part<'a> {
    pub instance: &'a Instance,
    /// The group that it stands in.
    pub group: Option<&'a Name>,
    /// The number of its component.
    pub kind: u32,
}

impl<'a> Model for Part<'a> {
    ghost use Rattle.adl_meaning.specs.Hierarchy.{Part as PartOf};
    ghost use Rattle.adl_meaning.specs.Prelude.{option_copied};

    ghost Value = { PartOf };

    ghost view = { λ x. record { instance = x.instance.now; group = option_copied x.group; kind = x.kind } };
}

/// An instance of a body: its number, and that of its component.
#[derive(Clone, Copy, Debug, PartialEq, Eq)]
pub struct PartAt {
    pub number: usize,
    pub kind: u32,
}

impl<'a> Part<'a> {
    /// The number of its component.
    pub fn kind(&self) -> u32
        ensures { result ≡ self.now.kind }
    {
        self.kind
    }
}

/// The instances of lines.
pub fn parts_of<'a>(
    alloc: Global,
    kinds: &NameTable<'_, u32>,
    lines: &'a [Line],
) -> Made<Vec<Part<'a>>>
    ensures { IfOk result (λ v. v.items ≡ flat_map (parts_by (found kinds.now)) lines.entry.now) }
{
    let mut parts = Vec::new(alloc);
    for line in lines {
        let group = match line {
            Line::Group(group) => Some(&group.id.name),
            _ => None,
        };
        for instance in instances_by(line) {
            if let Some(kind) = kinds.get(&instance.component.name) {
                parts.push(Part {
                    instance,
                    group,
                    kind: *kind,
                })?;
            }
        }
    }
    Ok(parts)
}
