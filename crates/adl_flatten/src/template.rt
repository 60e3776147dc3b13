//! The template of a body, from those of its instances' components.

ghost use Rattle.adl_meaning.specs.Prelude.{body, leaves, top_number};
ghost use Rattle.adl_flatten.specs.AreTemplates.{AreBefore, AreInner, IsInside, IsLedInside, IsReady, IsTemplate};
ghost use Rattle.adl_flatten.specs.Templates.{connections_by, export_target, leaves_by, led_end_by, own_connections, target_by, target_of};
ghost use Rattle.adl_flatten.specs.declared.template.Template.{Template as TemplateOf};
ghost use Rattle.name_tables.specs.ByName.{found};
ghost use Rattle.cam_base.specs.Gather.{gather};
ghost use Rattle.std.specs.Prelude.{IfOk, List as Seq, OnOk, length, slice_index_or, ℕ, ◌++◌, ◌+◌, ◌<◌, ◌^◌, ◌≡◌};

use crate::held::held_bodies;
use crate::place::{behind, home_of, place_connections};
use crate::placed::{PlacedConnection, PlacedEnd, PlacedLeaf};
use adl_ast::{Id, Line};
use adl_program::{LedEnd, Part, PartAt, Program, port_in};
use cam_base::{List, Made, Name};
use name_tables::NameTable;
use std::alloc::Global;

/// What a body holds: its leaves and its connections in order, and the numbers of the leaves that its exports lead to.
#[derive(Drop)]
pub struct Template<'a> {
    pub leaves: Vec<PlacedLeaf<'a>>,
    pub connections: Vec<PlacedConnection<'a>>,
    pub targets: NameTable<'a, Option<u32>>,
}

impl<'a> Template<'a> {
    /// The template of nothing.
    fn empty(alloc: Global) -> Template<'a> {
        Template {
            leaves: Vec::new(alloc),
            connections: Vec::new(alloc),
            targets: NameTable::new(alloc),
        }
    }
}

/// Adds the leaves that an instance stands for.
fn place_part<'a>(
    alloc: Global,
    program: &Program<'a>,
    all: &[Template<'a>],
    part: &Part<'a>,
    leaves: &mut Vec<PlacedLeaf<'a>>,
) -> Made<()>
    requires within { part.now.kind < length all.now }
    requires each { (t : TemplateOf) → IsTemplate program.now part.now.kind (slice_index_or all.now part.now.kind t) }
    ensures { OnOk result (leaves.new.items ≡ leaves.old.items ++ leaves_by program.now part.now) }
{
    let name = &part.instance.id.name;
    if !program.body(part.kind).is_composite() {
        leaves.push(PlacedLeaf {
            path: behind(alloc, name, &[])?,
            instance: part.instance,
            group: part.group,
            kind: part.kind,
            home: home_of(alloc, part, &None)?,
        })?;
        return Ok(());
    }
    for leaf in all[part.kind as usize].leaves.as_slice() {
        leaves.push(PlacedLeaf {
            path: behind(alloc, name, leaf.path.as_slice())?,
            home: home_of(alloc, part, &leaf.home)?,
            ..*leaf
        })?;
    }
    Ok(())
}

/// The number of the leaf that an interface of an instance leads to.
fn target_by(
    program: &Program<'_>,
    all: &[Template<'_>],
    before: &[u32],
    at: PartAt,
    name: &Name,
) -> Option<u32>
    requires ready { IsReady program.now }
    requires inside { IsInside program.now all.now before.now at }
    ensures { result ≡ target_by program.now (slice_index_or before.now at.number 0) at.kind name.now }
{
    let before = before[at.number];
    if !program.body(at.kind).is_composite() {
        return Some(before);
    }
    let leaf = all[at.kind as usize].targets.get(name).copied().flatten()?;
    Some(before + leaf)
}

/// That of the leaf that a dotted name leads to in the body of the number.
fn target_of(
    program: &Program<'_>,
    all: &[Template<'_>],
    before: &[u32],
    number: u32,
    words: &[Id],
) -> Option<u32>
    requires inner { AreInner program.now number all.now }
    requires before { AreBefore program.now number before.now }
    ensures { result ≡ target_of program.now number words.now }
{
    let (part, interface) = port_in(words)?;
    let at = program.body(number).part(part)?;
    target_by(program, all, before, at, interface)
}

/// An end with the interface of a leaf that it joins.
fn placed_end<'a>(
    program: &Program<'a>,
    all: &[Template<'a>],
    before: &[u32],
    led: &LedEnd<'a>,
) -> Option<PlacedEnd<'a>>
    requires ready { IsReady program.now }
    requires inside { IsLedInside program.now all.now before.now led.now }
    ensures { result ≡ led_end_by program.now before.now led.now }
{
    let lead = led.lead?;
    let (_, interface) = port_in(led.end.words.as_slice())?;
    let leaf = target_by(program, all, before, lead.part, interface)?;
    Some(PlacedEnd {
        end: led.end,
        leaf,
        member: lead.port.member as u32,
        once: lead.port.once,
    })
}

/// Where the exports of the body of the number lead.
fn targets_of<'a>(
    alloc: Global,
    program: &Program<'a>,
    all: &[Template<'a>],
    before: &[u32],
    number: u32,
) -> Made<NameTable<'a, Option<u32>>>
    requires inner { AreInner program.now number all.now }
    requires before { AreBefore program.now number before.now }
    ensures { IfOk result (λ t. (n : Seq ℕ) → found t n ≡ export_target program.now number n) }
{
    let mut targets = NameTable::new(alloc);
    let Some(composition) = program.body(number).composition() else {
        return Ok(targets);
    };
    for line in composition.lines.as_slice() {
        if let Line::Export(export) = line {
            let target = target_of(program, all, before, number, export.words.as_slice());
            targets.add(&export.target.name, target)?;
        }
    }
    Ok(targets)
}

/// The connections of the body of the number: those of its composition, and those inside its instances.
fn connections_of<'a>(
    alloc: Global,
    program: &Program<'a>,
    all: &[Template<'a>],
    before: &[u32],
    number: u32,
) -> Made<Vec<PlacedConnection<'a>>>
    requires inner { AreInner program.now number all.now }
    requires before { AreBefore program.now number before.now }
    ensures { IfOk result (λ v. v.items ≡ own_connections program.now number
        ++ gather (connections_by program.now number) (body program.now number).parts) }
{
    let wires = program.wires(number);
    let mut connections = Vec::with_capacity(alloc, wires.len())?;
    for wire in wires {
        let mut ends = Vec::with_capacity(alloc, wire.ends.len())?;
        for end in wire.ends.as_slice() {
            if let Some(end) = placed_end(program, all, before, end) {
                ends.push(end)?;
            }
        }
        connections.push(PlacedConnection {
            path: List::new(alloc),
            connector: wire.connector,
            connection: wire.connection,
            ends,
        })?;
    }
    for (i, part) in program.body(number).parts().iter().enumerate() {
        let inner = all[part.kind as usize].connections.as_slice();
        place_connections(alloc, part, before[i], inner, &mut connections)?;
    }
    Ok(connections)
}

/// The template of the body of the number.
#[tactic(auto, using(crate::proofs::Bounds::few_before))]
fn template_of<'a>(
    alloc: Global,
    program: &Program<'a>,
    all: &[Template<'a>],
    number: u32,
) -> Made<Template<'a>>
    requires { AreInner program.now number all.now }
    ensures { IfOk result (λ t. IsTemplate program.now number t) }
{
    let mut leaves = Vec::new(alloc);
    let mut before = Vec::new(alloc);
    for part in program.body(number).parts() {
        before.push(leaves.len() as u32)?;
        place_part(alloc, program, all, part, &mut leaves)?;
    }
    let before = before.as_slice();
    let connections = connections_of(alloc, program, all, before, number)?;
    let targets = targets_of(alloc, program, all, before, number)?;
    Ok(Template {
        leaves,
        connections,
        targets,
    })
}

/// The template of the assembly, from those of the bodies that it holds.
///
/// # Errors
///
/// Want of memory.
pub fn assembly_template<'a>(alloc: Global, program: &Program<'a>) -> Made<Template<'a>>
    requires ready { IsReady program.now }
    requires few { length (leaves program.now) < 2 ^ 32 }
    ensures { IfOk result (λ t. IsTemplate program.now (top_number program.now) t) }
{
    let held = held_bodies(alloc, program)?;
    let mut all = Vec::with_capacity(alloc, held.len())?;
    for _count in 0..program.top_number() + 1 {
        all.push_reserved(Template::empty(alloc));
    }
    for number in program.order() {
        if held[*number as usize] {
            let template = template_of(alloc, program, all.as_slice(), *number)?;
            let _empty = std::mem::replace(&mut all[*number as usize], template);
        }
    }
    let top = program.top_number() as usize;
    Ok(std::mem::replace(&mut all[top], Template::empty(alloc)))
}
