//! A source, resolved.

ghost use Rattle.adl_meaning.specs.Prelude.{AreFew, AreNamesSound, IsInnerFirst, body, graph, hierarchy_of, top_number};
ghost use Rattle.adl_program.specs.LedEnds.{led_leaf, led_wires};
ghost use Rattle.std.specs.Prelude.{IfOk, ◌+◌, ◌<◌, ◌^◌, ◌≡◌, ◌≤◌};

use crate::bodies::{Bodies, bodies_of, graph};
use crate::body::{Body, Leaf};
use crate::leads::{Leads, all_leads};
use crate::wires::{LedEnd, LedWire};
use adl_ast::Source;
use adl_hierarchy::{inner_first, sound_hierarchies_are_finite};
use cam_base::{List, Made};
use std::alloc::Global;
use std::marker::Model;

/// A source in which no fault of names stands, with its names resolved. Contracts see it as the hierarchy of the source.
#[derive(Drop)]
pub struct Program<'a> {
    bodies: Bodies<'a>,
    leads: Vec<Leads<'a>>,
    order: List<u32>,
}

impl<'a> Model for Program<'a> {
    ghost use Rattle.adl_meaning.specs.Prelude.{Hierarchy};

    ghost Value = { Hierarchy };

    ghost use Rattle.adl_ast.specs.contracts.value.ValueKind as values;
    ghost use Rattle.std.specs.Coded.{codes};

    ghost coded = { Prim.hlevel (codes, values.the_row.coded) };

    ghost use Rattle.adl_program.specs.Leads.{AreResolved};

    ghost view = { λ p. p.bodies };

    ghost invariant = { λ p. AreResolved p.bodies p.leads.items p.order };
}

impl<'a> Program<'a> {
    /// Its bodies.
    pub fn bodies(&self) -> &Bodies<'a>
        ensures { result.now ≡ self.now }
    {
        &self.bodies
    }

    /// The number of the assembly, which is the number of components.
    pub fn top_number(&self) -> u32
        ensures number { result ≡ top_number self.now }
        ensures few { top_number self.now + 1 < 2 ^ 32 }
    {
        self.bodies.top_number()
    }

    /// The body of a number: a component, or the assembly.
    pub fn body(&self, number: u32) -> &Body<'a>
        ensures { result.now ≡ body self.now number }
    {
        self.bodies.body(number)
    }

    /// The numbers of its bodies, each after the components of its instances.
    pub fn order(&self) -> &[u32]
        ensures { IsInnerFirst (graph self.now) result.now }
    {
        self.order.as_slice()
    }

    /// The connections of the body of the number, in order, with where their ends lead.
    pub fn wires(&self, number: u32) -> &[LedWire<'a>]
        requires { number ≤ top_number self.now }
        ensures { result.now ≡ led_wires self.now number }
    {
        self.leads[number as usize].wires.as_slice()
    }

    /// The leaf interface that an end leads to.
    pub fn leaf(&self, end: &LedEnd<'_>) -> Option<Leaf<'a>>
        ensures { result ≡ led_leaf self.now end.now }
    {
        let port = end.lead?.port;
        self.body(port.kind).leaf(port.member)
    }
}

/// The program of a source.
///
/// # Errors
///
/// Want of memory.
pub fn program_of<'a>(alloc: Global, source: &'a Source) -> Made<Program<'a>>
    requires few { AreFew source.now }
    requires sound { AreNamesSound source.now }
    ensures { IfOk result (λ p. p ≡ hierarchy_of source.now) }
{
    sound_hierarchies_are_finite();
    let bodies = bodies_of(alloc, source)?;
    let graph = graph(alloc, &bodies)?;
    let Some(order) = inner_first(alloc, graph.as_slice())? else {
        unreachable!()
    };
    let leads = all_leads(alloc, &bodies, order.as_slice())?;
    Ok(Program {
        bodies,
        leads,
        order,
    })
}
