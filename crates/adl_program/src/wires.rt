//! The connections of bodies, with where their ends lead.

ghost use Rattle.adl_meaning.specs.Prelude.{body};
ghost use Rattle.adl_program.specs.Leads.{AreInnerLeads};
ghost use Rattle.adl_program.specs.LedEnds.{led_end, led_wires};
ghost use Rattle.std.specs.Prelude.{IfOk, Some, map, ◌≡◌};

use crate::bodies::Bodies;
use crate::leads::{Lead, Leads, lead_of};
use adl_ast::{Composition, Connection, End, Line};
use adl_meaning::Connector;
use cam_base::{List, Made};
use std::alloc::Global;
use std::marker::Model;

/// An end of a connection, and where it leads. Contracts see it as the two.
#[derive(Drop)]
pub struct LedEnd<'a> {
    pub end: &'a End,
    pub lead: Option<Lead>,
}

impl<'a> Model for LedEnd<'a> {
    ghost use Rattle.adl_program.specs.LedEnds.{LedEnd as LedEndOf};

    ghost Value = { LedEndOf };

    ghost view = { λ e. record { end = e.end.now; lead = e.lead } };
}

/// A connection of one of the six connectors, and where its ends lead. Contracts see it so.
#[derive(Drop)]
pub struct LedWire<'a> {
    pub connector: Connector,
    pub connection: &'a Connection,
    pub ends: Vec<LedEnd<'a>>,
}

impl<'a> Model for LedWire<'a> {
    ghost use Rattle.adl_program.specs.LedEnds.{LedWire as LedWireOf};

    ghost Value = { LedWireOf };

    ghost view = { λ w. record { wire = (w.connector, w.connection.now); ends = w.ends.items } };
}

/// Where ends in the body of the number lead.
fn led_ends<'a>(
    alloc: Global,
    bodies: &Bodies<'_>,
    all: &[Leads<'_>],
    number: u32,
    ends: &'a [End],
) -> Made<Vec<LedEnd<'a>>>
    requires { AreInnerLeads bodies.now number all.now }
    ensures { IfOk result (λ v. v.items ≡ map (led_end bodies.now number) ends.entry.now) }
{
    let mut led = Vec::with_capacity(alloc, ends.len())?;
    for end in ends {
        let lead = lead_of(bodies, all, number, end.words.as_slice());
        led.push(LedEnd { end, lead })?;
    }
    Ok(led)
}

/// The connections of the body of the number, which has this composition.
pub fn led_wires<'a>(
    alloc: Global,
    bodies: &Bodies<'_>,
    all: &[Leads<'_>],
    number: u32,
    composition: &'a Composition,
) -> Made<List<LedWire<'a>>>
    requires leads { AreInnerLeads bodies.now number all.now }
    requires composition { (body bodies.now number).composition ≡ Some composition.now }
    ensures { IfOk result (λ ws. ws ≡ led_wires bodies.now number) }
{
    let mut wires = List::new(alloc);
    for line in composition.lines.as_slice() {
        if let Line::Connection(connection) = line {
            if let Some(connector) = Connector::find(connection.connector.name.as_bytes()) {
                let ends = led_ends(alloc, bodies, all, number, connection.ends.as_slice())?;
                wires.push(LedWire {
                    connector,
                    connection,
                    ends,
                })?;
            }
        }
    }
    Ok(wires)
}
