//! The edges at each label.

ghost use Rattle.label_flow.specs.Edges.{AreBelow};
ghost use Rattle.label_flow.specs.Exits.{more_exits, no_exits, AreExits};
ghost use Rattle.std.specs.Prelude.{◌≡◌, ◌++◌, ◌∷◌, [], length, IfOk, OnOk};

use cam_base::Made;
use cap_model::Edge;
use std::alloc::Global;
use std::marker::Model;

/// The places of the edges at a label, among all edges.
#[derive(Drop)]
pub struct Exits {
    places: Vec<usize>,
}

impl Model for Exits {
    ghost use Rattle.std.specs.Prelude.{List, ℕ};

    ghost Value = { List ℕ };

    ghost view = { λ e. e.places.items };
}

impl Exits {
    fn push(&mut self, place: usize) -> Made<()>
        ensures { OnOk result (self.new ≡ self.old ++ place ∷ []) }
    {
        self.places.push(place)?;
        Ok(())
    }

    pub fn as_slice(&self) -> &[usize]
        ensures { result.now ≡ self.now }
    {
        self.places.as_slice()
    }
}

fn add(exits: &mut Vec<Exits>, label: u32, place: usize) -> Made<()>
    ensures { OnOk result (exits.new.items ≡ more_exits exits.old.items label place) }
{
    let label = label as usize;
    if label < exits.len() {
        let row = &mut exits[label];
        row.push(place)?;
    }
    Ok(())
}

fn no_exits(alloc: Global, count: usize) -> Made<Vec<Exits>>
    ensures { IfOk result (λ exits. exits.items ≡ no_exits count) }
{
    let mut exits = Vec::new(alloc);
    for _ in 0..count {
        exits.push(Exits {
            places: Vec::new(alloc),
        })?;
    }
    Ok(exits)
}

/// The edges at each label, whichever way something passes by them.
pub fn all_exits(alloc: Global, edges: &[Edge], count: usize) -> Made<Vec<Exits>>
    requires { AreBelow count edges.now }
    ensures { IfOk result (λ exits. AreExits edges.now count (length edges.now) exits.items) }
{
    let mut exits = no_exits(alloc, count)?;
    for k in 0..edges.len() {
        add(&mut exits, edges[k].from, k)?;
        add(&mut exits, edges[k].to, k)?;
    }
    Ok(exits)
}
