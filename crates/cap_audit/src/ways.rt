//! Ways from one CNode to another, along which all goes that is found.

ghost use Rattle.cap_audit.specs.Search.{held_by, IsFound, IsWay};
ghost use Rattle.cap_audit.specs.Start.{IsCounted};
ghost use Rattle.cap_audit.specs.Ways.{ways_from, with_way, InClass, GoesAlong, AllGo, Connects, HasWay, IsWeb, JoinsBack, LeadsTo, Merges, Unites};
ghost use Rattle.cap_audit.specs.declared.found.Held.{Held};
ghost use Rattle.cap_audit.specs.declared.found.Way.{Way};
ghost use Rattle.std.specs.List.{Contains};
ghost use Rattle.std.specs.Prelude.{◌≡◌, ◌<◌, ◌^◌, [], length, replicate, IsTrue, IfOk, OnOk, slice_index_or};

use crate::found::{Findings, Held, Way};
use crate::rows::Rows;
use cam_base::Made;
use cap_model::Spec;
use std::alloc::Global;
use std::marker::Model;

/// Makes the class of `d` the class of `c`.
fn merge(classes: &mut [u32], c: u32, d: u32)
    requires one { c < length classes.old }
    requires other { d < length classes.old }
    ensures { Merges classes.old c d classes.new }
{
    let to = classes[c as usize];
    let from = classes[d as usize];
    for x in 0..classes.len() {
        if classes[x] == from {
            classes[x] = to;
        }
    }
}

/// Ways out of each object, and classes of objects that ways join in both directions.
#[derive(Drop)]
pub struct Net {
    out: Rows<Way>,
    classes: Vec<u32>,
}

impl Model for Net {
    ghost use Rattle.cap_audit.specs.Nets.{Lanes};

    ghost Value = { Lanes };

    ghost view = { λ n. record { out = n.out; classes = n.classes.items } };
}

fn counted(alloc: Global, n: usize) -> Made<Vec<u32>>
    requires { n < 2 ^ 32 }
    ensures { IfOk result (λ numbers. IsCounted numbers.items n) }
{
    let mut numbers = Vec::new(alloc);
    for k in 0..n {
        numbers.push(k as u32)?;
    }
    Ok(numbers)
}

impl Net {
    /// No ways, and each of n objects in a class of its own.
    pub fn new(alloc: Global, n: usize) -> Made<Net>
        requires { n < 2 ^ 32 }
        ensures out { IfOk result (λ net. net.out ≡ replicate n []) }
        ensures classes { IfOk result (λ net. IsCounted net.classes n) }
    {
        let out = Rows::new(alloc, n)?;
        let classes = counted(alloc, n)?;
        Ok(Net { out, classes })
    }

    /// Whether both are known to be joined in both directions.
    pub fn are_joined(&self, c: u32, d: u32) -> bool
        ensures { IsTrue result → InClass self.now c d }
    {
        let c = c as usize;
        let d = d as usize;
        c < self.classes.len() && d < self.classes.len() && self.classes[c] == self.classes[d]
    }

    /// The class of each object. Takes no memory.
    pub fn into_classes(self) -> Vec<u32>
        ensures { result.items ≡ self.classes }
    {
        let Net { out: _out, classes } = self;
        classes
    }

    /// The ways out of an object.
    pub fn ways(&self, c: u32) -> &[Way]
        ensures { result.now ≡ ways_from self.now c }
    {
        self.out.row(c)
    }

    /// Whether a way leads from the one to the other, or to one that is joined with it.
    fn has_way(&self, c: u32, d: u32) -> bool
        ensures { IsTrue result → HasWay self.now c d }
    {
        for way in self.ways(c) {
            if way.to == d || self.are_joined(way.to, d) {
                return true;
            }
        }
        false
    }

    /// The object after which the class of another is named.
    fn head(&self, c: u32) -> u32
        ensures { result ≡ slice_index_or self.now.classes c c }
    {
        match self.classes.get(c as usize) {
            Some(head) => *head,
            None => c,
        }
    }

    /// Whether a way leads there from the one or from the head of its class.
    fn leads_to(&self, c: u32, d: u32) -> bool
        ensures { IsTrue result → LeadsTo self.now c d }
    {
        if self.has_way(c, d) {
            return true;
        }
        let head = self.head(c);
        self.are_joined(c, head) && self.has_way(head, d)
    }

    /// Says that both are joined in both directions, under the head of the one with more ways.
    fn unite(&mut self, c: u32, d: u32)
        requires one { c < length self.old.classes }
        requires other { d < length self.old.classes }
        ensures out { self.new.out ≡ self.old.out }
        ensures classes { Unites self.old.classes c d self.new.classes }
    {
        if self.ways(c).len() < self.ways(d).len() {
            self.join(d, c);
        } else {
            self.join(c, d);
        }
    }

    /// The same, where a way leads back.
    fn join_back(&mut self, c: u32, d: u32)
        requires one { c < length self.old.classes }
        requires other { d < length self.old.classes }
        ensures { JoinsBack self.old c d self.new }
    {
        if self.leads_to(d, c) {
            self.unite(c, d);
            return;
        }
    }

    fn add(&mut self, c: u32, way: Way) -> Made<()>
        ensures { OnOk result (self.new ≡ with_way self.old c way) }
    {
        self.out.push(c, way)
    }

    /// Says that both are joined in both directions.
    pub fn join(&mut self, c: u32, d: u32)
        requires one { c < length self.old.classes }
        requires other { d < length self.old.classes }
        ensures out { self.new.out ≡ self.old.out }
        ensures classes { Merges self.old.classes c d self.new.classes }
    {
        merge(&mut self.classes, c, d);
    }
}

/// Brings one value along all these ways.
pub fn go_along(
    findings: &mut Findings,
    spec: &Spec,
    from: u32,
    ways: &[Way],
    held: Held,
) -> Made<()>
    requires found { IsFound spec.now findings.old }
    requires ways { (way : Way) → Contains ways.now way → IsWay spec.now findings.old from way }
    requires held { Contains (held_by findings.old from) held }
    ensures { OnOk result (GoesAlong spec.now findings.old ways.now held findings.new) }
{
    for way in ways {
        findings.bring(spec, from, *way, held)?;
    }
    Ok(())
}

/// Brings all these values along one way.
fn all_go(findings: &mut Findings, spec: &Spec, from: u32, way: Way, helds: &[Held]) -> Made<()>
    requires found { IsFound spec.now findings.old }
    requires way { IsWay spec.now findings.old from way }
    requires helds { (held : Held) → Contains helds.now held → Contains (held_by findings.old from) held }
    ensures { OnOk result (AllGo spec.now findings.old way helds.now findings.new) }
{
    for held in helds {
        findings.bring(spec, from, way, *held)?;
    }
    Ok(())
}

/// What was found, and the ways along which all of it has gone.
#[derive(Drop)]
pub struct Web {
    pub alloc: Global,
    pub findings: Findings,
    pub net: Net,
}

impl Web {
    /// Sees to it that ways lead from one CNode to the end of this way, and that all has gone along them.
    pub fn connect(&mut self, spec: &Spec, from: u32, way: Way) -> Made<()>
        requires web { IsWeb spec.now self.old }
        requires way { IsWay spec.now self.old.findings from way }
        requires from { from < length spec.now.entries }
        ensures { OnOk result (Connects spec.now self.old from way.to self.new) }
    {
        if self.net.are_joined(from, way.to) {
            return Ok(());
        }
        if self.net.leads_to(from, way.to) {
            return Ok(());
        }
        let helds = Vec::from_slice(self.alloc, self.findings.holdings(from))?;
        all_go(&mut self.findings, spec, from, way, helds.as_slice())?;
        self.net.add(from, way)?;
        self.net.join_back(from, way.to);
        Ok(())
    }
}
