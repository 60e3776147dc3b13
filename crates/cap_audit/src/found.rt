//! What a search has found of the Spread, and the steps that it made.

ghost use Rattle.cap_audit.specs.Search.{bare, held_by, is_known, landed, steps_of, whole, IsFound, IsWay, Brings};
ghost use Rattle.cap_audit.specs.Start.{Starts, owned, blank_row, blank_rows, with_rows, with_mark, with_value};
ghost use Rattle.cap_machine.specs.Progress.{Bootable};
ghost use Rattle.cap_model.specs.Kept.{IsKept};
ghost use Rattle.cap_model.specs.State.{boot_node};
ghost use Rattle.std.specs.List.{All, Contains};
ghost use Rattle.std.specs.Prelude.{◌≡◌, ◌<◌, ◌++◌, [], true, false, map, IsTrue, OnOk, IfOk, length, Some, slice_get, slice_set, slice_index, slice_index_or};

use crate::rows::Rows;
use cam_base::{Made, NoMemory};
use cap_machine::Step;
use cap_model::{Cap, Entry, Object, Rights, Spec};
use std::alloc::Global;
use std::marker::Model;

/// A value that a CNode holds, and the number at which it stands there.
#[derive(Clone, Copy)]
pub struct Held {
    pub value: usize,
    pub number: u64,
}

/// A CNode and what it holds.
#[derive(Clone, Copy)]
pub struct Pair {
    pub node: u32,
    pub held: Held,
}

/// How what one CNode holds comes to another: by which threads, with which of their capabilities.
#[derive(Clone, Copy)]
pub enum Course {
    Take { t: u32, i: u64 },
    Put { t: u32, i: u64 },
    Grant { t: u32, i: u64, u: u32, j: u64 },
    Reply { t: u32, i: u64, u: u32, j: u64 },
}

/// A course to a CNode.
#[derive(Clone, Copy)]
pub struct Way {
    pub to: u32,
    pub course: Course,
}

/// Which values are known of one CNode.
#[derive(Drop)]
pub struct Marks {
    marks: Vec<bool>,
}

impl Model for Marks {
    ghost use Rattle.std.specs.Prelude.{List, Bool};

    ghost Value = { List Bool };

    ghost view = { λ m. m.marks.items };
}

impl Marks {
    fn is_known(&self, value: usize) -> bool
        ensures { result ≡ slice_index_or self.now value false }
    {
        match self.marks.get(value) {
            Some(mark) => *mark,
            None => false,
        }
    }

    fn mark(&mut self, value: usize)
        ensures { self.new ≡ slice_set self.old value true }
    {
        if value < self.marks.len() {
            self.marks[value] = true;
        }
    }
}

fn put_mark(rows: &mut [Marks], c: u32, value: usize)
    ensures { rows.new ≡ slice_set rows.old c (slice_set (slice_index_or rows.old c []) value true) }
{
    let c = c as usize;
    if c < rows.len() {
        let row = &mut rows[c];
        row.mark(value);
    }
}

/// Puts the next number of a CNode.
pub(crate) fn put_next(nexts: &mut [u64], c: u32, next: u64)
    ensures { nexts.new ≡ slice_set nexts.old c next }
{
    let c = c as usize;
    if c < nexts.len() {
        nexts[c] = next;
    }
}

fn are_same(a: Cap, b: Cap) -> bool
    ensures { IsTrue result → a ≡ b }
{
    a.object == b.object && a.badge == b.badge && a.rights == b.rights
}

/// All rights.
pub fn whole() -> Rights
    ensures { result ≡ whole }
{
    Rights {
        read: true,
        write: true,
        grant: true,
        reply: true,
    }
}

fn push_steps(steps: &mut Vec<Step>, course: Course, n: u64) -> Made<()>
    ensures { OnOk result (steps.new.items ≡ steps.old.items ++ steps_of course n) }
{
    match course {
        Course::Take { t, i } => steps.push(Step::Take {
            t,
            i,
            j: n,
            r: whole(),
        })?,
        Course::Put { t, i } => steps.push(Step::Put {
            t,
            i,
            j: n,
            r: whole(),
        })?,
        Course::Grant { t, i, u, j } => steps.push(Step::Grant {
            t,
            i,
            u,
            j,
            k: n,
            r: whole(),
        })?,
        Course::Reply { t, i, u, j } => {
            steps.push(Step::Call { t, i, u, j })?;
            steps.push(Step::Reply {
                t: u,
                copy: Some((n, whole())),
            })?;
        }
    }
    Ok(())
}

fn next_of(object: &Object) -> u64
    requires { Bootable object.now }
    ensures { result ≡ (boot_node object.now).next }
{
    match object {
        Object::CNode { bits, .. } => 1 << *bits,
        _ => 0,
    }
}

fn boot_nexts(alloc: Global, entries: &[Entry]) -> Made<Vec<u64>>
    requires { All (λ e. Bootable e.object) entries.now }
    ensures { IfOk result (λ nexts. nexts.items ≡ map (λ e. (boot_node e.object).next) entries.now) }
{
    let mut nexts = Vec::new(alloc);
    for entry in entries {
        nexts.push(next_of(&entry.object))?;
    }
    Ok(nexts)
}

fn blank_row(alloc: Global, object: &Object, width: usize) -> Made<Marks>
    ensures { IfOk result (λ row. row ≡ blank_row width object.now) }
{
    let n = match object {
        Object::CNode { .. } => width,
        _ => 0,
    };
    Ok(Marks {
        marks: vec![in alloc; false; n]?,
    })
}

fn blank_rows(alloc: Global, entries: &[Entry], width: usize) -> Made<Vec<Marks>>
    ensures { IfOk result (λ rows. rows.items ≡ blank_rows width entries.now) }
{
    let mut rows = Vec::new(alloc);
    for entry in entries {
        rows.push(blank_row(alloc, &entry.object, width)?)?;
    }
    Ok(rows)
}

/// What was found, and the steps that lead there.
#[derive(Drop)]
pub struct Findings {
    values: Vec<Cap>,
    held: Rows<Held>,
    known: Vec<Marks>,
    queue: Vec<Pair>,
    steps: Vec<Step>,
    nexts: Vec<u64>,
}

impl Model for Findings {
    ghost use Rattle.cap_audit.specs.Search.{Found};

    ghost Value = { Found };

    ghost view = { λ f. record {
      values = f.values.items;
      held = f.held;
      known = f.known.items;
      queue = f.queue.items;
      steps = f.steps.items;
      nexts = f.nexts.items;
    } };
}

impl Findings {
    /// Whether a CNode is known to hold a value.
    pub fn is_known(&self, c: u32, value: usize) -> bool
        ensures { result ≡ is_known self.now c value }
    {
        match self.known.get(c as usize) {
            Some(row) => row.is_known(value),
            None => false,
        }
    }

    /// What a CNode holds, in the order found. Takes no memory.
    pub fn holdings(&self, c: u32) -> &[Held]
        ensures { result.now ≡ held_by self.now c }
    {
        self.held.row(c)
    }

    /// What was found, without its steps; the steps; and the next number of each CNode. Takes no memory.
    pub fn parted(self, alloc: Global) -> (Findings, Vec<Step>, Vec<u64>)
        ensures found { result.0 ≡ bare self }
        ensures steps { result.1.items ≡ self.steps }
        ensures nexts { result.2.items ≡ self.nexts }
    {
        let Findings {
            values,
            held,
            known,
            queue,
            steps,
            nexts,
        } = self;
        let found = Findings {
            values,
            held,
            known,
            queue,
            steps: Vec::new(alloc),
            nexts: Vec::new(alloc),
        };
        (found, steps, nexts)
    }

    /// A value's capability.
    pub fn value(&self, value: usize) -> Option<Cap>
        ensures { result ≡ slice_get self.now.values value }
    {
        self.values.get(value).copied()
    }

    /// How many pairs are in the queue.
    pub fn count(&self) -> usize
        ensures { result ≡ length self.now.queue }
    {
        self.queue.len()
    }

    /// The pair at a place of the queue.
    pub fn pair(&self, place: usize) -> Pair
        requires { place < length self.now.queue }
        ensures { slice_get self.now.queue place ≡ Some result }
    {
        self.queue[place]
    }

    /// The next number of a CNode.
    fn next(&self, c: u32) -> u64
        ensures { result ≡ slice_index self.now.nexts c }
    {
        match self.nexts.get(c as usize) {
            Some(next) => *next,
            None => 0,
        }
    }

    /// Nothing found yet.
    pub fn blank(alloc: Global, spec: &Spec) -> Made<Findings>
        requires { IsKept spec.now }
        ensures { IfOk result (λ f. Starts spec.now f 0 0) }
    {
        let entries = spec.entries.as_slice();
        let held = Rows::new(alloc, entries.len())?;
        let nexts = boot_nexts(alloc, entries)?;
        Ok(Findings {
            values: Vec::new(alloc),
            held,
            known: Vec::new(alloc),
            queue: Vec::new(alloc),
            steps: Vec::new(alloc),
            nexts,
        })
    }

    /// Whether the value at a place is this capability.
    pub fn has_value(&self, value: usize, cap: Cap) -> bool
        ensures { IsTrue result → slice_get self.now.values value ≡ Some cap }
    {
        match self.values.get(value) {
            Some(here) => are_same(*here, cap),
            None => false,
        }
    }

    /// A value more, and its place.
    pub fn add_value(&mut self, cap: Cap) -> Made<usize>
        ensures values { OnOk result (self.new ≡ with_value self.old cap) }
        ensures place { IfOk result (λ place. place ≡ length self.old.values) }
    {
        let place = self.values.len();
        self.values.push(cap)?;
        Ok(place)
    }

    /// A CNode has a value at a number from the start.
    pub fn own(&mut self, c: u32, held: Held) -> Made<()>
        ensures { OnOk result (self.new ≡ owned self.old c held) }
    {
        self.held.push(c, held)?;
        self.queue.push(Pair { node: c, held })?;
        Ok(())
    }

    /// All CNodes with rows in which nothing is known.
    pub fn open_rows(&mut self, alloc: Global, spec: &Spec) -> Made<()>
        ensures { OnOk result (self.new ≡ with_rows self.old (blank_rows (length self.old.values) spec.now.entries)) }
    {
        self.known = blank_rows(alloc, spec.entries.as_slice(), self.values.len())?;
        Ok(())
    }

    /// What the pair says is known.
    pub fn mark(&mut self, pair: Pair)
        ensures { self.new ≡ with_mark self.old pair }
    {
        put_mark(&mut self.known, pair.node, pair.held.value);
    }

    /// Puts a value where it isn't known yet, at the next number there.
    fn land(&mut self, way: Way, held: Held) -> Made<()>
        ensures { OnOk result (self.new ≡ landed self.old way held) }
    {
        let number = self.next(way.to);
        let next = match number.checked_add(1) {
            Some(next) => next,
            None => return Err(NoMemory),
        };
        let here = Held {
            value: held.value,
            number,
        };
        self.held.push(way.to, here)?;
        put_mark(&mut self.known, way.to, held.value);
        self.queue.push(Pair {
            node: way.to,
            held: here,
        })?;
        push_steps(&mut self.steps, way.course, held.number)?;
        put_next(&mut self.nexts, way.to, next);
        Ok(())
    }

    /// Brings what `from` holds along a way, where it isn't known at its end.
    pub fn bring(&mut self, spec: &Spec, from: u32, way: Way, held: Held) -> Made<()>
        requires found { IsFound spec.now self.old }
        requires way { IsWay spec.now self.old from way }
        requires held { Contains (held_by self.old from) held }
        ensures { OnOk result (Brings spec.now self.old way held self.new) }
    {
        if self.is_known(way.to, held.value) {
            return Ok(());
        }
        self.land(way, held)?;
        Ok(())
    }
}
