//! Which objects stand for others: the first of those that hold the same.

ghost use Rattle.cap_audit.specs.Rows.{with_more};
ghost use Rattle.cap_audit.specs.Kinds.{AreFirsts, AreHeadRoots, AreHeads, AreMembers, AreRootMarks, IsLike, root_mark, stand_in};
ghost use Rattle.cap_model.specs.Kept.{IsKept};
ghost use Rattle.cap_audit.specs.Covering.{AreRoots};
ghost use Rattle.std.specs.Prelude.{◌≡◌, ◌<◌, ◌^◌, ◌==◌, if◌then◌else◌, IfOk, OnOk, length, map, slice_index, slice_set};

use crate::roots;
use crate::rows::Rows;
use cam_base::Made;
use cap_model::{Labels, Spec};
use std::alloc::Global;

/// By objects, who stands for each: a face for those that hold the same and have the same label, a head for those that
/// hold the same and are roots of threads, or none of them is.
#[derive(Drop)]
pub struct Kinds {
    pub faces: Vec<u32>,
    pub heads: Vec<u32>,
}

impl Kinds {
    /// The kinds by classes: objects of one class hold the same.
    pub fn of(alloc: Global, spec: &Spec, labels: &Labels, classes: &[u32]) -> Made<Kinds>
        requires kept { IsKept spec.now }
        requires as_many { length classes.now ≡ length spec.now.entries }
        ensures faces { IfOk result (λ k. AreFirsts classes.now labels.now.by_object k.faces.items (length classes.now)) }
        ensures heads { IfOk result (λ k. AreHeads spec.now classes.now k.heads.items) }
    {
        let faces = firsts(alloc, classes, labels.by_object.as_slice())?;
        let marks = root_marks(alloc, spec)?;
        let heads = firsts(alloc, classes, marks.as_slice())?;
        Ok(Kinds { faces, heads })
    }
}

/// Who stands for an object, itself where none is told.
pub fn stand_in(places: &[u32], c: u32) -> u32
    ensures { result ≡ stand_in places.now c }
{
    match places.get(c as usize) {
        Some(place) => *place,
        None => c,
    }
}

fn mark_at(marks: &[u32], c: u32) -> u32
    ensures { result ≡ slice_index marks.now c }
{
    match marks.get(c as usize) {
        Some(mark) => *mark,
        None => 0,
    }
}

/// The first of the row with the mark of an object, or that object.
fn first_like(row: &[u32], marks: &[u32], c: u32) -> u32
    ensures { IsLike row.now marks.now c result }
{
    for r in row {
        if mark_at(marks, *r) == mark_at(marks, c) {
            return *r;
        }
    }
    c
}

/// Puts an object that stands for itself into the row of its class.
fn put_first(rows: &mut Rows<u32>, class: u32, first: u32, c: u32) -> Made<()>
    ensures { OnOk result (rows.new ≡ (if first == c then with_more rows.old class c else rows.old)) }
{
    if first == c {
        return rows.push(class, c);
    }
    Ok(())
}

/// By places, the first with the same class and the same mark.
fn firsts(alloc: Global, classes: &[u32], marks: &[u32]) -> Made<Vec<u32>>
    requires { length classes.now < 2 ^ 32 }
    ensures { IfOk result (λ firsts. AreFirsts classes.now marks.now firsts.items (length classes.now)) }
{
    let mut rows = Rows::new(alloc, classes.len())?;
    let mut firsts = Vec::new(alloc);
    for c in 0..classes.len() {
        let class = classes[c];
        let first = first_like(rows.row(class), marks, c as u32);
        put_first(&mut rows, class, first, c as u32)?;
        firsts.push(first)?;
    }
    Ok(firsts)
}

fn root_mark(root: Option<u32>) -> u32
    ensures { result ≡ root_mark root }
{
    match root {
        Some(_) => 1,
        None => 0,
    }
}

/// 1 for each root of a thread.
fn root_marks(alloc: Global, spec: &Spec) -> Made<Vec<u32>>
    requires { IsKept spec.now }
    ensures { IfOk result (λ marks. AreRootMarks spec.now marks.items) }
{
    let roots = roots(alloc, spec)?;
    let marks = marks_of(alloc, roots.as_slice())?;
    Ok(marks)
}

fn marks_of(alloc: Global, roots: &[Option<u32>]) -> Made<Vec<u32>>
    ensures { IfOk result (λ marks. marks.items ≡ map root_mark roots.now) }
{
    let marks = roots.iter().map(|root| root_mark(*root)).collect(alloc)?;
    Ok(marks)
}

fn leave(roots: &mut [Option<u32>], heads: &[u32], c: u32)
    ensures { roots.new ≡ (if stand_in heads.now c == c then roots.old else slice_set roots.old c None) }
{
    let stands = stand_in(heads, c);
    let place = c as usize;
    if stands != c && place < roots.len() {
        roots[place] = None;
    }
}

/// Leaves out the roots for whom others stand.
fn leave_out(roots: &mut [Option<u32>], spec: &Spec, heads: &[u32])
    requires kept { IsKept spec.now }
    requires roots { AreRoots spec.now roots.old }
    ensures { AreHeadRoots spec.now heads.now roots.new }
{
    for c in 0..spec.entries.len() {
        leave(roots, heads, c as u32);
    }
}

/// A thread of each root that stands for itself.
pub fn head_roots(alloc: Global, spec: &Spec, heads: &[u32]) -> Made<Vec<Option<u32>>>
    requires { IsKept spec.now }
    ensures { IfOk result (λ roots. AreHeadRoots spec.now heads.now roots.items) }
{
    let mut roots = roots(alloc, spec)?;
    leave_out(roots.as_mut_slice(), spec, heads);
    Ok(roots)
}

/// The objects by who stands for them.
pub fn members(alloc: Global, heads: &[u32]) -> Made<Rows<u32>>
    requires { length heads.now < 2 ^ 32 }
    ensures { IfOk result (λ members. AreMembers heads.now members (length heads.now)) }
{
    let mut members = Rows::new(alloc, heads.len())?;
    for c in 0..heads.len() {
        members.push(heads[c], c as u32)?;
    }
    Ok(members)
}
