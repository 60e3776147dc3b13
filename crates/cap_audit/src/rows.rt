//! Rows of items, by the places of objects.

ghost use Rattle.cap_audit.specs.Rows.{row_at, with_more};
ghost use Rattle.std.specs.Prelude.{◌≡◌, [], replicate, IfOk, OnOk};

use cam_base::{List, Made};
use std::alloc::Global;
use std::marker::Model;

/// Items by objects, those of each in the order in which they came.
#[derive(Drop)]
pub struct Rows<T> {
    rows: Vec<List<T>>,
}

impl<T> Model for Rows<T> {
    ghost use Rattle.std.specs.Prelude.{List as Items};

    ghost Value = { Items (Items T) };

    ghost view = { λ r. r.rows.items };
}

impl<T> Rows<T> {
    /// The row of an object.
    pub fn row(&self, c: u32) -> &[T]
        ensures { result.now ≡ row_at self.now c }
    {
        match self.rows.get(c as usize) {
            Some(row) => row.as_slice(),
            None => &[],
        }
    }
}

impl<T: Drop> Rows<T> {
    /// Rows of n objects, with nothing in them.
    pub fn new(alloc: Global, n: usize) -> Made<Rows<T>>
        ensures { IfOk result (λ rows. rows ≡ replicate n []) }
    {
        let mut rows = Vec::new(alloc);
        for _ in 0..n {
            rows.push(List::new(alloc))?;
        }
        Ok(Rows { rows })
    }

    /// Puts an item at the end of an object's row, where there is one.
    pub fn push(&mut self, c: u32, item: T) -> Made<()>
        ensures { OnOk result (self.new ≡ with_more self.old c item) }
    {
        put(&mut self.rows, c, item)?;
        Ok(())
    }
}

fn put<T: Drop>(rows: &mut [List<T>], c: u32, item: T) -> Made<()>
    ensures { OnOk result (rows.new ≡ with_more rows.old c item) }
{
    let c = c as usize;
    if c < rows.len() {
        let row = &mut rows[c];
        row.push(item)?;
    }
    Ok(())
}
