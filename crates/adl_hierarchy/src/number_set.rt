//! Sets of numbers below a size.

ghost use Rattle.adl_meaning.specs.Graph.{has};
ghost use Rattle.adl_hierarchy.specs.Sets.{with_number};
ghost use Rattle.std.specs.Prelude.{◌≡◌, ◌<◌, ◌≤◌, ℕ, true, false, [], ◌∷◌, ◌++◌, length, IfOk, OnOk};

use cam_base::{List, Made};
use std::alloc::Global;
use std::marker::Model;

/// A set of numbers below a size, in the order in which they came. Contracts see it as the size and the list.
#[derive(Drop)]
pub struct NumberSet {
    marks: Vec<bool>,
    list: List<u32>,
}

impl Model for NumberSet {
    ghost use Rattle.adl_hierarchy.specs.Sets.{Numbers, AreMarks, coded_numbers};
    ghost use Rattle.std.specs.Prelude.{length};

    ghost Value = { Numbers };

    ghost coded = { coded_numbers };

    ghost view = { λ s. record { size = length s.marks.items; list = s.list } };

    ghost invariant = { λ s. AreMarks s.marks.items s.list };
}

impl NumberSet {
    /// The empty set.
    pub fn new(alloc: Global, size: u32) -> Made<NumberSet>
        ensures { IfOk result (λ s. s ≡ record { size = size; list = [] }) }
    {
        Ok(NumberSet {
            marks: vec![in alloc; false; size as usize]?,
            list: List::new(alloc),
        })
    }

    /// Whether the number is in the set.
    pub fn contains(&self, number: u32) -> bool
        requires { number < self.now.size }
        ensures { result ≡ has self.now.list number }
    {
        self.marks[number as usize]
    }

    /// The numbers in the order in which they came.
    pub fn list(&self) -> &[u32]
        ensures list { result.now ≡ self.now.list }
        ensures few { length self.now.list ≤ self.now.size }
        ensures below { (x : ℕ) → has self.now.list x ≡ true → x < self.now.size }
    {
        self.list.as_slice()
    }

    /// Whether each number below the size is in the set.
    pub fn is_full(&self) -> bool
        ensures full { result ≡ true → (x : ℕ) → x < self.now.size → has self.now.list x ≡ true }
        ensures lacking { result ≡ false → (x : ℕ) × (x < self.now.size) × (has self.now.list x ≡ false) }
    {
        for number in 0..self.marks.len() as u32 {
            if !self.contains(number) {
                return false;
            }
        }
        true
    }

    /// Puts a number into the set.
    pub fn insert(&mut self, number: u32) -> Made<()>
        requires { number < self.old.size }
        ensures { OnOk result (self.new ≡ record self.old { list = with_number self.old.list number }) }
    {
        if !self.contains(number) {
            self.list.push(number)?;
            self.marks[number as usize] = true;
        }
        Ok(())
    }

    /// The numbers in the order in which they came.
    pub fn into_list(self) -> List<u32>
        ensures list { result ≡ self.list }
        ensures below { (x : ℕ) → has self.list x ≡ true → x < self.size }
    {
        let NumberSet { marks: _, list } = self;
        list
    }
}
