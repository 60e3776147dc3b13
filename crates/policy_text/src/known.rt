//! Which numbers have a label.

ghost use Rattle.policy_text.specs.KnownNumbers.{knows, IfLow, IsRight, IsSmall};
ghost use Rattle.policy_text.specs.Entries.{value};
ghost use Rattle.cap_model.specs.Policies.{label_name};
ghost use Rattle.std.specs.BTreeSet.{contains};
ghost use Rattle.std.specs.List.{list_any};
ghost use Rattle.std.specs.Option.{is_some, option_map_or};
ghost use Rattle.std.specs.Ordering.{nat_cmp};
ghost use Rattle.std.specs.Str.{bytes_eq};
ghost use Rattle.std.specs.Prelude.{◌≡◌, ◌<◌, ◌^◌, true, false, ℕ, IfOk};

use crate::number::Digits;
use crate::words::Words;
use cam_base::{Made, Text, read_number};
use std::alloc::Global;
use std::collections::BTreeSet;

/// The numbers that have a label: those of a text's label lines as they are written, or those of a policy. Most stand one
/// behind another from 0 on, and are found by their place.
#[derive(Drop)]
pub enum Known<'a> {
    Lines {
        numbers: Words<'a>,
        near: Vec<&'a [u8]>,
    },
    Labels {
        numbers: BTreeSet<u64>,
        near: u64,
    },
}

impl<'a> Known<'a> {
    /// Whether the number has a label. Takes no memory.
    pub fn has(&self, number: Digits<'a>) -> bool
        requires { IsRight self.now }
        ensures { result ≡ knows self.now number.entry.text.now }
    {
        match self {
            Known::Lines { numbers, near } => {
                is_near(near.as_slice(), number) || numbers.has(number.text)
            }
            Known::Labels { numbers, near } => {
                is_low(*near, number) || has_label(numbers, number.text)
            }
        }
    }
}

/// Whether the number stands at its place.
fn is_near(near: &[&[u8]], number: Digits) -> bool
    ensures { result ≡ true → list_any (λ w. bytes_eq w.now number.entry.text.now) near.now ≡ true }
{
    let place = number.value as usize;
    place < near.len() && near[place] == number.text
}

/// Whether the number's value is one from 1 on and below this one.
fn is_low(near: u64, number: Digits) -> bool
    ensures { result ≡ true → IfLow near (value number.entry.text.now) }
{
    number.value != 0 && u64::from(number.value) < near
}

/// Whether the number's value is in the set.
fn has_label(numbers: &BTreeSet<u64>, number: &[u8]) -> bool
    ensures { result ≡ option_map_or (λ v. contains nat_cmp numbers.now v) (value number.now) false }
{
    match read_number(number) {
        Some(value) => numbers.contains(&value),
        None => false,
    }
}

/// How many numbers from 0 on have a label, at least.
pub fn near_labels(labels: &[(u32, Text)]) -> u64
    ensures { (n : ℕ) → n < result → is_some (label_name labels.now n) ≡ true }
{
    let mut near: u64 = 0;
    for label in labels {
        if u64::from(label.0) == near {
            near += 1;
        }
    }
    near
}

/// The numbers of labels.
pub fn numbers_of(alloc: Global, labels: &[(u32, Text)]) -> Made<BTreeSet<u64>>
    ensures each { IfOk result (λ set. (n : ℕ) → contains nat_cmp set n ≡ is_some (label_name labels.now n)) }
    ensures small { IfOk result IsSmall }
{
    let mut numbers = BTreeSet::new(alloc);
    for label in labels {
        numbers.insert(u64::from(label.0))?;
    }
    Ok(numbers)
}
