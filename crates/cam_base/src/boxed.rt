ghost use Rattle.std.specs.Prelude.{◌≡◌, IfOk};

use crate::Made;
use std::alloc::Global;
use std::marker::Model;

/// A part of a value in memory of its own: where it could stand and doesn't, it takes no room. Contracts see it as the part.
#[derive(Drop)]
pub struct Boxed<T> {
    part: Box<T>,
}

impl<T> Model for Boxed<T> {
    ghost Value = { T };

    ghost coded = { T.code };

    ghost view = { λ b. b.part.value };
}

impl<T: Drop> Boxed<T> {
    /// The same part.
    pub fn new(alloc: Global, part: T) -> Made<Boxed<T>>
        ensures { IfOk result (λ b. b ≡ part) }
    {
        Ok(Boxed {
            part: Box::new(alloc, part)?,
        })
    }

    /// The part.
    pub fn get(&self) -> &T
        ensures { result.now ≡ self.now }
    {
        &*self.part
    }
}
