ghost use Rattle.std.specs.Prelude.{◌≡◌, IfOk};

use cam_base::{Made, NoMemory, Place};
use std::marker::Model;

/// A place in half the room. Contracts see it as the place.
#[derive(Default, Drop)]
pub struct ShortPlace {
    file: u32,
    first: u32,
    end: u32,
}

impl Model for ShortPlace {
    ghost use Rattle.cam_base.specs.declared.place.Place.{Place};

    ghost Value = { Place };

    ghost view = { λ p. record { file = p.file; first = p.first; end = p.end } };
}

impl ShortPlace {
    /// The same place. A file of 4 GiB is met as one for which memory is wanting.
    pub fn new(place: Place) -> Made<ShortPlace>
        ensures { IfOk result (λ short. short ≡ place) }
    {
        match (u32::try_from(place.first), u32::try_from(place.end)) {
            (Ok(first), Ok(end)) => Ok(ShortPlace {
                file: place.file,
                first,
                end,
            }),
            _ => Err(NoMemory),
        }
    }

    /// The place.
    pub fn get(&self) -> Place
        ensures { result ≡ self.now }
    {
        Place {
            file: self.file,
            first: self.first as u64,
            end: self.end as u64,
        }
    }
}
