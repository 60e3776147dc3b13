ghost use Rattle.std.specs.Prelude.{◌≡◌};

use crate::ShortPlace;
use cam_base::{Name, Place};
use std::alloc::Global;
use std::default::MadeWith;

/// A word of a source that is a name, with the place of the word.
#[derive(Drop)]
pub struct Id {
    pub name: Name,
    pub place: ShortPlace,
}

impl Id {
    /// The place of the word.
    pub fn place(&self) -> Place
        ensures { result ≡ self.now.place }
    {
        self.place.get()
    }
}

/// The word that fills the unused places of a dotted name. Takes no memory.
impl MadeWith<Global> for Id {
    fn made_with(alloc: Global) -> Id {
        Id {
            name: Name::made_with(alloc),
            place: ShortPlace::default(),
        }
    }
}
