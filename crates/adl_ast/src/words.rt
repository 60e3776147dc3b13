ghost use Rattle.std.specs.Prelude.{◌≡◌, [], ◌∷◌, ◌++◌, OnOk, OnErr};

use cam_base::{Made, Name};
use smallvec::SmallVec;
use std::alloc::Global;
use std::marker::Model;

/// The words of a type, in order; a single one takes no memory of its own. Contracts see it as the list of its words.
#[derive(Drop)]
pub struct Words {
    names: SmallVec<Name, 1>,
}

impl Model for Words {
    ghost use Rattle.std.specs.Prelude.{List, ℕ};

    ghost Value = { List (List ℕ) };

    ghost view = { λ w. w.names.items };
}

impl Words {
    /// No word yet. Takes no memory.
    pub fn new(alloc: Global) -> Words
        ensures { result ≡ [] }
    {
        Words {
            names: SmallVec::new(alloc),
        }
    }

    /// Puts a word at the end. Refused, it leaves the words as they were.
    pub fn push(&mut self, word: Name) -> Made<()>
        ensures ok { OnOk result (self.new ≡ self.old ++ word ∷ []) }
        ensures err { OnErr result (self.new ≡ self.old) }
    {
        self.names.push(word)?;
        Ok(())
    }

    /// The words in order.
    pub fn as_slice(&self) -> &[Name]
        ensures { result.now ≡ self.now }
    {
        self.names.as_slice()
    }
}
