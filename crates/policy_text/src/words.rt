//! Sets of words that stand in a text.

ghost use Rattle.policy_text.specs.WordSets.{has, IsAdded};
ghost use Rattle.std.specs.Prelude.{◌≡◌, ◌+◌, ◌||◌, false, List, ℕ, IfOk, OnOk};

use cam_base::{Made, NoMemory};
use name_tables::SpreadNames;
use std::alloc::Global;

/// Words of a text, each once, and how many there are.
#[derive(Drop)]
pub struct Words<'a> {
    pub words: SpreadNames<'a, ()>,
    pub len: usize,
}

impl<'a> Words<'a> {
    /// The set without words, with room for so many.
    pub fn with_room(alloc: Global, room: usize) -> Made<Words<'a>>
        ensures none { IfOk result (λ set. (word : List ℕ) → has set word ≡ false) }
        ensures len { IfOk result (λ set. set.len ≡ 0) }
    {
        Ok(Words {
            words: SpreadNames::with_room(alloc, room)?,
            len: 0,
        })
    }

    /// Whether the word is in the set. Takes no memory.
    pub fn has(&self, word: &'a [u8]) -> bool
        ensures { result ≡ has self.now word.now }
    {
        self.words.get(word).is_some()
    }

    /// Puts the word into the set.
    pub fn add(&mut self, word: &'a [u8]) -> Made<()>
        ensures { OnOk result (IsAdded word.entry.now self.old self.new) }
    {
        let more = match self.len.checked_add(1) {
            Some(more) => more,
            None => return Err(NoMemory),
        };
        if !self.words.add(word, ())? {
            self.len = more;
        }
        Ok(())
    }
}
