ghost use Rattle.std.specs.Prelude.{◌≡◌, [], ◌∷◌, ◌++◌, IfOk, OnOk};

use crate::Id;
use cam_base::Made;
use smallvec::SmallVec;
use std::alloc::Global;
use std::marker::Model;

/// The words of a dotted name, in order; two take no memory of their own. Contracts see it as the list of its words.
#[derive(Drop)]
pub struct Dotted {
    ids: SmallVec<Id, 2>,
}

impl Model for Dotted {
    ghost use Rattle.adl_ast.specs.declared.id.Id.{Id};
    ghost use Rattle.std.specs.Prelude.{List};

    ghost Value = { List Id };

    ghost view = { λ d. d.ids.items };
}

impl Dotted {
    /// Two words.
    pub fn pair(alloc: Global, first: Id, second: Id) -> Made<Dotted>
        ensures { IfOk result (λ d. d ≡ first ∷ second ∷ []) }
    {
        let mut ids = SmallVec::new(alloc);
        ids.push(first)?;
        ids.push(second)?;
        Ok(Dotted { ids })
    }

    /// Puts a word at the end.
    pub fn push(&mut self, word: Id) -> Made<()>
        ensures { OnOk result (self.new ≡ self.old ++ word ∷ []) }
    {
        self.ids.push(word)?;
        Ok(())
    }

    /// The words in order.
    pub fn as_slice(&self) -> &[Id]
        ensures { result.now ≡ self.now }
    {
        self.ids.as_slice()
    }
}
