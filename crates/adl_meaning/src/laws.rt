//! What the definitions promise together, as functions that do nothing.

ghost use Rattle.adl_meaning.specs.Connectors.{text_of, connector_of};
ghost use Rattle.adl_meaning.specs.Faults.{precedes, least, noted};
ghost use Rattle.cam_base.specs.Gather.{IsIn};
ghost use Rattle.adl_ast.specs.declared.source.Source.{Source as Tree};
ghost use Rattle.adl_meaning.specs.NameFaults.{first_name_fault, AreNamesSound};
ghost use Rattle.adl_meaning.specs.declared.connector.Connector.{Connector as Kind};
ghost use Rattle.cam_base.specs.declared.place.Fault.{Fault as Wrong};
ghost use Rattle.std.specs.Prelude.{◌≡◌, ◌↔◌, ◌++◌, ℕ, false, List as Seq, Option as Maybe, Some, None};

/// The first fault of a list is one of them, and none comes before it. Where there is no first fault, there is none.
pub fn first_is_first()
    ensures first { (fs : Seq Wrong) (r : Wrong) → least fs ≡ Some r → IsIn r fs × ((h : Wrong) → IsIn h fs
        → precedes h r ≡ false) }
    ensures none { (fs : Seq Wrong) → least fs ≡ None → (f : Wrong) → IsIn f fs → ⊥ }
{}

/// Noting one list and then another notes both, and what was noted from nothing is the first fault of all.
pub fn noted_is_least()
    ensures both { (o : Maybe Wrong) (xs ys : Seq Wrong) → noted o (xs ++ ys) ≡ noted (noted o xs) ys }
    ensures least { (fs : Seq Wrong) → noted None fs ≡ least fs }
{}

/// Where no fault of names is first, none stands.
pub fn sound_names_have_no_fault()
    ensures { (s : Tree) → first_name_fault s ≡ None → AreNamesSound s }
{}

/// Each connector has one word, and each word at most one connector.
pub fn connectors_are_their_words()
    ensures { (word : Seq ℕ) (k : Kind) → (connector_of word ≡ Some k) ↔ (word ≡ text_of k) }
{}
