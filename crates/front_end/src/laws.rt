//! What the definitions promise together, as functions that do nothing.

ghost use Rattle.adl_ast.specs.declared.source.Source.{Source as Tree};
ghost use Rattle.adl_import.specs.Loaded.{IsLoaded};
ghost use Rattle.adl_meaning.specs.declared.flat.Flat.{Flat};
ghost use Rattle.adl_meaning.specs.declared.settled.Settled.{Settled};
ghost use Rattle.cam_io.specs.Contents.{Contents};
ghost use Rattle.front_end.specs.Fronts.{IsFront, IsMeaning};
ghost use Rattle.front_end.specs.Steps.{HasMeaning, IsWhole};
ghost use Rattle.cam_base.specs.Unread.{SourceError as Refusal, yields};
ghost use Rattle.front_end.specs.declared.phases.FrontEnd.{FrontEnd as Assigned};
ghost use Rattle.front_end.specs.declared.phases.Meaning.{Meaning as Meant};
ghost use Rattle.cspace_layout.specs.Within.{IsWithin};
ghost use Rattle.std.specs.Prelude.{◌≡◌, ◌+◌, ◌<◌, ◌^◌, ℕ, false, length, List as Seq, Option, Some, Result, Ok};

/// In given contents there is one answer of `meaning_of` and one of `front`, aside from failed reads and want of memory.
pub fn answers_are_one()
    ensures meaning { (m : Contents) (root : Seq ℕ) (old new later last : Seq ℕ → ℕ) (a b : Result Meant Refusal)
        → yields a ≡ false → yields b ≡ false
        → IsMeaning root m old new a → IsMeaning root m later last b → a ≡ b }
    ensures front { (m : Contents) (root : Seq ℕ) (old new later last : Seq ℕ → ℕ) (a b : Result Assigned Refusal)
        → yields a ≡ false → yields b ≡ false
        → IsFront root m old new a → IsFront root m later last b → a ≡ b }
{}

/// A source that is loaded has few files and few items in each, each of its files is spelled by few tokens, and the name of its
/// root is text.
pub fn loaded_sources_are_whole()
    ensures { (contents : Contents) (root : Seq ℕ) (s : Tree) → IsLoaded contents root (Ok s) → IsWhole s }
{}

/// What such a source means, where no fault stands, is within the limits of layouts and has few labels.
pub fn meanings_are_within()
    ensures within { (s : Tree) (flat : Flat) (settled : Settled) → HasMeaning s flat settled → IsWithin s flat }
    ensures labels { (s : Tree) (flat : Flat) (settled : Settled) → HasMeaning s flat settled
        → length flat.domains + length flat.connections + length flat.leaves < 2 ^ 32 }
{}
