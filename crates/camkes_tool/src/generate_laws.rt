//! What the definitions promise together, as a function that does nothing.

ghost use Rattle.arch_compile.specs.declared.summary.Summary.{Summary as Numbers};
ghost use Rattle.cam_base.specs.Unread.{SourceError as Refusal, yields};
ghost use Rattle.camkes_tool.specs.Generated.{IsGenerated};
ghost use Rattle.std.specs.Prelude.{◌≡◌, ℕ, false, Result};

/// For each number of clients there is one answer of generating, aside from want of memory.
pub fn generated_answers_are_one()
    ensures { (count : ℕ) (a b : Result Numbers Refusal) → yields a ≡ false → yields b ≡ false
        → IsGenerated count a → IsGenerated count b → a ≡ b }
{}
