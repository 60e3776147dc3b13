//! What the definitions promise together, as functions that do nothing.

ghost use Rattle.arch_compile.specs.Compiled.{IsCompiled};
ghost use Rattle.arch_compile.specs.declared.building.Build.{Build};
ghost use Rattle.cam_io.specs.Contents.{Contents};
ghost use Rattle.cam_base.specs.Unread.{SourceError as Refusal, yields};
ghost use Rattle.std.specs.Prelude.{◌≡◌, ℕ, false, List as Seq, Some, Result};

/// In given contents there is one answer of `compile`, aside from failed reads and want of memory.
pub fn answers_are_one()
    ensures { (m : Contents) (root : Seq ℕ) (old new later last : Seq ℕ → ℕ) (a b : Result Build Refusal)
        → yields a ≡ false → yields b ≡ false
        → IsCompiled root m old new a → IsCompiled root m later last b → a ≡ b }
{}
