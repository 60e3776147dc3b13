//! The laws, as functions that do nothing.

ghost use Rattle.arch_compile.specs.Built.{IsBuildOf};
ghost use Rattle.arch_compile.specs.declared.building.Build.{Build};
ghost use Rattle.camkes_tool.specs.AsRead.{HoldsAsRead};
ghost use Rattle.camkes_tool.specs.ReadBack.{AreReadBack};
ghost use Rattle.camkes_tool.specs.TriosValid.{IsTrioValid};
ghost use Rattle.cam_io.specs.Contents.{Contents};
ghost use Rattle.std.specs.Prelude.{ℕ, List, Option};

/// The capDL text, the policy text and the certificate text of a build are within the limits of their readers. The first is a
/// text of the build's spec and of no other, the second of its policy and of no other, and the third, under this policy, of
/// its certificate and of no other.
pub fn texts_are_read_back()
    ensures { (root : List ℕ) (contents : Contents) (b : Build) → IsBuildOf root contents b → AreReadBack b }
{}

/// The policy of a build gives each object of its spec a label, and by these labels whatever judges the three as the checker
/// does says yes.
pub fn trios_are_valid()
    ensures { (root : List ℕ) (contents : Contents) (b : Build) → IsBuildOf root contents b → IsTrioValid b }
{}

/// Whatever is read of the three texts of a build, threads of the capDL reach between labels of the policy exactly what the
/// connectors of the source assign, and whatever judges the three as the checker does says yes.
pub fn texts_hold_as_read()
    ensures { (root : List ℕ) (contents : Contents) (b : Build) → IsBuildOf root contents b → HoldsAsRead b }
{}
