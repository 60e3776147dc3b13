//! The laws, as functions that do nothing.

ghost use Rattle.arch_compile.specs.Built.{IsBuildOf};
ghost use Rattle.arch_compile.specs.declared.building.Build.{Build};
ghost use Rattle.arch_compile.specs.Sound.{object_labels};
ghost use Rattle.cam_io.specs.Contents.{Contents};
ghost use Rattle.camkes_tool.specs.Static.{IsStatic};
ghost use Rattle.camkes_tool.specs.Theorem.{IsSafe};
ghost use Rattle.cap_machine.specs.Runs.{Run};
ghost use Rattle.cap_machine.specs.declared.step.Step.{Step};
ghost use Rattle.cap_model.specs.State.{boot, State};
ghost use Rattle.cap_model.specs.declared.spec.Spec.{Spec};
ghost use Rattle.flow_model.specs.Separates.{Separates};
ghost use Rattle.flow_model.specs.Flow.{IsClosed};
ghost use Rattle.reach_laws.specs.Plain.{HoldsPlain};
ghost use Rattle.std.specs.Prelude.{ℕ, Bool, List};

/// In whatever is compiled, those of a set of labels into which nothing flows by the policy that is written stay as if the
/// others did nothing.
pub fn builds_are_separated()
    ensures { (root : List ℕ) (contents : Contents) (b : Build) → IsBuildOf root contents b → (inside : ℕ → Bool)
        → IsClosed b.policy.edges inside → Separates b.spec (object_labels b).by_object inside }
{}

/// Where `check` ends with status 0, whoever wrote the texts, so do those of a set into which nothing flows by the policy
/// that is read.
pub fn checked_texts_are_separated()
    ensures { (m : Contents) (cdl policy : List ℕ) (safe : IsSafe m cdl policy) (inside : ℕ → Bool)
        → IsClosed safe.allowed.edges inside → Separates safe.spec safe.labels.by_object inside }
{}

/// Where CNodes hold capabilities to endpoints without G, to notifications and to interrupts alone: in whatever state a run leads
/// to, no frame was added to a space, roots and spaces are those of boot, and no CNode has a capability that it hadn't at boot.
pub fn plain_memory_is_static()
    ensures { (spec : Spec) → HoldsPlain spec → (steps : List Step) (s : State) → Run spec (boot spec) steps s
        → IsStatic spec s }
{}

/// Whatever threads of a compiled system do: no frame is added to a space, each thread has its root and its space of boot,
/// and no CNode has a capability that it hadn't at boot.
pub fn memory_of_builds_is_static()
    ensures { (root : List ℕ) (contents : Contents) (b : Build) → IsBuildOf root contents b → (steps : List Step) (s : State)
        → Run b.spec (boot b.spec) steps s → IsStatic b.spec s }
{}
