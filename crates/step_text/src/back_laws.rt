//! Laws of the texts of steps.

ghost use Rattle.cam_base.specs.Names.{is_name};
ghost use Rattle.cap_machine.specs.Runs.{Run};
ghost use Rattle.cap_machine.specs.declared.step.Step.{Step};
ghost use Rattle.cap_model.specs.Kept.{IsKept};
ghost use Rattle.cap_model.specs.State.{State, boot};
ghost use Rattle.cap_model.specs.declared.spec.Spec.{Spec};
ghost use Rattle.std.specs.List.{All, list_all};
ghost use Rattle.std.specs.Prelude.{◌≡◌, ◌<◌, ◌≤◌, ◌*◌, ◌^◌, List, None, length, true};
ghost use Rattle.step_text.specs.Readable.{IsReadable};
ghost use Rattle.step_text.specs.StepTexts.{bytes_limit, first_fault, steps_limit, steps_of};
ghost use Rattle.step_text.specs.StepLines.{steps_text};

/// The text of steps whose threads are read by name spells these steps, and has no fault within the limits.
pub fn written_steps_are_read_back()
    ensures fine { (spec : Spec) (steps : List Step) → All (IsReadable spec) steps → length steps ≤ steps_limit
        → length (steps_text spec steps) ≤ bytes_limit → first_fault spec (steps_text spec steps) ≡ None }
    ensures same { (spec : Spec) (steps : List Step) → All (IsReadable spec) steps
        → steps_of spec (steps_text spec steps) ≡ steps }
{}

/// The steps of a run of a spec whose objects have names can be read back: who acts is a thread, and numbers that hold something
/// are small. Their lines are short.
pub fn runs_are_readable()
    ensures readable { (spec : Spec) (steps : List Step) (new : State) → IsKept spec
        → list_all (λ entry. is_name entry.name) spec.entries ≡ true → Run spec (boot spec) steps new → length steps < 2 ^ 63
        → All (IsReadable spec) steps }
    ensures short { (spec : Spec) (steps : List Step) → list_all (λ entry. is_name entry.name) spec.entries ≡ true
        → All (IsReadable spec) steps → length (steps_text spec steps) ≤ 330 * length steps }
{}
