//! What is reached by one step, as functions that do nothing.

ghost use Rattle.authorities.specs.declared.authority.Authority.TheVariants.{AsyncSend, Call, Handle, Receive, Reply};
ghost use Rattle.cap_machine.specs.Runs.{Reaches};
ghost use Rattle.cap_model.specs.Auth.{Held};
ghost use Rattle.cap_model.specs.State.{boot};
ghost use Rattle.cap_model.specs.declared.spec.Spec.{Spec};
ghost use Rattle.reach_laws.specs.Arranged.{IsArranged};
ghost use Rattle.reach_laws.specs.Plain.{HoldsPlain, IsPlainStep};
ghost use Rattle.cap_machine.specs.Runs.{Run};
ghost use Rattle.cap_machine.specs.StepTable.{StepTo};
ghost use Rattle.cap_machine.specs.declared.step.Step.{Step};
ghost use Rattle.cap_model.specs.State.{State};
ghost use Rattle.std.specs.Prelude.{◌≢◌, ℕ, List};

/// Where one label may call at an endpoint and another receives at it, the second comes to reply to the first.
pub fn calls_are_reached()
    ensures { (spec : Spec) (labels : List ℕ) → IsArranged spec labels → (s e r : ℕ)
        → Held spec labels (boot spec) s Call e → Held spec labels (boot spec) r Receive e → s ≢ r
        → Reaches spec labels r Reply s }
{}

/// Where a label handles a device and may signal a notification, the device comes to signal it.
pub fn binds_are_reached()
    ensures { (spec : Spec) (labels : List ℕ) → IsArranged spec labels → (s d n : ℕ)
        → Held spec labels (boot spec) s Handle d → Held spec labels (boot spec) s AsyncSend n
        → Reaches spec labels d AsyncSend n }
{}

/// Where CNodes hold capabilities to endpoints without G, to notifications and to interrupts alone, no run comes to a state in
/// which a step is legal that copies a capability or changes a root, a space or a mapping.
pub fn plain_steps_alone_are_legal()
    ensures { (spec : Spec) → HoldsPlain spec → (steps : List Step) (s : State) → Run spec (boot spec) steps s
        → (step : Step) (new : State) → StepTo spec s step new → IsPlainStep step }
{}
