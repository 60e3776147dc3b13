//! Laws of the definitions. These functions do nothing: what they ensure is the law.

ghost use Rattle.cap_machine.specs.Checks.{checks, first_failing};
ghost use Rattle.cap_machine.specs.StepTable.{StepTo};
ghost use Rattle.cap_machine.specs.declared.step.Step.{Step};
ghost use Rattle.cap_model.specs.FitsSpec.{FitsSpec};
ghost use Rattle.cap_model.specs.State.{State, boot};
ghost use Rattle.cap_model.specs.Kept.{IsKept};
ghost use Rattle.cap_model.specs.declared.spec.Spec.{Spec};
ghost use Rattle.cap_machine.specs.Sample.{sample, rows, answer_of};
ghost use Rattle.std.specs.Prelude.{◌≡◌, ◌↔◌, map, None};

/// The table has a next state exactly where every test of the stated order passes, and then it has one.
pub fn steps_follow_the_table()
    ensures legal { (spec : Spec) (s : State) (step : Step) → (first_failing (checks spec s step) ≡ None)
        ↔ ((new : State) × StepTo spec s step new) }
    ensures one { (spec : Spec) (s : State) (step : Step) (new other : State) → StepTo spec s step new
        → StepTo spec s step other → new ≡ other }
{}

/// The boot state fits its spec, and steps lead to states that fit it.
pub fn states_keep_fitting()
    ensures boot { (spec : Spec) → IsKept spec → FitsSpec spec (boot spec) }
    ensures step { (spec : Spec) (s new : State) (step : Step) → FitsSpec spec s → StepTo spec s step new → FitsSpec spec new }
{}

/// In a small system, which is kept, each step of a table has the answer that the table tells.
pub fn answers_are_told()
    ensures kept { IsKept sample }
    ensures answers { map answer_of rows ≡ map (λ row. row.answer) rows }
{}
