//! Laws of the definitions. These functions do nothing: what they ensure is the law.

ghost use Rattle.cap_model.specs.declared.spec.Spec.{Spec};
ghost use Rattle.std.specs.Option.{is_some};
ghost use Rattle.std.specs.Prelude.{◌≡◌, ℕ, List, Option, None, true, length};
ghost use Rattle.cam_base.specs.Lines.{lines};
ghost use Rattle.step_text.specs.Spelling.{spelled, any_word, names};
ghost use Rattle.step_text.specs.StepTexts.{first_unknown, first_fault, steps_of};

/// Where fields are of a step's form and spell none, the name that is told is no thread's.
pub fn unknown_names_are_no_threads()
    ensures { (place : List ℕ → Option ℕ) (fields : List (List ℕ)) → is_some (spelled any_word fields) ≡ true
        → spelled place fields ≡ None → place (first_unknown place (names fields)) ≡ None }
{}

/// Where no fault stands each line that says something spells one step.
pub fn lines_spell_steps()
    ensures { (spec : Spec) (bytes : List ℕ) → first_fault spec bytes ≡ None
        → length (steps_of spec bytes) ≡ length (lines bytes) }
{}
