//! Laws of the definitions.

ghost use Rattle.authorities.specs.declared.authority.Authority.TheVariants.{Reply};
ghost use Rattle.authorities.specs.declared.authority.Authority.{Authority};
ghost use Rattle.cap_model.specs.Canonical.{canonical};
ghost use Rattle.cap_model.specs.Confers.{confers};
ghost use Rattle.cap_model.specs.Example.{echo, echo_text, driver, driver_text, space, space_text};
ghost use Rattle.cap_model.specs.Kept.{IsKept};
ghost use Rattle.cap_model.specs.KeptExamples.{kept_ones, faulty_ones};
ghost use Rattle.cap_model.specs.Lessened.{lessened};
ghost use Rattle.cap_model.specs.Lookup.{place_of};
ghost use Rattle.cap_model.specs.declared.cap.Cap.{Cap};
ghost use Rattle.cap_model.specs.declared.rights.Rights.{Rights};
ghost use Rattle.cap_model.specs.declared.spec.Entry.{Entry};
ghost use Rattle.cap_model.specs.declared.spec.Spec.{Spec};
ghost use Rattle.std.specs.Prelude.{◌≡◌, ◌≢◌, ℕ, Some, slice_get, true};

/// In a kept spec each object is found under its own name.
pub fn objects_are_found()
    ensures { (spec : Spec) (place : ℕ) (entry : Entry) → IsKept spec → slice_get spec.entries place ≡ Some entry
        → place_of spec.entries entry.name ≡ Some place }
{}

/// A lessened capability confers nothing that the capability doesn't.
pub fn lessened_confers_no_more()
    ensures { (spec : Spec) (cap : Cap) (rights : Rights) (a : Authority) → confers spec (lessened cap rights) a ≡ true
        → confers spec cap a ≡ true }
{}

/// No capability confers `Reply`.
pub fn no_capability_confers_reply()
    ensures { (spec : Spec) (cap : Cap) (a : Authority) → confers spec cap a ≡ true → a ≢ Reply }
{}

/// Specs on the two sides of each condition: the ones are kept, the others aren't.
pub fn conditions_are_sharp()
    ensures kept { (i : ℕ) (spec : Spec) → slice_get kept_ones i ≡ Some spec → IsKept spec }
    ensures faulty { (i : ℕ) (spec : Spec) → slice_get faulty_ones i ≡ Some spec → IsKept spec → ⊥ }
{}

/// Three small systems are kept, and are written as their texts show.
pub fn examples_are_written()
    ensures echo { canonical echo ≡ echo_text }
    ensures driver { canonical driver ≡ driver_text }
    ensures space { canonical space ≡ space_text }
    ensures kept { IsKept echo × IsKept driver × IsKept space }
{}
