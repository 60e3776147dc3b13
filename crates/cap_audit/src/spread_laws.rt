//! Laws of the definitions. These functions do nothing: what they ensure is the law.

ghost use Rattle.authorities.specs.declared.authority.Authority.{Authority};
ghost use Rattle.cap_model.specs.Tables.{Has};
ghost use Rattle.cap_model.specs.declared.edge.Edge.{Edge};
ghost use Rattle.cap_audit.specs.Audited.{Audited};
ghost use Rattle.cap_audit.specs.Spread.{HoldsNoThread, IsClosed, Spread};
ghost use Rattle.cap_audit.specs.Within.{IsWithin};
ghost use Rattle.cap_machine.specs.Runs.{Run, Reaches};
ghost use Rattle.cap_machine.specs.declared.step.Step.{Step};
ghost use Rattle.cap_model.specs.Kept.{IsKept};
ghost use Rattle.cap_model.specs.State.{State, boot};
ghost use Rattle.cap_model.specs.declared.cap.Cap.{Cap};
ghost use Rattle.cap_model.specs.declared.spec.Spec.{Spec};
ghost use Rattle.std.specs.Prelude.{◌≡◌, ◌≢◌, ◌↔◌, ℕ, Bool, true, List};

/// The rules of spreading hold for the Spread, and it lies in every relation for which they hold.
pub fn the_spread_is_least()
    ensures closed { (spec : Spec) → IsClosed spec (Spread spec) }
    ensures least { (spec : Spec) (has : ℕ → Cap → Bool) → IsClosed spec (λ c cap. has c cap ≡ true) → (c : ℕ) (cap : Cap)
        → Spread spec c cap → has c cap ≡ true }
{}

/// Where no CNode holds a capability to a thread, every run lies in the Spread.
pub fn runs_lie_in_the_spread()
    ensures { (spec : Spec) (steps : List Step) (s : State) → HoldsNoThread spec → Run spec (boot spec) steps s
        → IsWithin spec s }
{}

/// Then the edges that runs of a kept spec reach are exactly those of the boot state and of the Spread.
pub fn reached_edges_are_audited()
    ensures { (spec : Spec) (labels : List ℕ) → IsKept spec → HoldsNoThread spec → (l : ℕ) (a : Authority) (m : ℕ)
        → (Reaches spec labels l a m) ↔ Audited spec labels l a m }
{}
