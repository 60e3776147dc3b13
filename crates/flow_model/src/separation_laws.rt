//! The claims over every run of acts. These functions do nothing: what they ensure is the law.

ghost use Rattle.cap_model.specs.declared.edge.Edge.{Edge};
ghost use Rattle.cap_model.specs.declared.spec.Spec.{Spec};
ghost use Rattle.cert_check.specs.Valid.{Stays, Valid};
ghost use Rattle.flow_model.specs.Separates.{Separates};
ghost use Rattle.flow_model.specs.Act.{Act};
ghost use Rattle.flow_model.specs.ActRuns.{ActRun, IsReached, acts_in};
ghost use Rattle.flow_model.specs.Agree.{Agree};
ghost use Rattle.flow_model.specs.Flow.{IsClosed};
ghost use Rattle.flow_model.specs.Programs.{turn_of, ProgramRun, Programs};
ghost use Rattle.flow_model.specs.World.{World};
ghost use Rattle.std.specs.Prelude.{◌≡◌, ℕ, Bool, List, map};

/// Where every edge that runs reach is in the policy, and nothing flows into a set of labels, those of the set stay as if
/// the others did nothing, whatever they do. A certificate that keeps the rules is enough.
pub fn others_change_nothing()
    ensures separates { (spec : Spec) (labels : List ℕ) (policy : List Edge) (inside : ℕ → Bool) → Stays spec labels policy
        → IsClosed policy inside → Separates spec labels inside }
    ensures certified { (spec : Spec) (labels : List ℕ) (policy cert : List Edge) (inside : ℕ → Bool)
        → Valid spec labels policy cert → IsClosed policy inside → Separates spec labels inside }
{}

/// So what those of the set do decides all that is theirs. Take two runs of acts, from worlds that agree on the set, in
/// which the objects of the set do the same, and others whatever they do. The worlds at the end agree on the set.
pub fn own_acts_decide()
    ensures { (spec : Spec) (labels : List ℕ) (policy : List Edge) (inside : ℕ → Bool) → Stays spec labels policy
        → IsClosed policy inside → (w v new end : World) (acts others : List Act) → IsReached spec w → IsReached spec v
        → Agree labels inside w v → ActRun spec w acts new → ActRun spec v others end
        → acts_in labels inside acts ≡ acts_in labels inside others → Agree labels inside new end }
{}

/// And where the threads of the set run programs, so that what each attempts next depends on what it has seen alone, it is
/// enough that their turns come in the same order, and that interrupts and devices of the set bring the same. Whatever
/// programs the others run, and whenever, the worlds at the end agree on the set.
pub fn turns_decide()
    ensures { (spec : Spec) (labels : List ℕ) (policy : List Edge) (inside : ℕ → Bool) → Stays spec labels policy
        → IsClosed policy inside → (programs : Programs) (w v new end : World) (acts others : List Act) → IsReached spec w
        → IsReached spec v → Agree labels inside w v → ProgramRun spec programs labels inside w acts new
        → ProgramRun spec programs labels inside v others end
        → map turn_of (acts_in labels inside acts) ≡ map turn_of (acts_in labels inside others)
        → Agree labels inside new end }
{}
