//! The claims. These functions do nothing: what they ensure is the law.

ghost use Rattle.cap_model.specs.ObjectLabels.{label_of};
ghost use Rattle.cap_model.specs.Tables.{Has};
ghost use Rattle.authorities.specs.declared.authority.Authority.{Authority};
ghost use Rattle.cap_model.specs.declared.edge.Edge.{Edge};
ghost use Rattle.cap_machine.specs.Runs.{Run};
ghost use Rattle.cap_machine.specs.declared.step.Step.{Step};
ghost use Rattle.cap_model.specs.Auth.{Auth};
ghost use Rattle.cap_model.specs.State.{boot, State};
ghost use Rattle.cap_model.specs.declared.spec.Spec.{Spec};
ghost use Rattle.cert_check.specs.Valid.{Stays, Valid};
ghost use Rattle.flow_model.specs.Act.{actor, Act};
ghost use Rattle.flow_model.specs.ActRuns.{IsReached};
ghost use Rattle.flow_model.specs.ActTable.{ActTo};
ghost use Rattle.flow_model.specs.World.{World};
ghost use Rattle.flow_model.specs.Less.{IsLess};
ghost use Rattle.flow_model.specs.Touched.{IsLet};
ghost use Rattle.std.specs.Prelude.{◌≢◌, ℕ, List};

/// Where every edge that runs reach is in the policy, each act, at any moment, changes only what the policy lets the
/// label of its actor change. A certificate that keeps the rules is enough.
pub fn acts_keep_to_the_policy()
    ensures stays { (spec : Spec) (labels : List ℕ) (policy : List Edge) → Stays spec labels policy → (w new : World) (act : Act)
        → IsReached spec w → ActTo spec w act new → IsLet policy labels (label_of labels (actor act)) w new }
    ensures certified { (spec : Spec) (labels : List ℕ) (policy cert : List Edge) → Valid spec labels policy cert
        → (w new : World) (act : Act) → IsReached spec w → ActTo spec w act new
        → IsLet policy labels (label_of labels (actor act)) w new }
{}

/// The checker's yes speaks from any moment of a run on: whatever a run led to, whatever goes on from there has no edge
/// between labels outside the policy.
pub fn policies_stay_kept()
    ensures { (spec : Spec) (labels : List ℕ) (policy cert : List Edge) → Valid spec labels policy cert
        → (before after : List Step) (s new : State) → Run spec (boot spec) before s → Run spec s after new
        → (l : ℕ) (a : Authority) (m : ℕ) → Auth spec labels new l a m → l ≢ m → Has policy l a m }
{}

/// A spec that gives less keeps the rules under the same certificate.
pub fn less_is_valid()
    ensures { (less spec : Spec) (labels : List ℕ) (policy cert : List Edge) → IsLess less spec
        → Valid spec labels policy cert → Valid less labels policy cert }
{}
