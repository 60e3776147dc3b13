//! The laws, as functions that do nothing.

ghost use Rattle.arch_policy.specs.Policies.{IsCertificateOf, IsPolicyOf};
ghost use Rattle.arch_policy.specs.Reasons.{IsReasoned};
ghost use Rattle.arch_policy.specs.Tables.{AreApart};
ghost use Rattle.cap_model.specs.Edges.{edge};
ghost use Rattle.cap_model.specs.Tables.{Has};
ghost use Rattle.authorities.specs.declared.authority.Authority.{Authority};
ghost use Rattle.cap_model.specs.declared.edge.Edge.{Edge};
ghost use Rattle.cap_machine.specs.Runs.{Reaches, Run};
ghost use Rattle.cap_machine.specs.StepTable.{StepTo};
ghost use Rattle.cap_machine.specs.declared.step.Step.{Step};
ghost use Rattle.cap_model.specs.Kept.{IsKept};
ghost use Rattle.cap_model.specs.State.{State, boot};
ghost use Rattle.cert_check.specs.Valid.{Valid};
ghost use Rattle.reach_laws.specs.LaidOut.{IsLaidOut};
ghost use Rattle.reach_laws.specs.Plain.{HoldsPlain, IsPlainStep};
ghost use Rattle.spec_laws.specs.Connected.{IsConnected};
ghost use Rattle.spec_laws.specs.Policy.{policy_tables};
ghost use Rattle.std.specs.Prelude.{◌≢◌, ◌↔◌, ℕ, List};
ghost use Rattle.system_spec.specs.Made.{labels_of, spec_of};
ghost use Rattle.system_spec.specs.Tables.{Tables};

/// The spec of a system and the labels of its objects are laid out for its policy: above all, the boot edges between different
/// labels are just those that are given directly.
pub fn specs_are_laid_out()
    ensures { (t : Tables) → IsConnected t → AreApart (policy_tables t) → IsKept (spec_of t)
        → IsLaidOut (policy_tables t) (spec_of t) (labels_of t).by_object }
{}

/// The CNodes of such a spec hold capabilities to endpoints without G, to notifications and to interrupts alone.
pub fn laid_out_specs_hold_plain()
    ensures { (t : Tables) → IsConnected t → HoldsPlain (spec_of t) }
{}

/// No step is ever legal that copies a capability or changes a root, a space or a mapping.
pub fn laid_out_specs_take_plain_steps()
    ensures { (t : Tables) → IsConnected t → (steps : List Step) (s : State) → Run (spec_of t) (boot (spec_of t)) steps s
        → (step : Step) (new : State) → StepTo (spec_of t) s step new → IsPlainStep step }
{}

/// The certificate of a system keeps all rules for its spec, labels and policy.
pub fn certificates_are_valid()
    ensures { (t : Tables) → IsConnected t → AreApart (policy_tables t) → IsKept (spec_of t)
        → (policy cert : List Edge) → IsPolicyOf (policy_tables t) policy → IsCertificateOf (policy_tables t) cert
        → Valid (spec_of t) (labels_of t).by_object policy cert }
{}

/// Some run of a system's spec reaches an edge between different labels exactly where it has a reason.
pub fn reached_edges_are_reasoned()
    ensures { (t : Tables) → IsConnected t → AreApart (policy_tables t) → IsKept (spec_of t)
        → (l : ℕ) (a : Authority) (m : ℕ) → l ≢ m
        → Reaches (spec_of t) (labels_of t).by_object l a m ↔ IsReasoned (policy_tables t) (edge l a m) }
{}

/// Every certificate that keeps the rules for the spec, with whatever policy, has all edges of the system's own.
pub fn certificates_are_least()
    ensures { (t : Tables) → IsConnected t → AreApart (policy_tables t) → IsKept (spec_of t)
        → (cert : List Edge) → IsCertificateOf (policy_tables t) cert
        → (policy other : List Edge) → Valid (spec_of t) (labels_of t).by_object policy other
        → (l : ℕ) (a : Authority) (m : ℕ) → Has cert l a m → Has other l a m }
{}
