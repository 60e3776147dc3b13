//! The claim over every run. This function does nothing: what it ensures is the law.

ghost use Rattle.cap_model.specs.declared.edge.Edge.{Edge};
ghost use Rattle.cap_model.specs.declared.spec.Spec.{Spec};
ghost use Rattle.cert_check.specs.Valid.{Stays, Valid};
ghost use Rattle.std.specs.Prelude.{ℕ, List};

/// Where the rules hold, every edge that any run reaches is in the policy or within one label.
pub fn valid_certificates_are_sound()
    ensures { (spec : Spec) (labels : List ℕ) (policy cert : List Edge) → Valid spec labels policy cert
        → Stays spec labels policy }
{}
