//! Laws of the definitions. These functions do nothing: what they ensure is the law.

ghost use Rattle.cap_model.specs.Tables.{Has};
ghost use Rattle.authorities.specs.declared.authority.Authority.{Authority};
ghost use Rattle.cap_model.specs.declared.edge.Edge.{Edge};
ghost use Rattle.least_cert.specs.LeastCertificate.{InLeast, IsLeast, KeepsRules};
ghost use Rattle.cap_machine.specs.Runs.{Reaches};
ghost use Rattle.cap_model.specs.declared.spec.Spec.{Spec};
ghost use Rattle.cert_check.specs.Valid.{Valid};
ghost use Rattle.std.specs.Prelude.{◌≢◌, ℕ, List};

/// The rules of certificates hold for the least one, and it decides whether any certificate is valid. What runs reach
/// between labels is in it.
pub fn the_least_certificate_decides()
    ensures keeps { (spec : Spec) (labels : List ℕ) → KeepsRules spec labels (InLeast spec labels) }
    ensures decides { (spec : Spec) (labels : List ℕ) (policy cert least : List Edge) → IsLeast spec labels least
        → Valid spec labels policy cert → Valid spec labels policy least }
    ensures reached { (spec : Spec) (labels : List ℕ) (least : List Edge) → IsLeast spec labels least
        → (l : ℕ) (a : Authority) (m : ℕ) → Reaches spec labels l a m → l ≢ m → Has least l a m }
{}
