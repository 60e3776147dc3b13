//! The laws, as functions that do nothing.

ghost use Rattle.arch_policy.specs.Policies.{IsCertificateOf, IsPolicyOf};
ghost use Rattle.arch_policy.specs.Reasons.{DirectReason, IsReasoned};
ghost use Rattle.arch_policy.specs.Tables.{AreApart, Tables};
ghost use Rattle.cap_model.specs.Edges.{edge};
ghost use Rattle.cap_model.specs.Tables.{Has};
ghost use Rattle.authorities.specs.declared.authority.Authority.TheVariants.{Read, Write};
ghost use Rattle.authorities.specs.declared.authority.Authority.{Authority};
ghost use Rattle.cap_model.specs.declared.edge.Edge.{Edge};
ghost use Rattle.cap_machine.specs.Runs.{Reaches};
ghost use Rattle.cap_model.specs.Auth.{Auth, OfTable};
ghost use Rattle.cap_model.specs.State.{boot};
ghost use Rattle.cap_model.specs.declared.spec.Spec.{Spec};
ghost use Rattle.cert_check.specs.Valid.{Valid};
ghost use Rattle.reach_laws.specs.Flat.{IsFlat};
ghost use Rattle.reach_laws.specs.LaidOut.{IsLaidOut};
ghost use Rattle.reach_laws.specs.Pieces.{HasPieces};
ghost use Rattle.reach_laws.specs.Windows.{HasWindows};
ghost use Rattle.std.specs.Prelude.{◌≡◌, ◌≢◌, ◌↔◌, ◌⊎◌, ℕ, List};

/// The certificate of a system keeps all rules for the spec that was laid out for it, its labels and its policy.
pub fn certificates_are_valid()
    ensures { (t : Tables) (spec : Spec) (labels : List ℕ) (policy cert : List Edge)
        → IsFlat t.source t.flat → AreApart t → IsLaidOut t spec labels → IsPolicyOf t policy → IsCertificateOf t cert
        → Valid spec labels policy cert }
{}

/// Some run reaches an edge between different labels exactly where it has a reason.
pub fn reached_edges_are_reasoned()
    ensures { (t : Tables) (spec : Spec) (labels : List ℕ) → IsFlat t.source t.flat → AreApart t → IsLaidOut t spec labels
        → (l : ℕ) (a : Authority) (m : ℕ) → l ≢ m → Reaches spec labels l a m ↔ IsReasoned t (edge l a m) }
{}

/// Every certificate that keeps the rules for the spec, with whatever policy, has all edges of the system's own.
pub fn certificates_are_least()
    ensures { (t : Tables) (spec : Spec) (labels : List ℕ) (cert : List Edge)
        → IsFlat t.source t.flat → AreApart t → IsLaidOut t spec labels → IsCertificateOf t cert
        → (policy other : List Edge) → Valid spec labels policy other
        → (l : ℕ) (a : Authority) (m : ℕ) → Has cert l a m → Has other l a m }
{}

/// Where page tables hold pages of windows, their edges between different labels are what ends at memory are given.
pub fn windows_are_direct()
    ensures only { (t : Tables) (spec : Spec) (labels : List ℕ) → HasWindows t spec labels
        → (l : ℕ) (a : Authority) (m : ℕ) → l ≢ m → OfTable spec labels l a m → DirectReason t (edge l a m) }
    ensures every { (t : Tables) (spec : Spec) (labels : List ℕ) → HasWindows t spec labels
        → (l m : ℕ) (a : Authority) → (a ≡ Read) ⊎ (a ≡ Write) → DirectReason t (edge l a m) → OfTable spec labels l a m }
{}

/// Where the boot edges are of these pieces, those between different labels are just what is given directly.
pub fn pieces_are_direct()
    ensures { (t : Tables) (spec : Spec) (labels : List ℕ) → HasPieces t spec labels
        → (l : ℕ) (a : Authority) (m : ℕ) → l ≢ m → Auth spec labels (boot spec) l a m ↔ DirectReason t (edge l a m) }
{}
