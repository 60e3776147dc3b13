//! Laws of the definitions. These functions do nothing: what they ensure is the law.

ghost use Rattle.cap_model.specs.declared.edge.Edge.{Edge};
ghost use Rattle.cap_model.specs.declared.policy.Policy.{Policy};
ghost use Rattle.cap_model.specs.Policies.{IsPolicy};
ghost use Rattle.cam_base.specs.declared.error.Refused.{Refused};
ghost use Rattle.cam_base.specs.declared.text_fault.TextFault.{TextFault};
ghost use Rattle.policy_text.specs.PolicyLines.{policy_text, cert_text};
ghost use Rattle.policy_text.specs.PolicyTexts.{IsAnswer, IsPolicyRead, IsCertRead, IsPolicyText, IsCertText};
ghost use Rattle.policy_text.specs.Writable.{IsWritable, IsWritableCert};
ghost use Rattle.std.specs.Prelude.{◌≡◌, List, ℕ, Result};

/// The same bytes have one answer: one policy and no fault, or one fault and no policy.
pub fn policy_texts_have_one_answer()
    ensures { (bytes : List ℕ) (a b : Result Policy (Refused TextFault)) → IsAnswer a → IsAnswer b
        → IsPolicyRead bytes a → IsPolicyRead bytes b → a ≡ b }
{}

/// Under a policy the same bytes have one answer: one certificate and no fault, or one fault and no certificate.
pub fn cert_texts_have_one_answer()
    ensures { (policy : Policy) (bytes : List ℕ) (a b : Result (List Edge) (Refused TextFault)) → IsAnswer a → IsAnswer b
        → IsCertRead policy bytes a → IsCertRead policy bytes b → a ≡ b }
{}

/// What is written of a policy is a text of it, where it passes no limit of such texts: `specs/Writable.antt`.
pub fn written_policies_are_read()
    ensures { (policy : Policy) → IsPolicy policy → IsWritable policy → IsPolicyText (policy_text policy) policy }
{}

/// What is written of a certificate is a text of it, where it passes no limit of such texts: `specs/Writable.antt`.
pub fn written_certs_are_read()
    ensures { (policy : Policy) (cert : List Edge) → IsWritableCert policy cert → IsCertText policy (cert_text cert) cert }
{}
