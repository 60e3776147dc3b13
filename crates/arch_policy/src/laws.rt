//! Laws of the policy, as functions that do nothing.

ghost use Rattle.arch_policy.specs.Policies.{IsPolicyOf};
ghost use Rattle.arch_policy.specs.Tables.{Tables as Given};
ghost use Rattle.arch_policy.specs.Triples.{triples};

/// The listed edges are those that have a reason.
pub fn triples_are_the_policy()
    ensures { (t : Given) → IsPolicyOf t (triples t) }
{}
