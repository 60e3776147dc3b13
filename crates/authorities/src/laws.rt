//! Laws over the definitions. These functions do nothing: what they ensure is the law.

ghost use Rattle.authorities.specs.Authorities.{authority_of, text_of};
ghost use Rattle.authorities.specs.AuthoritySets.{IsSetOf};
ghost use Rattle.authorities.specs.declared.authority.Authority.{Authority};
ghost use Rattle.std.specs.Prelude.{◌≡◌, ℕ, Bool, Some};

/// Each authority is that of its word.
pub fn authorities_are_their_words()
    ensures { (a : Authority) → authority_of (text_of a) ≡ Some a }
{}

/// Two sets of the authorities that pass one test are one set.
pub fn sets_are_their_members()
    ensures { (passes : Authority → Bool) (a b : ℕ) → IsSetOf passes a → IsSetOf passes b → a ≡ b }
{}
