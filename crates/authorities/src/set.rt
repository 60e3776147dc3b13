ghost use Rattle.authorities.specs.Authorities.{number_of};
ghost use Rattle.authorities.specs.AuthoritySets.{set_has};
ghost use Rattle.std.specs.Prelude.{◌≡◌, ◌==◌, ◌<◌, ◌^◌, ◌||◌, ◌&&◌, false};

use crate::Authority;

/// A set of authorities: bit n is 1 exactly where the authority of number n is in it.
#[derive(Clone, Copy, Debug, PartialEq, Eq)]
pub struct AuthoritySet {
    pub bits: u16,
}

impl AuthoritySet {
    /// The set without authorities.
    pub fn empty() -> AuthoritySet
        ensures bits { result.bits ≡ 0 }
        ensures none { (b : Authority) → set_has result.bits b ≡ false }
    {
        AuthoritySet { bits: 0 }
    }

    /// Whether the authority is in the set. Takes no memory.
    pub fn has(self, a: Authority) -> bool
        ensures { result ≡ set_has self.bits a }
    {
        (self.bits >> a.number()) & 1 == 1
    }

    /// The set with one authority more, where the condition holds, and else the set itself.
    pub fn with_if(self, a: Authority, condition: bool) -> AuthoritySet
        ensures each { (b : Authority)
            → set_has result.bits b ≡ (set_has self.bits b || (condition && number_of b == number_of a)) }
        ensures no_more { self.bits < 2 ^ 12 → result.bits < 2 ^ 12 }
    {
        if condition { self.with(a) } else { self }
    }

    /// The set with one authority more.
    pub fn with(self, a: Authority) -> AuthoritySet
        ensures each { (b : Authority) → set_has result.bits b ≡ (set_has self.bits b || number_of b == number_of a) }
        ensures no_more { self.bits < 2 ^ 12 → result.bits < 2 ^ 12 }
    {
        AuthoritySet {
            bits: self.bits | (1 << a.number()),
        }
    }
}
