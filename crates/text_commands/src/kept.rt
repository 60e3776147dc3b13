ghost use Rattle.cap_model.specs.Kept.{IsKept};
ghost use Rattle.std.specs.Prelude.{◌≡◌};

use cap_model::Spec;
use std::marker::Model;

/// A spec that keeps what every spec keeps. Contracts see the spec.
#[derive(Drop)]
pub struct KeptSpec {
    spec: Spec,
}

impl Model for KeptSpec {
    ghost use Rattle.cap_model.specs.Kept.{IsKept};
    ghost use Rattle.cap_model.specs.declared.spec.Spec.{Spec as TheSpec};

    ghost Value = { TheSpec };

    ghost view = { λ k. k.spec };

    ghost invariant = { λ k. IsKept k.spec };
}

impl KeptSpec {
    /// The spec, which is kept as it is.
    pub fn of(spec: Spec) -> KeptSpec
        requires { IsKept spec }
        ensures { result ≡ spec }
    {
        KeptSpec { spec }
    }

    /// The spec.
    pub fn spec(&self) -> &Spec
        ensures value { result.now ≡ self.now }
        ensures kept { IsKept result.now }
    {
        &self.spec
    }
}
