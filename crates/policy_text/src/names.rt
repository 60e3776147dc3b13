ghost use Rattle.cap_model.specs.Policies.{NumbersDiffer};
ghost use Rattle.std.specs.Prelude.{◌≡◌};
ghost use Rattle.policy_text.specs.EdgeLines.{name_of};

use cap_model::Policy;
use std::marker::Model;

/// The labels of a policy, for printing. Contracts see the list of their numbers and names.
#[derive(Drop)]
pub struct Names {
    policy: Policy,
}

impl Model for Names {
    ghost use Rattle.std.specs.Prelude.{List, ℕ};
    ghost use Rattle.cap_model.specs.Policies.{NumbersDiffer};

    ghost Value = { List (ℕ × List ℕ) };

    ghost view = { λ n. n.policy.labels };

    ghost invariant = { λ n. NumbersDiffer n.policy.labels };
}

impl Names {
    /// The labels of a policy.
    pub fn of(policy: Policy) -> Names
        requires { NumbersDiffer policy.labels }
        ensures { result ≡ policy.labels }
    {
        Names { policy }
    }

    /// The name of the label of that number, empty where there is none. Takes no memory.
    pub fn name(&self, label: u32) -> &[u8]
        ensures { result.now ≡ name_of self.now label }
    {
        match self.policy.name_of(label) {
            Some(name) => name,
            None => b"",
        }
    }
}
