ghost use Rattle.cert_check.specs.Rules.{rule_number};
ghost use Rattle.std.specs.Prelude.{◌≡◌};

/// The rules that a certificate keeps.
#[derive(Clone, Copy)]
pub enum Rule {
    BootEdges,
    Control,
    Grant,
    Call,
    GrantBack,
    Bind,
    Policy,
}

impl Rule {
    /// The number that the rule is printed with, from 1 to 7.
    pub fn number(self) -> u8
        ensures { result ≡ rule_number self }
    {
        match self {
            Rule::BootEdges => 1,
            Rule::Control => 2,
            Rule::Grant => 3,
            Rule::Call => 4,
            Rule::GrantBack => 5,
            Rule::Bind => 6,
            Rule::Policy => 7,
        }
    }
}
