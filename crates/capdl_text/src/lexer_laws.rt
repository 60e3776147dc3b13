//! What holds of tokens and their faults, whatever computes them.

ghost use Rattle.cam_base.specs.declared.text_fault.TextFault.{TextFault as Wrong};
ghost use Rattle.capdl_text.specs.Lexes.{IsTokenFault, Lexes};
ghost use Rattle.capdl_text.specs.declared.token.Token.{Token as Tok};
ghost use Rattle.std.specs.Prelude.{◌≡◌, ℕ, List as Seq};

/// Bytes have one list of tokens at most.
pub fn tokens_are_one()
    ensures { (bytes : Seq ℕ) (ts us : Seq Tok) → Lexes bytes ts → Lexes bytes us → ts ≡ us }
{}

/// Bytes have one first fault of tokens at most.
pub fn token_fault_is_one()
    ensures { (bytes : Seq ℕ) (f g : Wrong) → IsTokenFault bytes f → IsTokenFault bytes g → f ≡ g }
{}

/// Bytes that have a list of tokens have no fault of tokens.
pub fn tokens_have_no_fault()
    ensures { (bytes : Seq ℕ) (ts : Seq Tok) (f : Wrong) → Lexes bytes ts → IsTokenFault bytes f → ⊥ }
{}
