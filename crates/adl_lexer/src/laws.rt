//! What holds of tokens and faults, whatever computes them.

ghost use Rattle.adl_lexer.specs.Classes.{class_of};
ghost use Rattle.adl_lexer.specs.Gaps.{one_gap};
ghost use Rattle.adl_lexer.specs.Keywords.{keyword_of, spelling};
ghost use Rattle.adl_lexer.specs.LexFaults.{fault_at};
ghost use Rattle.adl_lexer.specs.Lexes.{IsFirstFault, IsTokenAt, Lexes};
ghost use Rattle.adl_lexer.specs.Places.{PlacesRise};
ghost use Rattle.adl_lexer.specs.TokenKinds.{flat, token_form};
ghost use Rattle.adl_lexer.specs.TokenTexts.{IsTextOf, text_at};
ghost use Rattle.cam_base.specs.declared.code.Code.{Code as ErrorCode};
ghost use Rattle.cam_base.specs.declared.code.Code.TheVariants as codes;
ghost use Rattle.cam_base.specs.declared.place.Fault.{Fault as SourceFault};
ghost use Rattle.cam_base.specs.declared.token.Keyword.{Keyword as Key};
ghost use Rattle.cam_base.specs.declared.token.Kind.{Kind as TokenKind};
ghost use Rattle.cam_base.specs.declared.token.Token.{Token as Tok};
ghost use Rattle.cam_base.specs.Spelling.{Spells};
ghost use Rattle.std.specs.List.{All};
ghost use Rattle.std.specs.Prelude.{◌≡◌, ◌↔◌, ℕ, ◌∷◌, ◌++◌, List as Seq, None, Some, length};

/// Bytes have one list of tokens at most.
pub fn tokens_are_one()
    ensures { (file : ℕ) (bytes : Seq ℕ) (ts us : Seq Tok) → Lexes file bytes ts → Lexes file bytes us → ts ≡ us }
{}

/// Bytes have one first fault at most.
pub fn first_fault_is_one()
    ensures { (file : ℕ) (bytes : Seq ℕ) (f g : SourceFault) → IsFirstFault file bytes f → IsFirstFault file bytes g → f ≡ g }
{}

/// Bytes that have a list of tokens have no fault.
pub fn tokens_have_no_fault()
    ensures { (file : ℕ) (bytes : Seq ℕ) (ts : Seq Tok) (f : SourceFault) → Lexes file bytes ts → IsFirstFault file bytes f → ⊥ }
{}

/// A word is a keyword exactly where it is spelled as the keyword is.
pub fn keywords_are_their_words()
    ensures none { (word : Seq ℕ) → (keyword_of word ≡ None) ↔ ((k : Key) → word ≡ spelling k → ⊥) }
    ensures some { (word : Seq ℕ) (k : Key) → (keyword_of word ≡ Some k) ↔ (word ≡ spelling k) }
{}

/// The places of tokens name the file and rise: each has a byte at least and ends before the next begins, the last within
/// the bytes.
pub fn places_rise()
    ensures { (file : ℕ) (bytes : Seq ℕ) (ts : Seq Tok) → Lexes file bytes ts → PlacesRise file (length bytes) 0 ts }
{}

/// The bytes at a token's place are exactly those of its kind, in the plain words of `specs/TokenTexts.antt`.
pub fn tokens_have_their_texts()
    ensures { (file : ℕ) (bytes : Seq ℕ) (ts : Seq Tok) → Lexes file bytes ts
        → All (λ t. IsTextOf t.kind (text_at bytes t.place)) ts }
{}

/// At each byte one thing alone begins: a blank or comment, a token, or a fault.
pub fn one_thing_begins()
    ensures token { (b : ℕ) (bs : Seq ℕ) → one_gap (b ∷ bs) ≡ None → fault_at (b ∷ bs) ≡ None
        → (k : TokenKind) × (rest : Seq ℕ) × IsTokenAt (b ∷ bs) k rest }
    ensures no_gap { (bs rest after : Seq ℕ) (k : TokenKind) → IsTokenAt bs k rest → one_gap bs ≡ Some after → ⊥ }
    ensures no_fault { (bs rest : Seq ℕ) (f : ErrorCode × Seq ℕ) → fault_at bs ≡ Some f → one_gap bs ≡ Some rest → ⊥ }
{}

/// At a byte that is at fault for beginning no token, no bytes of a token begin.
pub fn bytes_at_fault_begin_no_token()
    ensures { (bs text : Seq ℕ) → fault_at bs ≡ Some (codes.Byte, text) → (k : TokenKind) (front rest : Seq ℕ)
        → bs ≡ front ++ rest → Spells class_of flat token_form k front → ⊥ }
{}
