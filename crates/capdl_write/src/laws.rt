//! What holds of canonical texts.

ghost use Rattle.cam_base.specs.declared.error.Refused.{Refused as Refusal};
ghost use Rattle.cam_base.specs.declared.error.Refused.TheVariants as refusals;
ghost use Rattle.cam_base.specs.declared.text_fault.TextFault.{TextFault as Wrong};
ghost use Rattle.cap_model.specs.Canonical.{canonical};
ghost use Rattle.cap_model.specs.declared.spec.Spec.{Spec as System};
ghost use Rattle.capdl_write.specs.Canon.{pieces};
ghost use Rattle.capdl_write.specs.Pieces.{Fine, Piece, laid, tokens};
ghost use Rattle.capdl_write.specs.Writable.{IsWritable};
ghost use Rattle.capdl_text.specs.Lexes.{Lexes};
ghost use Rattle.capdl_text.specs.Texts.{IsRead, Text};
ghost use Rattle.std.specs.Prelude.{◌≡◌, ◌⊎◌, length, List as Seq, Result as Res, Ok as Good, Err as Bad};

/// A text that is laid out piece by piece has the tokens of its pieces.
pub fn laid_texts_have_tokens()
    ensures { (ps : Seq Piece) → Fine ps → Lexes (laid ps) (tokens (length (laid ps)) ps) }
{}

/// The canonical text of a spec is laid out of its pieces.
pub fn canonical_is_laid()
    ensures { (spec : System) → canonical spec ≡ laid (pieces spec) }
{}

/// The canonical text of a spec that can be written is a text of that spec.
pub fn canonical_is_text()
    ensures { (spec : System) → IsWritable spec → Text (canonical spec) spec }
{}

/// What was written of a spec that can be written is read back as the same spec, unless memory runs out.
pub fn written_is_read()
    ensures { (spec : System) (r : Res System (Refusal Wrong)) → IsWritable spec → IsRead (canonical spec) r
        → (r ≡ Good spec) ⊎ (r ≡ Bad refusals.NoMemory) }
{}
