//! What holds of texts, whatever reads them.

ghost use Rattle.cam_base.specs.declared.error.Refused.{Refused as Refusal};
ghost use Rattle.cam_base.specs.declared.error.Refused.TheVariants as refusals;
ghost use Rattle.cam_base.specs.declared.text_fault.TextFault.{TextFault as Wrong};
ghost use Rattle.cap_model.specs.declared.spec.Spec.{Spec as System};
ghost use Rattle.capdl_text.specs.Faults.{IsIn, least, precedes};
ghost use Rattle.capdl_text.specs.Texts.{IsFirstFault, IsRead, Text};
ghost use Rattle.std.specs.Prelude.{◌≡◌, ◌⊎◌, ℕ, [], false, List as Seq, Some, None, Result as Res, Ok as Good, Err as Bad};

/// Bytes are the text of one spec at most.
pub fn specs_are_one()
    ensures { (bytes : Seq ℕ) (s t : System) → Text bytes s → Text bytes t → s ≡ t }
{}

/// Bytes have one first fault at most.
pub fn faults_are_one()
    ensures { (bytes : Seq ℕ) (f g : Wrong) → IsFirstFault bytes f → IsFirstFault bytes g → f ≡ g }
{}

/// Bytes that are the text of a spec have no fault.
pub fn texts_have_no_fault()
    ensures { (bytes : Seq ℕ) (s : System) (f : Wrong) → Text bytes s → IsFirstFault bytes f → ⊥ }
{}

/// The first fault of a list is one of them, and none comes before it. Where there is no first fault, there is none.
pub fn first_is_first()
    ensures first { (fs : Seq Wrong) (r : Wrong) → least fs ≡ Some r → IsIn r fs × ((h : Wrong) → IsIn h fs
        → precedes h r ≡ false) }
    ensures none { (fs : Seq Wrong) → least fs ≡ None → fs ≡ [] }
{}

/// Whatever reads texts as `IsRead` says reads a text as its spec, and refuses bytes with a fault by the first, unless
/// memory runs out.
pub fn texts_are_read()
    ensures spec { (bytes : Seq ℕ) (s : System) (r : Res System (Refusal Wrong)) → IsRead bytes r → Text bytes s
        → (r ≡ Good s) ⊎ (r ≡ Bad refusals.NoMemory) }
    ensures fault { (bytes : Seq ℕ) (f : Wrong) (r : Res System (Refusal Wrong)) → IsRead bytes r → IsFirstFault bytes f
        → (r ≡ Bad (refusals.Fault f)) ⊎ (r ≡ Bad refusals.NoMemory) }
{}
