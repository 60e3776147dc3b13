//! The lines that are written so that the next token decides agree with the plain ones.

ghost use Rattle.adl_ast.specs.Forms.{Params as Between, typed_line, params_line, interface_line};
ghost use Rattle.adl_ast.specs.Spelling.{IsSpelledBy, IsSpelledAtAnyDepth, IsBegun};
ghost use Rattle.adl_ast.specs.Written.{typed_written, params_written, interface_written};
ghost use Rattle.adl_ast.specs.declared.component.Interface.{Interface as Port};
ghost use Rattle.adl_ast.specs.declared.id.Id.{Id as Word};
ghost use Rattle.adl_ast.specs.declared.seen.Seen.{Seen as Tok};
ghost use Rattle.std.specs.Prelude.{◌↔◌, ℕ, List as Seq};

/// A type and a name: both lines spell and begin the same token lists, with the same meanings.
pub fn typed_names_agree()
    ensures spelled { (x : (Seq (Seq ℕ) × Word)) (ts : Seq Tok) → IsSpelledBy typed_line x ts ↔ IsSpelledBy typed_written x ts }
    ensures at_any_depth { (x : (Seq (Seq ℕ) × Word)) (ts : Seq Tok) → IsSpelledAtAnyDepth typed_line x ts
        ↔ IsSpelledAtAnyDepth typed_written x ts }
    ensures begun { (ts : Seq Tok) → IsBegun typed_line ts ↔ IsBegun typed_written ts }
{}

/// The parameters of a method: both lines spell and begin the same token lists, with the same meanings.
pub fn params_agree()
    ensures spelled { (x : Between) (ts : Seq Tok) → IsSpelledBy params_line x ts ↔ IsSpelledBy params_written x ts }
    ensures at_any_depth { (x : Between) (ts : Seq Tok) → IsSpelledAtAnyDepth params_line x ts
        ↔ IsSpelledAtAnyDepth params_written x ts }
    ensures begun { (ts : Seq Tok) → IsBegun params_line ts ↔ IsBegun params_written ts }
{}

/// An interface: both lines spell and begin the same token lists, with the same meanings.
pub fn interfaces_agree()
    ensures spelled { (x : Port) (ts : Seq Tok) → IsSpelledBy interface_line x ts ↔ IsSpelledBy interface_written x ts }
    ensures at_any_depth { (x : Port) (ts : Seq Tok) → IsSpelledAtAnyDepth interface_line x ts
        ↔ IsSpelledAtAnyDepth interface_written x ts }
    ensures begun { (ts : Seq Tok) → IsBegun interface_line ts ↔ IsBegun interface_written ts }
{}
