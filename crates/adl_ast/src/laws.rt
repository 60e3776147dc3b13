//! What the definitions promise together, as functions that do nothing.

ghost use Rattle.adl_ast.specs.Codes.{token_code, without_value};
ghost use Rattle.adl_ast.specs.Forms.{value_line, composition_line, configuration_line, assembly_line, file_line};
ghost use Rattle.adl_ast.specs.Spelling.{IsSpelledAtAnyDepth, IsBegun, IsBegunWithin};
ghost use Rattle.adl_ast.specs.declared.composition.Assembly.{Assembly as ATree};
ghost use Rattle.adl_ast.specs.declared.composition.Composition.{Composition as CTree};
ghost use Rattle.adl_ast.specs.declared.configuration.Configuration.{Configuration as STree};
ghost use Rattle.adl_ast.specs.declared.file.File.{File as FTree};
ghost use Rattle.adl_ast.specs.declared.seen.Seen.{Seen as Tok};
ghost use Rattle.adl_ast.specs.declared.value.Value.{Value as VTree};
ghost use Rattle.std.specs.Prelude.{◌≡◌, ◌++◌, ◌↔◌, ℕ, List as Seq};

/// Two tokens with one code are of one kind, the values of numbers aside.
pub fn codes_tell_kinds()
    ensures { (a b : Tok) → token_code a ≡ token_code b → without_value a.kind ≡ without_value b.kind }
{}

/// A list of tokens spells at most one file.
pub fn files_are_one()
    ensures { (x y : FTree) (ts : Seq Tok) → IsSpelledAtAnyDepth file_line x ts → IsSpelledAtAnyDepth file_line y ts → x ≡ y }
{}

/// No spelling of a value is the beginning of another, and a list of tokens spells at most one.
pub fn values_stand_alone()
    ensures { (x y : VTree) (a b c d : Seq Tok) → IsSpelledAtAnyDepth value_line x a → IsSpelledAtAnyDepth value_line y b
        → a ++ c ≡ b ++ d → (x ≡ y) × (a ≡ b) }
{}

/// No spelling of a composition is the beginning of another, and a list of tokens spells at most one.
pub fn compositions_stand_alone()
    ensures { (x y : CTree) (a b c d : Seq Tok) → IsSpelledAtAnyDepth composition_line x a
        → IsSpelledAtAnyDepth composition_line y b → a ++ c ≡ b ++ d → (x ≡ y) × (a ≡ b) }
{}

/// No spelling of a configuration is the beginning of another, and a list of tokens spells at most one.
pub fn configurations_stand_alone()
    ensures { (x y : STree) (a b c d : Seq Tok) → IsSpelledAtAnyDepth configuration_line x a
        → IsSpelledAtAnyDepth configuration_line y b → a ++ c ≡ b ++ d → (x ≡ y) × (a ≡ b) }
{}

/// No spelling of an assembly is the beginning of another, and a list of tokens spells at most one.
pub fn assemblies_stand_alone()
    ensures { (x y : ATree) (a b c d : Seq Tok) → IsSpelledAtAnyDepth assembly_line x a
        → IsSpelledAtAnyDepth assembly_line y b → a ++ c ≡ b ++ d → (x ≡ y) × (a ≡ b) }
{}

/// What begins a form is begun in each of its fronts.
pub fn fronts_begin()
    ensures file { (a b : Seq Tok) → IsBegun file_line (a ++ b) → IsBegun file_line a }
    ensures value { (a b : Seq Tok) → IsBegun value_line (a ++ b) → IsBegun value_line a }
    ensures composition { (a b : Seq Tok) → IsBegun composition_line (a ++ b) → IsBegun composition_line a }
    ensures configuration { (a b : Seq Tok) → IsBegun configuration_line (a ++ b) → IsBegun configuration_line a }
    ensures assembly { (a b : Seq Tok) → IsBegun assembly_line (a ++ b) → IsBegun assembly_line a }
{}

/// What begins a form with brackets at most so deep is begun so in each of its fronts: so the first bracket that nests too
/// deep is one.
pub fn fronts_begin_within()
    ensures file { (n : ℕ) (a b : Seq Tok) → IsBegunWithin n file_line (a ++ b) → IsBegunWithin n file_line a }
    ensures value { (n : ℕ) (a b : Seq Tok) → IsBegunWithin n value_line (a ++ b) → IsBegunWithin n value_line a }
    ensures composition { (n : ℕ) (a b : Seq Tok) → IsBegunWithin n composition_line (a ++ b)
        → IsBegunWithin n composition_line a }
    ensures configuration { (n : ℕ) (a b : Seq Tok) → IsBegunWithin n configuration_line (a ++ b)
        → IsBegunWithin n configuration_line a }
    ensures assembly { (n : ℕ) (a b : Seq Tok) → IsBegunWithin n assembly_line (a ++ b) → IsBegunWithin n assembly_line a }
{}

/// A form is begun exactly by the fronts of its spellings.
pub fn beginnings_are_fronts()
    ensures file { (ts : Seq Tok) → IsBegun file_line ts
        ↔ ((x : FTree) × (more : Seq Tok) × IsSpelledAtAnyDepth file_line x (ts ++ more)) }
    ensures value { (ts : Seq Tok) → IsBegun value_line ts
        ↔ ((x : VTree) × (more : Seq Tok) × IsSpelledAtAnyDepth value_line x (ts ++ more)) }
    ensures composition { (ts : Seq Tok) → IsBegun composition_line ts
        ↔ ((x : CTree) × (more : Seq Tok) × IsSpelledAtAnyDepth composition_line x (ts ++ more)) }
    ensures configuration { (ts : Seq Tok) → IsBegun configuration_line ts
        ↔ ((x : STree) × (more : Seq Tok) × IsSpelledAtAnyDepth configuration_line x (ts ++ more)) }
    ensures assembly { (ts : Seq Tok) → IsBegun assembly_line ts
        ↔ ((x : ATree) × (more : Seq Tok) × IsSpelledAtAnyDepth assembly_line x (ts ++ more)) }
{}
