//! What the definitions mean, as functions that do nothing.

ghost use Rattle.adl_hierarchy.specs.Leads.{AreDotted};
ghost use Rattle.adl_import.specs.Imports.{imports_of};
ghost use Rattle.adl_import.specs.Sources.{IsSource, Meeting, meetings_of, root_place};
ghost use Rattle.adl_import.specs.Turns.{Turns, take_imports};
ghost use Rattle.adl_meaning.specs.Prelude.{AreNamesSound, Fault, Hierarchy, Id, IsIn, Source, SourceFile, duplicates, first_name_fault, flat_of, hierarchy_of, misfit_exports, unknown_names};
ghost use Rattle.adl_meaning.specs.Unknown.{scope_of_held, unknown, unknown_in_setting};
ghost use Rattle.adl_meaning.specs.declared.flat.Flat.{Flat};
ghost use Rattle.adl_settings.specs.SettingTwice.{settings_twice};
ghost use Rattle.adl_types.specs.TypeFaults.{first_type_fault, type_faults};
ghost use Rattle.cam_io.specs.Contents.{Contents};
ghost use Rattle.front_laws.specs.ByHierarchy.{IsByHierarchy};
ghost use Rattle.front_laws.specs.Importing.{AreReached};
ghost use Rattle.front_laws.specs.MisfitExports.{IsMisfitIn};
ghost use Rattle.front_laws.specs.RefusedImports.{IsRefusedImport};
ghost use Rattle.front_laws.specs.Repeated.{IsDuplicate};
ghost use Rattle.front_laws.specs.SetAgain.{IsSettingTwice};
ghost use Rattle.front_laws.specs.ToldFaults.{IsNameFault, IsTold};
ghost use Rattle.front_laws.specs.TypesByHierarchy.{IsTypeFault};
ghost use Rattle.front_laws.specs.UnknownNames.{IsUnknown};
ghost use Rattle.front_laws.specs.UnknownWords.{Holding, IsUnknownIn, Types};
ghost use Rattle.std.specs.List.{flat_map};
ghost use Rattle.std.specs.Prelude.{◌≡◌, ◌↔◌, ◌∷◌, ℕ, Err, List, None, Option, Some};

/// Where names must differ, the fault stands at each word whose name a word in front of it has, and at
/// each composition and configuration of a component but the first; and nowhere else.
pub fn duplicates_are_names_again()
    ensures { (s : Source) (f : Fault) → IsIn f (duplicates s) ↔ IsDuplicate s f }
{}

/// The words of a setting that are unknown, by what the words in front of them lead to.
pub fn unknown_words_lead_nowhere()
    ensures { (types : Types) (holds : Option Holding) (words : List Id) (f : Fault)
        → IsIn f (unknown_in_setting types (scope_of_held holds) words)
        ↔ ((w : Id) × IsUnknownIn types holds words w × (f ≡ unknown w)) }
{}

/// Which exports and ends are at fault, by what stands in front of them in their composition.
pub fn misfits_are_at_fault()
    ensures { (s : Source) (f : Fault) → IsIn f (misfit_exports s) ↔ IsMisfitIn s f }
{}

/// Which names are unknown, and where.
pub fn unknown_names_stand_for_nothing()
    ensures { (s : Source) (f : Fault) → IsIn f (unknown_names s) ↔ IsUnknown s f }
{}

/// The flat system of a source without faults of names, where dotted names have two words or three, is
/// as the relations of its hierarchy have it; and no two flat systems are.
pub fn flat_systems_are_by_the_hierarchy()
    ensures is { (s : Source) → AreNamesSound s → AreDotted (hierarchy_of s) → IsByHierarchy (hierarchy_of s) (flat_of s) }
    ensures one { (s : Source) → AreNamesSound s → (f g : Flat)
        → IsByHierarchy (hierarchy_of s) f → IsByHierarchy (hierarchy_of s) g → f ≡ g }
{}

/// Which settings stand twice.
pub fn settings_twice_are_set_again()
    ensures { (h : Hierarchy) (f : Fault) → IsIn f (settings_twice h) ↔ IsSettingTwice h f }
{}

/// The files of a source are those that imports reach from its root, each once and in the order in
/// which they are met.
pub fn files_are_those_that_imports_reach()
    ensures { (root : List ℕ) (files : List SourceFile) → IsSource root files → AreReached root files }
{}

/// Which import of a file is refused, in its turn behind the turns of others.
pub fn refused_imports_are_the_first()
    ensures { (m : Contents) (root : List ℕ) (files : List SourceFile) (known : List Meeting) → Turns m root files known
        → (file : SourceFile) (f : Fault) → (take_imports root file.name known (imports_of file.tree) ≡ Err f)
        ↔ IsRefusedImport root file.name ((root, root_place) ∷ flat_map (meetings_of root) files) (imports_of file.tree) f }
{}

/// Which faults of types stand, by what climbs up to the ends of connections.
pub fn types_are_by_the_hierarchy()
    ensures { (s : Source) → AreNamesSound s → (f : Fault) → IsIn f (type_faults s) ↔ IsTypeFault (hierarchy_of s) f }
{}

/// Which fault of names or of types is told: one that stands, in the words of its own condition, and
/// before which none stands; and where none is told, none stands.
pub fn told_faults_stand()
    ensures name { (s : Source) (f : Fault) → first_name_fault s ≡ Some f → IsTold (IsNameFault s) f }
    ensures no_name { (s : Source) → first_name_fault s ≡ None → (f : Fault) → IsNameFault s f → ⊥ }
    ensures kind { (s : Source) → AreNamesSound s → (f : Fault) → first_type_fault s ≡ Some f
        → IsTold (IsTypeFault (hierarchy_of s)) f }
    ensures no_kind { (s : Source) → AreNamesSound s → first_type_fault s ≡ None → (f : Fault)
        → IsTypeFault (hierarchy_of s) f → ⊥ }
{}
