//! Laws of sources in which no fault stands, as functions that do nothing.

ghost use Rattle.adl_meaning.specs.Prelude.{AreNamesSound, Path, Source, flat_of, hierarchy_of};
ghost use Rattle.adl_meaning.specs.declared.flat.Flat.{Flat};
ghost use Rattle.adl_hierarchy.specs.Leads.{AreDotted};
ghost use Rattle.adl_hierarchy.specs.Spelled.{AreSpelled};
ghost use Rattle.adl_settings.specs.Settled.{settled_of};
ghost use Rattle.adl_types.specs.TypeFaults.{first_type_fault};
ghost use Rattle.arch_policy.specs.Labels.{label_lines};
ghost use Rattle.arch_policy.specs.Policies.{IsLockEdge, IsPolicyOf};
ghost use Rattle.arch_policy.specs.Reasons.{DirectReason, IsReasoned};
ghost use Rattle.arch_policy.specs.Tables.{AreApart, tables_of};
ghost use Rattle.arch_policy.specs.declared.numbers.LabelNumbers.{LabelNumbers};
ghost use Rattle.assigned_laws.specs.Assigned.{IsAssigned};
ghost use Rattle.assigned_laws.specs.Named.{ArePathsApart, IsNamed, tables_with};
ghost use Rattle.assigned_laws.specs.Texts.{AreTextsApart, AreUndotted, IsAssignedText, IsDirectText, IsLabelText, IsLockText, OfTexts};
ghost use Rattle.assigned_laws.specs.Triples.{AreAll, triple};
ghost use Rattle.cap_model.specs.Edges.{edge};
ghost use Rattle.cap_model.specs.Tables.{IsSorted};
ghost use Rattle.authorities.specs.declared.authority.Authority.{Authority};
ghost use Rattle.cap_model.specs.declared.edge.Edge.{Edge};
ghost use Rattle.cam_base.specs.Gather.{IsIn};
ghost use Rattle.std.specs.Prelude.{◌≡◌, ◌≢◌, ◌↔◌, ℕ, List, None, map};

/// What a source assigns between two paths has a reason between the numbers of their labels, and the other way round,
/// however labels are numbered, as long as no two have one number.
pub fn assigned_is_reasoned()
    ensures { (s : Source) → AreNamesSound s → AreDotted (hierarchy_of s) → first_type_fault s ≡ None
        → (numbers : LabelNumbers) → let t = tables_with s numbers in AreApart t → (p : Path) (a : Authority) (q : Path)
        → IsAssigned s p a q ↔ ((l m : ℕ) × IsNamed t l p × IsNamed t m q × IsReasoned t (edge l a m)) }
{}

/// No two labels of a source have one path.
pub fn label_paths_are_apart()
    ensures { (s : Source) → AreNamesSound s → ArePathsApart (flat_of s) }
{}

/// Where tokens spell the tree of each file, no name of a label's path has a dot, and no two labels have one text.
pub fn label_texts_are_apart()
    ensures undotted { (s : Source) → AreNamesSound s → AreSpelled s → AreUndotted (flat_of s) }
    ensures apart { (s : Source) → AreNamesSound s → AreSpelled s → AreTextsApart (flat_of s) }
{}

/// Nor do two labels have one number, where labels are numbered in the byte order of their texts.
pub fn labels_are_apart()
    ensures { (s : Source) → AreNamesSound s → AreSpelled s → AreApart (tables_of s (flat_of s) (settled_of s)) }
{}

/// Lines of labels with one number have one text, and the other way round.
pub fn label_lines_are_apart()
    ensures { (flat : Flat) (l m : ℕ) (from to : List ℕ) → IsIn (l, from) (label_lines flat) → IsIn (m, to) (label_lines flat)
        → (l ≡ m) ↔ (from ≡ to) }
{}

/// The lines of labels are those of all labels of the hierarchy.
pub fn label_lines_are_of_labels()
    ensures { (s : Source) → AreNamesSound s → (text : List ℕ)
        → ((l : ℕ) × IsIn (l, text) (label_lines (flat_of s))) ↔ IsLabelText s text }
{}

/// What a source assigns between the labels with two texts has a reason between the numbers that the lines of labels give
/// these texts, and the other way round. The texts differ.
pub fn assigned_texts_are_reasoned()
    ensures reasoned { (s : Source) → AreNamesSound s → AreSpelled s → first_type_fault s ≡ None
        → let t = tables_of s (flat_of s) (settled_of s) in (from : List ℕ) (a : Authority) (to : List ℕ)
        → IsAssignedText s from a to ↔ OfTexts (label_lines t.flat) (λ l m. IsReasoned t (edge l a m)) from to }
    ensures differ { (s : Source) → AreNamesSound s → AreSpelled s → first_type_fault s ≡ None
        → (from : List ℕ) (a : Authority) (to : List ℕ) → IsAssignedText s from a to → from ≢ to }
{}

/// The same of direct reasons alone.
pub fn direct_texts_are_reasoned()
    ensures { (s : Source) → AreNamesSound s → AreSpelled s → first_type_fault s ≡ None
        → let t = tables_of s (flat_of s) (settled_of s) in (from : List ℕ) (a : Authority) (to : List ℕ)
        → IsDirectText s from a to ↔ OfTexts (label_lines t.flat) (λ l m. DirectReason t (edge l a m)) from to }
{}

/// And of what domains may do with their locks.
pub fn lock_texts_are_lock_edges()
    ensures { (s : Source) → AreNamesSound s → AreSpelled s
        → let t = tables_of s (flat_of s) (settled_of s) in (from : List ℕ) (a : Authority) (to : List ℕ)
        → IsLockText s from a to ↔ OfTexts (label_lines t.flat) (λ l m. IsLockEdge t (edge l a m)) from to }
{}

/// The edges of a policy are, by the texts of their labels, all triples that its source assigns, in order and each once.
pub fn policies_are_all_that_is_assigned()
    ensures { (s : Source) → AreNamesSound s → AreSpelled s → first_type_fault s ≡ None
        → (edges : List Edge) → IsPolicyOf (tables_of s (flat_of s) (settled_of s)) edges → IsSorted edges
        → AreAll (IsAssignedText s) (map (triple (flat_of s)) edges) }
{}
