//! What flat systems keep, as functions that do nothing. The laws are of sources in which the
//! phases that they name found no fault.

ghost use Rattle.adl_meaning.specs.Prelude.{AreNamesSound, HaveFewMembers, Source, first_flat_fault, flat_of, hierarchy_of};
ghost use Rattle.adl_hierarchy.specs.Leads.{AreDotted};
ghost use Rattle.adl_types.specs.TypeFaults.{first_type_fault};
ghost use Rattle.flat_laws.specs.EndSettings.{AreEndsSettled};
ghost use Rattle.flat_laws.specs.ShortFiles.{AreFilesShort};
ghost use Rattle.flat_laws.specs.Small.{IsSmall};
ghost use Rattle.flat_laws.specs.Typed.{AreTyped};
ghost use Rattle.cspace_layout.specs.Within.{IsWithin};
ghost use Rattle.std.specs.Prelude.{◌≡◌, None};

/// Where no limit of the hierarchy is passed, and no component has too many members, all numbers of
/// the flat system are small, and ends and domains name its leaves.
pub fn flat_systems_are_within()
    ensures { (s : Source) → AreNamesSound s → first_flat_fault s ≡ None → HaveFewMembers s → IsWithin s (flat_of s) }
{}

/// Where dotted names have two words or three, and no fault of types stands, each end joins an
/// interface of a leaf, and both are as the connector table has them.
pub fn ends_are_typed()
    ensures { (s : Source) → AreNamesSound s → AreDotted (hierarchy_of s) → first_type_fault s ≡ None → AreTyped s (flat_of s) }
{}

/// Where dotted names have two words or three, and no fault of types stands, each end has its settings: end n of connection k
/// has exactly the n-th settings of the k-th connection, and there are no others.
pub fn ends_have_their_settings()
    ensures { (s : Source) → AreNamesSound s → AreDotted (hierarchy_of s) → first_type_fault s ≡ None → AreEndsSettled s }
{}

/// Where no limit of the hierarchy is passed, there are few leaves, domains and connections.
pub fn flat_systems_are_small()
    ensures { (s : Source) → AreNamesSound s → first_flat_fault s ≡ None → IsSmall (flat_of s) }
{}

/// A component has no more members than tokens spell its file.
pub fn short_files_have_few_members()
    ensures { (s : Source) → AreFilesShort s → HaveFewMembers s }
{}
