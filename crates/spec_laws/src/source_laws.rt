//! A law, as a function that does nothing.

ghost use Rattle.adl_meaning.specs.Prelude.{AreNamesSound, Source, flat_of, hierarchy_of};
ghost use Rattle.adl_hierarchy.specs.Leads.{AreDotted};
ghost use Rattle.adl_types.specs.TypeFaults.{first_type_fault};
ghost use Rattle.reach_laws.specs.Flat.{IsFlat};
ghost use Rattle.std.specs.Prelude.{◌≡◌, None};

/// Where dotted names have two words or three, and no fault of types stands, ends join members of leaves, which are devices
/// just where the connector table has it, and an interrupt, or a connection to a device's registers, has one end at a device.
pub fn flat_systems_have_their_devices()
    ensures { (s : Source) → AreNamesSound s → AreDotted (hierarchy_of s) → first_type_fault s ≡ None → IsFlat s (flat_of s) }
{}
