//! What the definitions promise together, as a function that does nothing.

ghost use Rattle.adl_meaning.specs.Prelude.{AreNamesSound, IsIn, Source, Strung, connections, hierarchy_of};
ghost use Rattle.adl_types.specs.TypeFaults.{first_type_fault};
ghost use Rattle.adl_types.specs.WellTyped.{IsWellTyped};
ghost use Rattle.std.specs.Prelude.{None, ◌≡◌};

/// Where no fault of types is first, the ends of each connection of the flat system are of the kinds that its connector wants,
/// agree with the first of them, and are as many as it may have.
pub fn ends_are_typed()
    ensures { (s : Source) → AreNamesSound s → first_type_fault s ≡ None → let h = hierarchy_of s in (x : Strung)
        → IsIn x (connections h) → IsWellTyped h x }
{}
