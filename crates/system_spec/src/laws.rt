//! Laws of the spec. These functions do nothing: what they ensure is the law.

ghost use Rattle.cam_base.specs.Gather.{IsIn};
ghost use Rattle.std.specs.Prelude.{◌≡◌, ◌<◌, ◌^◌, ℕ, Some, slice_get};
ghost use Rattle.system_spec.specs.Bits.{IsLeastBits, bits_for};
ghost use Rattle.system_spec.specs.Parts.{parts, place};
ghost use Rattle.system_spec.specs.SpecLaws.{ObjectsStand, PartsAreThere};
ghost use Rattle.system_spec.specs.Tables.{Tables};
ghost use Rattle.system_spec.specs.declared.part.Part.{Part};

/// The size of a CNode is the least for more numbers than it has slots in use.
pub fn bits_are_least()
    ensures { (n : ℕ) → n < 2 ^ 16 → IsLeastBits n (bits_for n) }
{}

/// Each part stands at its place, and where a part is found there is its place.
pub fn parts_stand_at_their_places()
    ensures stands { (t : Tables) (p : Part) → IsIn p (parts t) → slice_get (parts t) (place t p.what) ≡ Some p }
    ensures place { (t : Tables) (m : ℕ) (p : Part) → slice_get (parts t) m ≡ Some p → place t p.what ≡ m }
{}

/// At the place of each part stands its object, under its name.
pub fn objects_stand_at_their_places()
    ensures { (t : Tables) → ObjectsStand t }
{}

/// There is a CNode for each domain, an endpoint for each RPC, and a notification for each connection that has one.
pub fn parts_are_of_what_there_is()
    ensures { (t : Tables) → PartsAreThere t }
{}
