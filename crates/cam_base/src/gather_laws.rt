//! Laws of numbering. These functions do nothing: what they ensure is the law.

ghost use Rattle.cam_base.specs.Gather.{IsIn, before, gather};
ghost use Rattle.std.specs.Prelude.{◌≡◌, ◌+◌, ◌↔◌, ℕ, Some, slice_get, List as Seq};

/// Thing `j` of the element at place `k` has the number of those from the elements before it, and `j`.
pub fn numbers_are_sums<X, Y>()
    ensures { (f : ℕ → X → Seq Y) (xs : Seq X) (k : ℕ) (x : X) (j : ℕ) (y : Y) → slice_get xs k ≡ Some x
        → slice_get (f k x) j ≡ Some y → slice_get (gather f xs) (before f xs k + j) ≡ Some y }
{}

/// What stands in a gathered list comes from an element at its place, and all that an element gives stands there.
pub fn what_is_gathered_comes_from_an_element<X, Y>()
    ensures { (f : ℕ → X → Seq Y) (xs : Seq X) (y : Y) → IsIn y (gather f xs)
        ↔ ((k : ℕ) × (x : X) × (slice_get xs k ≡ Some x) × IsIn y (f k x)) }
{}
