//! What the definitions promise together, as functions that do nothing.

ghost use Rattle.adl_meaning.specs.Graph.{has, inner_of, InRange, Walk, Holds, IsAcyclic, is_held};
ghost use Rattle.adl_hierarchy.specs.Cycles.{AreCycleNumbers};
ghost use Rattle.std.specs.Prelude.{◌≡◌, ◌<◌, ◌↔◌, ℕ, true, false, List as Seq, length};

/// Where no component holds itself, each walk is shorter than the list of components.
pub fn walks_are_short()
    ensures { (g : Seq (Seq ℕ)) → InRange g → IsAcyclic g → (n a b : ℕ) → a < length g → Walk g a b n → n < length g }
{}

/// The test of holding is that of walks.
pub fn held_is_held()
    ensures { (g : Seq (Seq ℕ)) → InRange g → (a b : ℕ) → a < length g → (is_held g a b ≡ true) ↔ Holds g a b }
{}

/// Where no component holds itself, none is held by the type of one of its instances.
pub fn acyclic_is_unheld()
    ensures { (g : Seq (Seq ℕ)) → IsAcyclic g → (a c : ℕ) → a < length g → has (inner_of g a) c ≡ true → is_held g c a ≡ false }
{}

/// The type of an instance holds the component that the instance stands in exactly where both have one number.
pub fn cycle_numbers_are_exact()
    ensures { (g : Seq (Seq ℕ)) → InRange g → (number rank : ℕ → ℕ) → AreCycleNumbers g number rank → (a c : ℕ) → a < length g
        → has (inner_of g a) c ≡ true → (number c ≡ number a) ↔ Holds g c a }
{}
