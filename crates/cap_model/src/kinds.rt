//! Laws over the definitions. These functions do nothing: what they ensure is the law.

ghost use Rattle.cap_model.specs.Edges.{edge, AtMost, Before};
ghost use Rattle.cap_model.specs.Tables.{has, Has, IsSorted};
ghost use Rattle.authorities.specs.declared.authority.Authority.{Authority};
ghost use Rattle.cap_model.specs.declared.edge.Edge.{Edge};
ghost use Rattle.std.specs.Prelude.{◌≡◌, ◌⊎◌, ◌↔◌, ℕ, List as Items};
ghost use Rattle.std.specs.List.{Contains};

/// The order of edges is total, and `Before` is its strict part.
pub fn edges_are_ordered()
    ensures same { (e : Edge) → AtMost e e }
    ensures chain { (c d e : Edge) → AtMost c d → AtMost d e → AtMost c e }
    ensures one { (d e : Edge) → AtMost d e → AtMost e d → d ≡ e }
    ensures either { (d e : Edge) → Before d e ⊎ AtMost e d }
    ensures strict { (d e : Edge) → Before d e → AtMost e d → ⊥ }
    ensures weaker { (d e : Edge) → Before d e → AtMost d e }
{}

/// The test whether a list has an edge is membership.
pub fn has_is_membership()
    ensures { (edges : Items Edge) (l : ℕ) (a : Authority) (m : ℕ) → (Has edges l a m) ↔ (Contains edges (edge l a m)) }
{}

/// Two tables that have the same edges are equal.
pub fn tables_are_their_edges()
    ensures { (s t : Items Edge) → IsSorted s → IsSorted t → ((e : Edge) → has s e ≡ has t e) → s ≡ t }
{}
