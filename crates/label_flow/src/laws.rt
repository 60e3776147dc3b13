//! Laws of the definitions. This function does nothing: what it ensures is the law.

ghost use Rattle.cap_model.specs.declared.edge.Edge.{Edge};
ghost use Rattle.flow_model.specs.Flow.{Flows, IsClosed};
ghost use Rattle.label_flow.specs.Chain.{AreSources, Chain, IsApart, Passes};
ghost use Rattle.std.specs.List.{Contains};
ghost use Rattle.std.specs.Prelude.{◌↔◌, ℕ, Bool, List};

/// What flows by edges passes by one of them; where a set tells two labels apart, no chain leads from one to the other; and
/// nothing flows into the labels from which chains lead to a label.
pub fn chains_are_flows()
    ensures flows { (edges : List Edge) (l m : ℕ) → Flows edges l m ↔ ((e : Edge) × Contains edges e × Passes e l m) }
    ensures none { (edges : List Edge) (from to : ℕ) (chain : List Edge) → IsApart edges from to → Chain edges from chain to
        → ⊥ }
    ensures closed { (edges : List Edge) (to : ℕ) (has : ℕ → Bool) → AreSources edges to has → IsClosed edges has }
{}
