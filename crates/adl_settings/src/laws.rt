//! What the definitions promise together, as functions that do nothing.

ghost use Rattle.adl_ast.specs.declared.configuration.Setter.TheVariants as setters;
ghost use Rattle.adl_meaning.specs.Prelude.{Given as Value, Hierarchy as Tree, Id as Word, Name as Bytes, Path as Names, Source as Text, default_at, filter, flat_of, hierarchy_of, list_all, option_or, set_within, setter_at, value_at};
ghost use Rattle.adl_settings.specs.Words.{FlatConnection as Wire, FlatEnd as Joining};
ghost use Rattle.std.specs.Prelude.{List as Seq, None, Some, length, slice_get, suc, take, true, ℕ, ◌+◌, ◌-◌, ◌<◌, ◌≡◌};
ghost use Rattle.adl_settings.specs.EndMeaning.{end_setting};
ghost use Rattle.adl_settings.specs.Joints.{Found, is_from, positioned};
ghost use Rattle.adl_settings.specs.NumberedEnds.{IsFoundAt, joins_interface, setting_at};
ghost use Rattle.adl_settings.specs.Settled.{settled_of};

/// What a body sets stays, whatever bodies further inwards set, and a default counts where no body sets a value.
#[tactic(auto, using(crate::proofs::ValueSearch::outer_stays, crate::proofs::ValueSearch::default_last))]
pub fn outer_settings_come_first()
    ensures outer { (h : Tree) (p : Names) (k end : ℕ) (x : Bytes) (g : Value)
        → set_within h p k end x ≡ Some g → set_within h p (suc k) end x ≡ Some g }
    ensures default { (h : Tree) (p : Names) (x : Bytes)
        → set_within h p (length p - 1) (length p) x ≡ None → value_at h p x ≡ default_at h p x }
{}

/// A reference stands for the value of the attribute at the path of its body, and where there is none, for no setting.
#[tactic(auto, using(crate::proofs::ValueSearch::reference_found, crate::proofs::ValueSearch::reference_absent))]
pub fn references_are_values()
    ensures found { (h : Tree) (p : Names) (k end : ℕ) (x : Bytes) (y : Word)
        → k < length p → setter_at h p (suc k) end x ≡ Some (setters.Reference y)
        → set_within h p (suc k) end x ≡ option_or (set_within h p k end x) (value_at h (take (suc k) p) y.name) }
    ensures absent { (h : Tree) (p : Names) (k end : ℕ) (x : Bytes) (y : Word)
        → k < length p → setter_at h p (suc k) end x ≡ Some (setters.Reference y) → value_at h (take (suc k) p) y.name ≡ None
        → set_within h p (suc k) end x ≡ set_within h p k end x }
{}

/// The badges that `from` ends have by default are 1, 2 and so on, without a gap.
#[tactic(auto, using(crate::proofs::EndNumbers::position_nth))]
pub fn badges_count_from_one()
    ensures { (es : Seq Joining) (i : ℕ) (x : ℕ × Joining)
        → slice_get (filter (λ y. is_from y.1.role) (positioned es)) i ≡ Some x → x.0 ≡ i + 1 }
{}

/// Where each end of a connection joins an interface, end n of connection i of the flat system has the n-th settings of the
/// i-th connection.
pub fn settings_are_those_of_joins()
    ensures { (s : Text) (i n : ℕ) (k : Wire) (e : Joining) → slice_get (flat_of s).connections i ≡ Some k
        → list_all (joins_interface s (flat_of s)) k.ends ≡ true → slice_get k.ends n ≡ Some e
        → (f : Found) × IsFoundAt (hierarchy_of s) s (flat_of s) k e f × (setting_at (settled_of s) i n ≡ Some (end_setting f)) }
{}
