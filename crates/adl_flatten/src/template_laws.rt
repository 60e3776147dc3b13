//! What the definitions promise together, as a function that does nothing.

ghost use Rattle.adl_meaning.specs.Prelude.{Hierarchy, Name, Part, body, flat_map, part_named, slice_get, top_number};
ghost use Rattle.adl_flatten.specs.AreTemplates.{IsReady};
ghost use Rattle.adl_flatten.specs.Templates.{connections_by, leaves_before, leaves_by, own_connections, target, target_by, template_connections, template_leaves};
ghost use Rattle.cam_base.specs.Gather.{gather};
ghost use Rattle.std.specs.Prelude.{Some, ℕ, ◌++◌, ◌≡◌, ◌≤◌};

/// The template of a body is made of those of its instances' components: its leaves with their homes, its connections,
/// and where its ports lead.
pub fn templates_are_placed()
    ensures leaves { (h : Hierarchy) → IsReady h → (k : ℕ) → k ≤ top_number h
        → template_leaves h k ≡ flat_map (leaves_by h) (body h k).parts }
    ensures connections { (h : Hierarchy) → IsReady h → (k : ℕ) → k ≤ top_number h
        → template_connections h k ≡ own_connections h k
        ++ gather (connections_by h k) (body h k).parts }
    ensures targets { (h : Hierarchy) → IsReady h → (k i : ℕ) (c j : Name) (x : Part) → k ≤ top_number h
        → slice_get (body h k).parts i ≡ Some x → part_named (body h k).parts c ≡ Some x
        → target h k (c, j) ≡ target_by h (leaves_before h k i) x.kind j }
{}
