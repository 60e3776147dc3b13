//! What the definitions promise together, as functions that do nothing. Most laws are of sources in
//! which no fault of names stands.

ghost use Rattle.adl_meaning.specs.Prelude.{AreNamesSound, Climbs, End, IsLeaf, Joins, Name, Path, Placed, Reached, Role, Source, Strung, at, body, connections, connections_in, domain_number, domain_of, domains, exports_of, flat_domain, flat_end, flat_ends, group_above, hierarchy_of, instances_in, is_composite, is_hardware, joined_by, leaf_number, leaves, name_of, option_map_or, reached, slice_get, top_number, wires_of};
ghost use Rattle.adl_hierarchy.specs.Finite.{IsFinite};
ghost use Rattle.adl_hierarchy.specs.Leads.{AllLead, AreDotted};
ghost use Rattle.adl_hierarchy.specs.Once.{IsOnce};
ghost use Rattle.adl_hierarchy.specs.OutermostGroup.{IsOutermostGroup};
ghost use Rattle.adl_hierarchy.specs.PartAt.{part_at};
ghost use Rattle.adl_hierarchy.specs.Spelled.{AreSpelled};
ghost use Rattle.cam_base.specs.Gather.{IsIn};
ghost use Rattle.std.specs.Prelude.{◌≡◌, ◌≤◌, ◌↔◌, ℕ, false, [], ◌∷◌, ◌++◌, map, length, Some};

/// No component holds itself, and nothing is left out: each instance of a composition has a
/// component, and each connection a connector. The instances of a body differ in name, so do its
/// connections, and no two exports have one target. Where dotted names have two words or three,
/// each export leads on, and so does each end of a connection.
pub fn sound_hierarchies_are_finite()
    ensures finite { (s : Source) → AreNamesSound s → IsFinite (hierarchy_of s) }
    ensures whole { (s : Source) → AreNamesSound s → (k : ℕ) → let b = body (hierarchy_of s) k in
        map (λ x. x.instance) b.parts ≡ option_map_or instances_in b.composition [] }
    ensures whole_connections { (s : Source) → AreNamesSound s → (k : ℕ) → let b = body (hierarchy_of s) k in
        map (λ w. w.1) (wires_of b) ≡ option_map_or connections_in b.composition [] }
    ensures instances { (s : Source) → AreNamesSound s → (k : ℕ) → IsOnce (map name_of (body (hierarchy_of s) k).parts) }
    ensures connections { (s : Source) → AreNamesSound s → (k : ℕ)
        → IsOnce (map (λ w. w.1.id.name) (wires_of (body (hierarchy_of s) k))) }
    ensures exports { (s : Source) → AreNamesSound s → (k : ℕ)
        → IsOnce (map (λ x. x.target.name) (exports_of (body (hierarchy_of s) k))) }
    ensures lead { (s : Source) → AreNamesSound s → AreDotted (hierarchy_of s) → AllLead (hierarchy_of s) }
{}

/// Where tokens spell the tree of each file, the dotted names of exports and ends have two words or
/// three.
pub fn spelled_names_are_dotted()
    ensures { (s : Source) → AreSpelled s → AreDotted (hierarchy_of s) }
{}

/// The walk to the leaves meets each leaf once and nothing else, and each with the instance that
/// stands at its path, whose name is the last of the path.
pub fn leaves_are_the_leaves()
    ensures paths { (s : Source) → AreNamesSound s → let h = hierarchy_of s in (p : Path)
        → IsIn p (map (λ x. x.path) (leaves h)) ↔ IsLeaf h (top_number h) p }
    ensures once { (s : Source) → AreNamesSound s → IsOnce (map (λ x. x.path) (leaves (hierarchy_of s))) }
    ensures instances { (s : Source) → AreNamesSound s → let h = hierarchy_of s in (x : Placed)
        → IsIn x (leaves h) ↔ ((part_at h (top_number h) x.path ≡ Some x.part) × (is_composite h x.part.kind ≡ false)) }
    ensures kinds { (s : Source) → AreNamesSound s → let h = hierarchy_of s in (x : Placed) → IsIn x (leaves h)
        → (at h (top_number h) x.path ≡ Some x.part.kind) × ((above : Path) × (x.path ≡ above ++ name_of x.part ∷ [])) }
{}

/// The walk to the connections meets each connection of the composition at each path, and nothing
/// else. No two have one name at one path.
pub fn connections_are_the_connections()
    ensures each { (s : Source) → AreNamesSound s → let h = hierarchy_of s in (x : Strung)
        → IsIn x (connections h)
        ↔ ((at h (top_number h) x.path ≡ Some x.inside) × IsIn x.wire (wires_of (body h x.inside))) }
    ensures once { (s : Source) → AreNamesSound s
        → IsOnce (map (λ x. x.path ++ x.wire.1.id.name ∷ []) (connections (hierarchy_of s))) }
{}

/// What an end joins is a leaf and an interface that it joins by the relation, and all that it
/// joins by the relation is that one. Where dotted names have two words or three, each end joins
/// one, and each stands in the flat system under the number of its end.
pub fn ends_are_what_joins()
    ensures found { (s : Source) → AreNamesSound s → let h = hierarchy_of s in
        (x : Strung) (n : ℕ) (e : End) (r : Reached)
        → IsIn x (connections h) → slice_get x.wire.1.ends n ≡ Some e → joined_by h x.inside e ≡ Some r
        → Joins h x.path x.wire n e.role (x.path ++ r.path) r.interface }
    ensures leaf { (s : Source) → AreNamesSound s → let h = hierarchy_of s in
        (x : Strung) (n : ℕ) (e : End) (r : Reached)
        → IsIn x (connections h) → slice_get x.wire.1.ends n ≡ Some e → joined_by h x.inside e ≡ Some r
        → IsIn (record { path = x.path ++ r.path; part = r.part }) (leaves h) }
    ensures every { (s : Source) → AreNamesSound s → let h = hierarchy_of s in
        (x : Strung) (n : ℕ) (role : Role) (p : Path) (i : Name)
        → IsIn x (connections h) → Joins h x.path x.wire n role p i
        → (e : End) × (slice_get x.wire.1.ends n ≡ Some e) × (e.role ≡ role)
        × (r : Reached) × (joined_by h x.inside e ≡ Some r) × (x.path ++ r.path ≡ p) × (r.interface ≡ i) }
    ensures all { (s : Source) → AreNamesSound s → let h = hierarchy_of s in AreDotted h → (x : Strung) (e : End)
        → IsIn x (connections h) → IsIn e x.wire.1.ends → (r : Reached) × (joined_by h x.inside e ≡ Some r) }
    ensures as_many { (s : Source) → AreNamesSound s → let h = hierarchy_of s in AreDotted h → (x : Strung)
        → IsIn x (connections h) → length (flat_ends h x) ≡ length x.wire.1.ends }
    ensures numbers { (s : Source) → AreNamesSound s → let h = hierarchy_of s in AreDotted h
        → (x : Strung) (n : ℕ) (e : End) (r : Reached)
        → IsIn x (connections h) → slice_get x.wire.1.ends n ≡ Some e → joined_by h x.inside e ≡ Some r
        → slice_get (flat_ends h x) n ≡ Some (flat_end h x.path e r) }
{}

/// A search downwards from a port of a body finds an interface of a leaf exactly where that
/// interface climbs up to the port.
pub fn climbing_is_looking_down()
    ensures found { (s : Source) → let h = hierarchy_of s in (k : ℕ) (port : Name × Name) (r : Reached)
        → reached h k port ≡ Some r
        → (p : Path) × (r.path ≡ port.0 ∷ p) × (part_at h k r.path ≡ Some r.part)
        × IsLeaf h k r.path × Climbs h k port.0 p r.interface port.1 }
    ensures every { (s : Source) → AreNamesSound s → let h = hierarchy_of s in (k : ℕ) (c : Name) (p : Path) (i j : Name)
        → k ≤ top_number h → IsLeaf h k (c ∷ p) → Climbs h k c p i j
        → (r : Reached) × (reached h k (c, j) ≡ Some r) × (r.path ≡ c ∷ p) × (r.interface ≡ i) }
{}

/// The domains are those of the leaves that are no devices, each once, and the group above a path is
/// the outermost. The leaves of a domain are those that have it, by number and each once.
pub fn domains_are_the_domains()
    ensures each { (s : Source) → AreNamesSound s → let h = hierarchy_of s in (d : Path)
        → IsIn d (domains h)
        ↔ ((x : Placed) × IsIn x (leaves h) × (is_hardware h x.part ≡ false) × (domain_of h x.path ≡ d)) }
    ensures once { (s : Source) → AreNamesSound s → IsOnce (domains (hierarchy_of s)) }
    ensures leaves { (s : Source) → AreNamesSound s → let h = hierarchy_of s in (d : Path) (n : ℕ)
        → IsIn n (flat_domain h d).leaves
        ↔ ((x : Placed) × (slice_get (leaves h) n ≡ Some x) × (is_hardware h x.part ≡ false) × (domain_of h x.path ≡ d)) }
    ensures groups { (s : Source) → let h = hierarchy_of s in (p d : Path)
        → (group_above h (top_number h) p ≡ Some d) ↔ IsOutermostGroup h (top_number h) p d }
    ensures leaves_once { (s : Source) → AreNamesSound s → (d : Path) → IsOnce (flat_domain (hierarchy_of s) d).leaves }
{}

/// The number of a leaf's path is the place of the leaf, that of a domain's path the place of the
/// domain, and each domain of a leaf has a place.
pub fn leaf_numbers_are_places()
    ensures leaves { (s : Source) → AreNamesSound s → let h = hierarchy_of s in (n : ℕ) (x : Placed)
        → slice_get (leaves h) n ≡ Some x → leaf_number h x.path ≡ n }
    ensures domains { (s : Source) → AreNamesSound s → let h = hierarchy_of s in (n : ℕ) (d : Path)
        → slice_get (domains h) n ≡ Some d → domain_number h d ≡ n }
    ensures found { (s : Source) → AreNamesSound s → let h = hierarchy_of s in (d : Path)
        → IsIn d (domains h) → slice_get (domains h) (domain_number h d) ≡ Some d }
{}
