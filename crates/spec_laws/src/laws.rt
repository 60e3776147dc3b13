//! Laws of the spec and the map of a system. These functions do nothing: what they ensure is the law.

ghost use Rattle.adl_meaning.specs.declared.flat.Domain.{Domain};
ghost use Rattle.std.specs.Prelude.{◌≡◌, ◌↔◌, ℕ, Some, slice_get};
ghost use Rattle.spec_laws.specs.CanMap.{CanMap};
ghost use Rattle.spec_laws.specs.Spaced.{ArePagesOf, root_of};
ghost use Rattle.spec_laws.specs.Framed.{AreAllMapped, AreMemoryFrames, AreOwnFrames};
ghost use Rattle.spec_laws.specs.Imaged.{AreImages, AreRoots, AreTables};
ghost use Rattle.spec_laws.specs.Kinded.{SayKinds};
ghost use Rattle.spec_laws.specs.Labelled.{AreDomainLabels, AreFrameLabels, AreJointLabels};
ghost use Rattle.spec_laws.specs.Ordered.{AreFramesInOrder, AreTablesInOrder};
ghost use Rattle.spec_laws.specs.Regioned.{AreRegions};
ghost use Rattle.spec_laws.specs.Slotted.{AreSlots, CanSlot};
ghost use Rattle.spec_laws.specs.Threaded.{AreThreads};
ghost use Rattle.cam_base.specs.Gather.{IsIn};
ghost use Rattle.system_spec.specs.declared.map_line.MapLine.TheVariants.{DomainLine};
ghost use Rattle.system_spec.specs.MapLines.{map_lines};
ghost use Rattle.system_spec.specs.Made.{labels_of, spec_of};
ghost use Rattle.system_spec.specs.Tables.{Tables};

/// The CNode of each domain has the capabilities of its uses in their slots, each to its object with its rights and its
/// badge, and no other. Interrupts, interrupt lines and the map's lines of slots are those of the system, and no others. No two
/// uses have one lock.
pub fn slots_are_those_of_the_system()
    ensures { (t : Tables) → CanSlot t → AreSlots t (spec_of t) (map_lines t) }
{}

/// What stands at an address of a domain's space, from its root by the address's slots, is a page of a section or of a region
/// that is mapped there, with its rights, and each of them stands at its addresses.
pub fn pages_stand_where_they_are_mapped()
    ensures { (t : Tables) → CanMap t → (d : ℕ) (x : Domain) → slice_get t.flat.domains d ≡ Some x
        → ArePagesOf t (spec_of t) d (root_of t d) }
{}

/// A space has a table of a level for an address exactly where a page is mapped under it. Tables have their domain's label.
pub fn tables_stand_where_pages_are_mapped()
    ensures { (t : Tables) → CanMap t → AreTables t (spec_of t) (root_of t) (labels_of t) }
{}

/// Page k of a shared connection is one frame in all its windows, and page k of a device's registers is one frame, at its
/// address.
pub fn windows_show_one_memory()
    ensures { (t : Tables) → CanMap t → AreMemoryFrames t (spec_of t) (root_of t) }
{}

/// Every other frame is mapped once, in one space, and filled as its page of a section says, or not at all.
pub fn other_frames_are_mapped_once()
    ensures { (t : Tables) → CanMap t → AreOwnFrames t (spec_of t) (root_of t) }
{}

/// Thread lines and threads are one to one: one for each leaf of software, and one for each of its ends that serves calls. Each
/// runs its leaf's program with its leaf's priority, in its domain's space.
pub fn threads_are_those_of_the_system()
    ensures { (t : Tables) → CanMap t → AreThreads t (spec_of t) (root_of t) (map_lines t) }
{}

/// The end of each thread's stack and its buffer are those of its regions, and its capability to the buffer is the one that is
/// mapped there. The map's lines of windows are those of the domains' windows, and no others.
pub fn regions_stand_where_they_are_laid()
    ensures { (t : Tables) → CanMap t → AreRegions t (spec_of t) (root_of t) (map_lines t) }
{}

/// CNodes, threads, locks and own frames have their domain's label, endpoints, notifications and shared frames their
/// connection's, and registers and interrupts their device's.
pub fn labels_are_of_owners()
    ensures domains { (t : Tables) → CanMap t → CanSlot t → AreDomainLabels t (spec_of t) (labels_of t) (map_lines t) }
    ensures joints { (t : Tables) → CanMap t → AreJointLabels t (spec_of t) (labels_of t) }
    ensures frames { (t : Tables) → CanMap t → AreFrameLabels t (spec_of t) (root_of t) (labels_of t) }
{}

/// Each frame is mapped in the space of some domain.
pub fn all_frames_are_mapped()
    ensures { (t : Tables) → CanMap t → AreAllMapped t (spec_of t) (root_of t) }
{}

/// Each domain has a root of its own, which is named by the domain's number.
pub fn domains_have_their_roots()
    ensures { (t : Tables) → CanMap t → AreRoots t (spec_of t) (root_of t) }
{}

/// The map has a line for each domain, and no other.
pub fn domains_have_their_lines()
    ensures { (t : Tables) (d : ℕ) → IsIn (DomainLine d) (map_lines t) ↔ ((x : Domain) × (slice_get t.flat.domains d ≡ Some x)) }
{}

/// Page tables of a level stand by domain and address, and none that no page needs.
pub fn tables_stand_in_order()
    ensures { (t : Tables) → CanMap t → AreTablesInOrder t (spec_of t) (root_of t) }
{}

/// The frames of domains stand by domain and address, behind them those of shared connections, and then registers of devices.
pub fn frames_stand_in_order()
    ensures { (t : Tables) → CanMap t → AreFramesInOrder t (spec_of t) (root_of t) }
{}

/// Each object is of the kind that its name says.
pub fn names_say_kinds()
    ensures { (t : Tables) → SayKinds (spec_of t) }
{}

/// All of this together: the objects in their order under their names, and what the laws above say of a system.
pub fn images_are_those_of_the_system()
    ensures { (t : Tables) → CanMap t → CanSlot t → AreImages t (spec_of t) (root_of t) (labels_of t) (map_lines t) }
{}
