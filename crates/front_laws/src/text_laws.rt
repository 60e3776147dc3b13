//! What the definitions mean, as functions that do nothing.

ghost use Rattle.boot_plan.specs.Devices.{device_refusal};
ghost use Rattle.boot_plan.specs.Overlaps.{first_overlap};
ghost use Rattle.boot_plan.specs.Placed.{Placed};
ghost use Rattle.boot_plan.specs.UntypedTexts.{first_fault as region_fault};
ghost use Rattle.boot_plan.specs.declared.need.Need.{Need};
ghost use Rattle.boot_plan.specs.declared.plan_refusal.PlanRefusal.{PlanRefusal};
ghost use Rattle.boot_plan.specs.declared.untyped.Untyped.{Untyped};
ghost use Rattle.boot_plan.specs.declared.untyped.UntypedFault.{UntypedFault};
ghost use Rattle.cam_base.specs.declared.text_fault.TextFault.{TextFault};
ghost use Rattle.cap_model.specs.declared.spec.Spec.{Spec};
ghost use Rattle.sect_table.specs.Faults.{first_fault as elf_fault};
ghost use Rattle.sect_table.specs.declared.fault.ElfFault.{ElfFault};
ghost use Rattle.std.specs.Prelude.{◌≡◌, ◌↔◌, ℕ, [], List, None, Option, Some, length};
ghost use Rattle.step_text.specs.StepTexts.{first_fault as step_fault};
ghost use Rattle.front_laws.specs.ElfFaults.{IsElfFault, IsSoundElf};
ghost use Rattle.front_laws.specs.PlannedMemory.{AreApart, AreBlocksPlaced, AreDevicesPlaced, AreServed, IsDeviceRefusal, IsFirstOverlap, Overlap};
ghost use Rattle.front_laws.specs.ReadTexts.{AreRegionsRead, IsRegionFault};
ghost use Rattle.front_laws.specs.StepFaults.{AreStepsRead, IsStepFault};

/// A text of steps is refused at its first line that spells no step, or at the one step too many.
pub fn step_faults_are_the_first()
    ensures first { (spec : Spec) (bytes : List ℕ) (f : TextFault) → (step_fault spec bytes ≡ Some f) ↔ IsStepFault spec bytes f }
    ensures none { (spec : Spec) (bytes : List ℕ) → (step_fault spec bytes ≡ None) ↔ AreStepsRead spec bytes }
{}

/// A text of regions is refused where its first line isn't there, else at its first line that spells no
/// region, or at the one region too many.
pub fn region_faults_are_the_first()
    ensures first { (bytes : List ℕ) (f : UntypedFault) → (region_fault bytes ≡ Some f) ↔ IsRegionFault bytes f }
    ensures none { (bytes : List ℕ) → (region_fault bytes ≡ None) ↔ AreRegionsRead bytes }
{}

/// An ELF file is refused for the first thing that is wrong in it, and one that isn't refused is sound.
pub fn elf_faults_are_the_first()
    ensures first { (bytes : List ℕ) (f : ElfFault) → (elf_fault bytes ≡ Some f) ↔ IsElfFault bytes f }
    ensures none { (bytes : List ℕ) → (elf_fault bytes ≡ None) ↔ IsSoundElf bytes }
{}

/// Regions are refused exactly where two of them have an address in common, by the first two.
pub fn overlaps_share_addresses()
    ensures first { (rs : List Untyped) (i j : ℕ) → (first_overlap rs ≡ Some (i, j)) ↔ IsFirstOverlap rs i j }
    ensures none { (rs : List Untyped) → (first_overlap rs ≡ None) ↔ ((i j : ℕ) → Overlap rs i j → ⊥) }
{}

/// Objects are refused exactly where one needs a page of a device that no device has, or that one in
/// front of it needs, by the first such object.
pub fn devices_serve_one_object()
    ensures first { (rs : List Untyped) (ns : List Need) (x : PlanRefusal)
        → (device_refusal rs [] 0 ns ≡ Some x) ↔ IsDeviceRefusal rs ns x }
    ensures none { (rs : List Untyped) (ns : List Need) → (device_refusal rs [] 0 ns ≡ None) ↔ AreServed rs ns (length ns) }
{}

/// Placed objects have no address in common; a device's page lies in a region of a device, at its own
/// address, and a block in a region of no device.
pub fn placed_objects_are_apart()
    ensures apart { (ns : List Need) (rs : List Untyped) (places : List (Option ℕ)) → Placed ns rs places → AreApart ns places }
    ensures devices { (ns : List Need) (rs : List Untyped) (places : List (Option ℕ)) → Placed ns rs places
        → AreDevicesPlaced rs ns places }
    ensures blocks { (ns : List Need) (rs : List Untyped) (places : List (Option ℕ)) → Placed ns rs places
        → AreBlocksPlaced rs ns places }
{}
