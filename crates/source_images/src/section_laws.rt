//! What the definitions promise together, as functions that do nothing.

ghost use Rattle.adl_meaning.specs.declared.flat.Domain.{Domain};
ghost use Rattle.adl_meaning.specs.declared.flat.Flat.{Flat};
ghost use Rattle.cam_base.specs.Gather.{IsIn};
ghost use Rattle.source_images.specs.ByAddress.{section_pages};
ghost use Rattle.source_images.specs.Images.{arch_of, sections_end};
ghost use Rattle.source_images.specs.Numbered.{AreApart, AreNumbered, AreSound};
ghost use Rattle.source_images.specs.SpaceFaults.{first_space_fault};
ghost use Rattle.source_images.specs.declared.images.Images.{Images};
ghost use Rattle.std.specs.List.{All, AllPairs};
ghost use Rattle.std.specs.Prelude.{◌≡◌, ◌≤◌, ◌+◌, None};

/// Where no fault of address spaces stands, the sections of each domain lie apart. Their pages stand by address, each
/// behind the one before it, and all behind the first page of the space and in front of the end of sections.
pub fn sections_lie_apart()
    ensures apart { (s : Flat) (p : Images) → AreNumbered s p → AreSound p → first_space_fault s p ≡ None → (d : Domain)
        → IsIn d s.domains → AreApart p d.leaves }
    ensures rise { (s : Flat) (p : Images) → AreNumbered s p → AreSound p → first_space_fault s p ≡ None → (d : Domain)
        → IsIn d s.domains → AllPairs (λ a b. a.vaddr + 4096 ≤ b.vaddr) (section_pages p d.leaves) }
    ensures inside { (s : Flat) (p : Images) → AreNumbered s p → AreSound p → first_space_fault s p ≡ None → (d : Domain)
        → IsIn d s.domains → All (λ a. (4096 ≤ a.vaddr) × (a.vaddr + 4096 ≤ sections_end (arch_of p.images)))
        (section_pages p d.leaves) }
{}
