//! What the definitions promise together, as functions that do nothing.

ghost use Rattle.source_images.specs.Numbered.{AreNumbered, AreSound};
ghost use Rattle.source_images.specs.SpaceFaults.{first_space_fault};
ghost use Rattle.adl_ast.specs.declared.source.Source.{Source};
ghost use Rattle.adl_meaning.specs.Faults.{least};
ghost use Rattle.adl_meaning.specs.Items.{assemblies};
ghost use Rattle.cspace_layout.specs.Limit.{limit_fault};
ghost use Rattle.adl_meaning.specs.declared.flat.Domain.{Domain};
ghost use Rattle.std.specs.List.{flat_map};
ghost use Rattle.std.specs.Prelude.{◌≡◌, ◌<◌, ◌≤◌, ◌^◌, ℕ, None, Some, codes, length, map, slice_get, sum};
ghost use Rattle.vspace_layout.specs.CanLay.{CanLay};
ghost use Rattle.vspace_layout.specs.Given.{Given as Laid, arch, base, wired_of};
ghost use Rattle.vspace_layout.specs.Frames.{frames};
ghost use Rattle.vspace_layout.specs.Laid.{spaces_of};
ghost use Rattle.vspace_layout.specs.Regions.{regions};
ghost use Rattle.vspace_layout.specs.Outlines.{AreFew, all_counted, all_mapped, outlines, spaces_in};
ghost use Rattle.vspace_layout.specs.PageLimits.{limits_passed, page_counts, table_counts, tables_of};
ghost use Rattle.vspace_layout.specs.SpaceLaws.{AddressesAreLow, FramesStand, PagesRise, RegionsAreApart, SectionsStand};

/// Regions stand apart, a free page between them, each at a whole page above the base.
pub fn regions_are_apart()
    ensures { (t : Laid) (d : ℕ) → RegionsAreApart t d }
{}

/// A frame stands under the number that is computed for what a page shows.
pub fn frames_stand_at_their_numbers()
    ensures { (t : Laid) → FramesStand t }
{}

/// Where no fault of sections stands, the pages of the sections of a domain stand one behind another, below the base.
pub fn sections_stand_apart()
    ensures { (t : Laid) → AreNumbered t.flat t.images → AreSound t.images → first_space_fault t.flat t.images ≡ None
        → (d : ℕ) → SectionsStand t d }
{}

/// Where sections stand apart below the base, the pages of a space stand at whole pages, and rise.
pub fn pages_rise()
    ensures { (t : Laid) (d : ℕ) → SectionsStand t d → PagesRise t d }
{}

/// Pages can be counted before any is listed, and page tables by the addresses of pages.
pub fn pages_are_counted()
    ensures pages { (t : Laid) → sum (page_counts t) ≡ all_counted t }
    ensures tables { (t : Laid) → sum (table_counts t) ≡ sum (map (tables_of (arch t)) (all_mapped t)) }
{}

/// Of the limits on pages and on page tables, that on pages is told first.
pub fn limits_are_told_in_order()
    ensures pages { (s : Source) (n m : ℕ) → length (assemblies s) ≡ 1 → 65536 < n → limit_fault s (codes "pages")
        ≡ least (flat_map (limits_passed n m) (assemblies s)) }
    ensures tables { (s : Source) (n m : ℕ) → length (assemblies s) ≡ 1 → n ≤ 65536 → 65536 < m
        → limit_fault s (codes "tables") ≡ least (flat_map (limits_passed n m) (assemblies s)) }
    ensures none { (s : Source) (n m : ℕ) → length (assemblies s) ≡ 1 → n ≤ 65536 → m ≤ 65536
        → least (flat_map (limits_passed n m) (assemblies s)) ≡ None }
{}

/// What is laid domain by domain is the spaces and frames of the definition.
pub fn spaces_are_laid_by_domain()
    ensures { (t : Laid) → spaces_in t.flat t.settled (base t) (outlines (wired_of t)) (all_mapped t) ≡ spaces_of t }
{}

/// Where the limit on pages isn't passed, regions have addresses of 64 bits, and frames numbers of 32.
pub fn regions_and_frames_are_few()
    ensures regions { (t : Laid) → CanLay t → sum (page_counts t) ≤ 65536 → (d : ℕ) (x : Domain) → slice_get t.flat.domains d
        ≡ Some x → AreFew (regions t d) }
    ensures frames { (t : Laid) → CanLay t → sum (page_counts t) ≤ 65536 → length (frames t) < 2 ^ 32 }
{}

/// Where sections stand below the base and the limit on pages isn't passed, every address is low: below 0xC0000000 on 32-bit ARM,
/// and below 0x10000000000 on AArch64.
pub fn addresses_are_low()
    ensures { (t : Laid) → CanLay t → sum (page_counts t) ≤ 65536 → (d : ℕ) (x : Domain) → slice_get t.flat.domains d ≡ Some x
        → SectionsStand t d → AddressesAreLow t d }
{}
