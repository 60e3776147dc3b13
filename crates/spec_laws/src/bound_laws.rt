//! What holds of sources without faults, as functions that do nothing. The laws are of sources in which the phases that they
//! name found no fault.

ghost use Rattle.adl_ast.specs.declared.source.Source.{Source};
ghost use Rattle.adl_meaning.specs.Flat.{flat_of};
ghost use Rattle.adl_meaning.specs.JoinFaults.{first_flat_fault};
ghost use Rattle.adl_meaning.specs.NameFaults.{AreNamesSound};
ghost use Rattle.adl_settings.specs.SettingFaults.{first_setting_fault};
ghost use Rattle.adl_settings.specs.Settled.{settled_of};
ghost use Rattle.adl_types.specs.TypeFaults.{first_type_fault};
ghost use Rattle.cam_io.specs.Contents.{Contents};
ghost use Rattle.cspace_layout.specs.SlotFaults.{first_slot_fault};
ghost use Rattle.flat_laws.specs.ShortFiles.{AreFilesShort};
ghost use Rattle.source_images.specs.Numbered.{AreNumbered, AreSound};
ghost use Rattle.source_images.specs.SpaceFaults.{first_space_fault};
ghost use Rattle.source_images.specs.declared.images.Images.{Images};
ghost use Rattle.sect_table.specs.declared.image.Image.{Image};
ghost use Rattle.source_images.specs.ImagesRead.{AreImagesOf};
ghost use Rattle.spec_laws.specs.Fit.{IsFit};
ghost use Rattle.spec_laws.specs.HaveImages.{HaveImages};
ghost use Rattle.spec_laws.specs.Limited.{IsLimited};
ghost use Rattle.spec_laws.specs.Plain.{IsImagePlain, IsPlain};
ghost use Rattle.std.specs.Prelude.{◌≡◌, ℕ, List as Seq, None, Option, Some, slice_get};
ghost use Rattle.system_spec.specs.Buildable.{IsBuildable, IsWindowed};
ghost use Rattle.system_spec.specs.TablesFrom.{tables_from};
ghost use Rattle.vspace_layout.specs.CanLay.{CanLay};
ghost use Rattle.vspace_layout.specs.Given.{given};
ghost use Rattle.vspace_layout.specs.PageLimits.{first_page_limit};

/// The spaces of a source without faults can be laid out, whatever the images of its programs.
pub fn spaces_can_be_laid()
    ensures { (s : Source) (images : Images) → AreFilesShort s → AreNamesSound s → first_type_fault s ≡ None
        → first_flat_fault s ≡ None → first_setting_fault s ≡ None → CanLay (given s (flat_of s) (settled_of s) images) }
{}

/// Where moreover its images are sound and numbered, no fault of spaces stands and no limit on slots, pages or page tables is
/// passed, a spec can be made of what is laid out.
pub fn specs_can_be_built()
    ensures { (s : Source) (images : Images) → AreFilesShort s → AreNamesSound s → first_type_fault s ≡ None
        → first_flat_fault s ≡ None → first_setting_fault s ≡ None → AreNumbered (flat_of s) images → AreSound images
        → first_space_fault (flat_of s) images ≡ None → first_slot_fault s (flat_of s) ≡ None
        → first_page_limit (given s (flat_of s) (settled_of s) images) ≡ None
        → IsBuildable (tables_from s (flat_of s) (settled_of s) images) }
{}

/// The map of a source without faults can be listed, whatever the images of its programs.
pub fn maps_can_be_listed()
    ensures { (s : Source) (images : Images) → AreFilesShort s → AreNamesSound s → first_type_fault s ≡ None
        → first_flat_fault s ≡ None → first_setting_fault s ≡ None
        → IsWindowed (tables_from s (flat_of s) (settled_of s) images) }
{}

/// Where the images of a source without faults are sound and numbered, no fault of spaces stands and no limit on slots, pages
/// or page tables is passed, the spec that is made of it is kept.
pub fn tables_are_fit()
    ensures { (s : Source) (images : Images) → AreFilesShort s → AreNamesSound s → first_type_fault s ≡ None
        → first_flat_fault s ≡ None → first_setting_fault s ≡ None → AreNumbered (flat_of s) images → AreSound images
        → first_space_fault (flat_of s) images ≡ None → first_slot_fault s (flat_of s) ≡ None
        → first_page_limit (given s (flat_of s) (settled_of s) images) ≡ None
        → IsFit (tables_from s (flat_of s) (settled_of s) images) }
{}

/// Where no limit on slots, pages or page tables is passed, its layouts are within the limits of specs: each stack has a page,
/// and memory is seen in some domain.
pub fn layouts_are_limited()
    ensures { (s : Source) (images : Images) → AreFilesShort s → AreNamesSound s → first_type_fault s ≡ None
        → first_flat_fault s ≡ None → first_setting_fault s ≡ None → first_slot_fault s (flat_of s) ≡ None
        → first_page_limit (given s (flat_of s) (settled_of s) images) ≡ None
        → IsLimited (given s (flat_of s) (settled_of s) images) }
{}

/// Where its images are plain, so are its layouts: settings are numbers of 64 bits, and threads run programs that have names.
pub fn layouts_are_plain()
    ensures { (s : Source) (images : Images) → AreFilesShort s → AreNamesSound s → first_flat_fault s ≡ None
        → ((m : ℕ) (image : Image) → slice_get images.images m ≡ Some image → IsImagePlain image)
        → IsPlain (given s (flat_of s) (settled_of s) images) }
{}

/// The images that are read for a source are plain: programs have names, which are those of components, begin at numbers of
/// 64 bits, and have sound sections.
pub fn read_images_are_plain()
    ensures { (contents : Contents) (root : Seq ℕ) (s : Source) (images : Images) → AreFilesShort s
        → AreImagesOf contents root s (flat_of s) images
        → (m : ℕ) (image : Image) → slice_get images.images m ≡ Some image → IsImagePlain image }
{}

/// Where no fault of names stands in a source, each leaf of its software has one of the images that are read for it.
pub fn programs_have_images()
    ensures { (contents : Contents) (root : Seq ℕ) (s : Source) (images : Images) → AreNamesSound s
        → AreImagesOf contents root s (flat_of s) images → HaveImages (flat_of s) images }
{}
