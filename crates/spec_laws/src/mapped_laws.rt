//! What holds of sources without faults, as functions that do nothing. The laws are of sources in which the phases that they
//! name found no fault.

ghost use Rattle.adl_ast.specs.declared.source.Source.{Source};
ghost use Rattle.adl_meaning.specs.Flat.{flat_of};
ghost use Rattle.adl_meaning.specs.JoinFaults.{first_flat_fault};
ghost use Rattle.adl_meaning.specs.NameFaults.{AreNamesSound};
ghost use Rattle.adl_settings.specs.SettingFaults.{first_setting_fault};
ghost use Rattle.adl_settings.specs.Settled.{settled_of};
ghost use Rattle.adl_types.specs.TypeFaults.{first_type_fault};
ghost use Rattle.cspace_layout.specs.SlotFaults.{first_slot_fault};
ghost use Rattle.flat_laws.specs.ShortFiles.{AreFilesShort};
ghost use Rattle.source_images.specs.Numbered.{AreNumbered, AreSound};
ghost use Rattle.source_images.specs.SpaceFaults.{first_space_fault};
ghost use Rattle.source_images.specs.declared.images.Images.{Images};
ghost use Rattle.spec_laws.specs.HaveImages.{HaveImages};
ghost use Rattle.spec_laws.specs.CanMap.{CanMap};
ghost use Rattle.spec_laws.specs.Slotted.{CanSlot};
ghost use Rattle.std.specs.Prelude.{◌≡◌, None};
ghost use Rattle.system_spec.specs.TablesFrom.{tables_from};
ghost use Rattle.vspace_layout.specs.Given.{given};
ghost use Rattle.vspace_layout.specs.PageLimits.{first_page_limit};

/// Where no limit on slots is passed, each domain of a source without faults has few uses, each end has a setting, and each
/// interrupt has a device.
pub fn tables_have_slots()
    ensures { (s : Source) (images : Images) → AreFilesShort s → AreNamesSound s → first_type_fault s ≡ None
        → first_setting_fault s ≡ None → first_slot_fault s (flat_of s) ≡ None
        → CanSlot (tables_from s (flat_of s) (settled_of s) images) }
{}

/// Where moreover each leaf of software has an image, images are sound and numbered, no fault of spaces stands and no limit on
/// pages or page tables is passed, the images of a source without faults can be told of its spec and its map.
pub fn tables_can_map()
    ensures { (s : Source) (images : Images) → AreFilesShort s → AreNamesSound s → first_type_fault s ≡ None
        → first_flat_fault s ≡ None → first_setting_fault s ≡ None → AreNumbered (flat_of s) images → AreSound images
        → first_space_fault (flat_of s) images ≡ None → first_slot_fault s (flat_of s) ≡ None
        → first_page_limit (given s (flat_of s) (settled_of s) images) ≡ None → HaveImages (flat_of s) images
        → CanMap (tables_from s (flat_of s) (settled_of s) images) }
{}
