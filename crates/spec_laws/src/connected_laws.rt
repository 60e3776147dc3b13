//! What holds of sources without faults, as functions that do nothing. The laws are of sources in which the phases that they
//! name found no fault.

ghost use Rattle.adl_ast.specs.declared.source.Source.{Source};
ghost use Rattle.adl_meaning.specs.Flat.{flat_of};
ghost use Rattle.adl_meaning.specs.JoinFaults.{first_flat_fault};
ghost use Rattle.adl_meaning.specs.NameFaults.{AreNamesSound};
ghost use Rattle.adl_settings.specs.SettingFaults.{first_setting_fault};
ghost use Rattle.adl_settings.specs.Settled.{settled_of};
ghost use Rattle.adl_types.specs.TypeFaults.{first_type_fault};
ghost use Rattle.cspace_layout.specs.SlotFaults.{first_slot_fault};
ghost use Rattle.flat_laws.specs.ShortFiles.{AreFilesShort};
ghost use Rattle.source_images.specs.Numbered.{AreNumbered, AreSound};
ghost use Rattle.source_images.specs.SpaceFaults.{first_space_fault};
ghost use Rattle.source_images.specs.declared.images.Images.{Images};
ghost use Rattle.spec_laws.specs.Connected.{IsConnected};
ghost use Rattle.std.specs.Prelude.{◌≡◌, None};
ghost use Rattle.system_spec.specs.TablesFrom.{tables_from};
ghost use Rattle.vspace_layout.specs.Given.{given};
ghost use Rattle.vspace_layout.specs.PageLimits.{first_page_limit};

/// Where the images of a source without faults are sound and numbered, and no fault of spaces stands, pages rise, each end that
/// sees memory sees some, and connections to the same registers see as many pages.
pub fn tables_are_connected()
    ensures { (s : Source) (images : Images) → AreFilesShort s → AreNamesSound s → first_type_fault s ≡ None
        → first_flat_fault s ≡ None → first_setting_fault s ≡ None → AreNumbered (flat_of s) images → AreSound images
        → first_space_fault (flat_of s) images ≡ None → first_slot_fault s (flat_of s) ≡ None
        → first_page_limit (given s (flat_of s) (settled_of s) images) ≡ None
        → IsConnected (tables_from s (flat_of s) (settled_of s) images) }
{}
