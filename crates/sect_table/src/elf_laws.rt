//! Laws of the definitions. These functions do nothing: what they ensure is the law.

ghost use Rattle.sect_table.specs.Elf.{Elf};
ghost use Rattle.sect_table.specs.Faults.{first_fault};
ghost use Rattle.sect_table.specs.declared.fault.ElfFault.{ElfFault};
ghost use Rattle.sect_table.specs.declared.image.Image.{Image};
ghost use Rattle.std.specs.Prelude.{◌≡◌, ℕ, List, Some};

/// A file is related to one image at most.
pub fn files_have_one_image()
    ensures { (name bytes : List ℕ) (a b : Image) → Elf name bytes a → Elf name bytes b → a ≡ b }
{}

/// A file that is related to an image has no fault.
pub fn images_have_no_fault()
    ensures { (name bytes : List ℕ) (image : Image) (fault : ElfFault) → Elf name bytes image
        → first_fault bytes ≡ Some fault → ⊥ }
{}
