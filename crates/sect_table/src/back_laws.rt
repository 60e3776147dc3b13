//! What holds of written section tables. These functions do nothing: what they ensure is the law.

ghost use Rattle.cam_base.specs.declared.error.Refused.{Refused as Refusal};
ghost use Rattle.cam_base.specs.declared.error.Refused.TheVariants as refusals;
ghost use Rattle.cam_base.specs.declared.place.Fault.{Fault as Wrong};
ghost use Rattle.sect_table.specs.TablesBack.{AreBytes, HasTable};
ghost use Rattle.sect_table.specs.Elf.{Elf};
ghost use Rattle.sect_table.specs.Texts.{table_text};
ghost use Rattle.sect_table.specs.Tables.{IsRead, first_fault, image_of};
ghost use Rattle.sect_table.specs.declared.image.Image.{Image as Program};
ghost use Rattle.std.specs.Prelude.{◌≡◌, ◌⊎◌, ℕ, List as Seq, Some as There, None as Absent, Result as Res, Ok as Good, Err as Bad};

/// The table of an image that a table can say has no fault, and says that image.
pub fn tables_are_read_back()
    ensures { (file : ℕ) (image : Program) → HasTable image → (first_fault file (table_text image) ≡ Absent)
        × (image_of image.name (table_text image) ≡ There image) }
{}

/// A table can say the image of a file.
pub fn images_have_tables()
    ensures { (name bytes : Seq ℕ) (image : Program) → AreBytes bytes → Elf name bytes image → HasTable image }
{}

/// What was written of the image of a file is read back as the same image, unless memory runs out.
pub fn written_is_read()
    ensures { (file : ℕ) (name bytes : Seq ℕ) (image : Program) (r : Res Program (Refusal Wrong)) → AreBytes bytes
        → Elf name bytes image → IsRead file name (table_text image) r → (r ≡ Good image) ⊎ (r ≡ Bad refusals.NoMemory) }
{}
