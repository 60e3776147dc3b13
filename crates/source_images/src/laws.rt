//! What the definitions promise together, as functions that do nothing.

ghost use Rattle.adl_ast.specs.declared.source.Source.{Source as Tree};
ghost use Rattle.adl_meaning.specs.declared.flat.Flat.{Flat};
ghost use Rattle.cam_io.specs.Contents.{Contents};
ghost use Rattle.cspace_layout.specs.Within.{IsWithin};
ghost use Rattle.source_images.specs.Numbered.{AreNumbered, AreSound};
ghost use Rattle.source_images.specs.declared.images.Images.{Images};
ghost use Rattle.source_images.specs.ImagesRead.{AreImagesOf, AreImagesRead};
ghost use Rattle.cam_base.specs.Unread.{SourceError as Refusal, yields};
ghost use Rattle.std.specs.Prelude.{◌≡◌, ℕ, false, List as Seq, Option, Some, Result};

/// In given contents there is one answer, aside from failed reads and want of memory: the images, or the first fault.
pub fn answers_are_one()
    ensures { (m : Contents) (root : Seq ℕ) (source : Tree) (flat : Flat) (a b : Result Images Refusal)
        → yields a ≡ false → yields b ≡ false
        → AreImagesRead m root source flat a → AreImagesRead m root source flat b → a ≡ b }
{}

/// Each section of each image is sound.
pub fn images_are_sound()
    ensures { (contents : Contents) (root : Seq ℕ) (source : Tree) (flat : Flat) (images : Images)
        → AreImagesOf contents root source flat images → AreSound images }
{}

/// Images have numbers of 32 bits, each image that a leaf runs is one of the images, and each has few sections.
pub fn images_are_numbered()
    ensures { (contents : Contents) (root : Seq ℕ) (source : Tree) (flat : Flat) (images : Images)
        → AreImagesOf contents root source flat images → IsWithin source flat → AreNumbered flat images }
{}
