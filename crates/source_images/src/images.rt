ghost use Rattle.source_images.specs.Images.{arch_of, image_number, sections_end};
ghost use Rattle.std.specs.Prelude.{◌≡◌};

use cam_base::List;
use cap_model::Arch;
use sect_table::Image;

/// The images of a system's programs, and the number of the one that each leaf runs. A device runs none.
#[derive(Drop)]
pub struct Images {
    pub images: List<Image>,
    pub of_leaf: List<Option<u32>>,
}

impl Images {
    /// The number of the image that a leaf runs. Takes no memory.
    pub fn number_of(&self, leaf: u32) -> Option<u32>
        ensures { result ≡ image_number self.now leaf }
    {
        *self.of_leaf.as_slice().get(leaf as usize)?
    }

    /// The architecture of all images: without any the 32-bit one. Takes no memory.
    pub fn arch(&self) -> Arch
        ensures { result ≡ arch_of self.now.images }
    {
        match self.images.as_slice() {
            [] => Arch::Arm11,
            [image, ..] => image.arch,
        }
    }
}

/// The address at which sections end and the other regions of a space begin. Takes no memory.
pub fn sections_end(arch: Arch) -> u64
    ensures { result ≡ sections_end arch }
{
    match arch {
        Arch::Arm11 => 0x4000_0000,
        Arch::Aarch64 => 0x80_0000_0000,
    }
}
