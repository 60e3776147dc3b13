//! What comes of all that is read: the first fault of the lines of tables, or their images.

ghost use Rattle.source_images.specs.Archs.{is_other};
ghost use Rattle.source_images.specs.Told.{merged, merged_with, none_merged, with_image};
ghost use Rattle.std.specs.Prelude.{◌≡◌, IfOk, OnOk};

use crate::reading::Reading;
use cam_base::{Code, Fault, List, Made, Place, Text};
use cap_model::Arch;
use sect_table::Image;
use std::alloc::Global;

/// The first fault of the lines of tables, or else their images and architecture.
#[derive(Drop)]
pub struct Merged {
    pub fault: Option<Fault>,
    pub arch: Option<Arch>,
    pub images: List<Image>,
}

/// Whether an architecture is another one than the first, where there is one.
fn is_other(first: Option<Arch>, arch: Arch) -> bool
    ensures { result ≡ is_other first arch }
{
    match (first, arch) {
        (Some(Arch::Arm11), Arch::Aarch64) | (Some(Arch::Aarch64), Arch::Arm11) => true,
        (Some(Arch::Arm11), Arch::Arm11) | (Some(Arch::Aarch64), Arch::Aarch64) | (None, _) =>
            false,
    }
}

impl Merged {
    /// Nothing yet. Takes no memory.
    fn none(alloc: Global) -> Merged
        ensures { result ≡ none_merged }
    {
        Merged {
            fault: None,
            arch: None,
            images: List::new(alloc),
        }
    }

    /// Adds an image, whose first line stands at that place.
    fn add_image(&mut self, alloc: Global, image: Image, place: Place) -> Made<()>
        ensures { OnOk result (self.new ≡ with_image self.old image place) }
    {
        if is_other(self.arch, image.arch) {
            self.fault = Some(Fault {
                code: Code::BadSections,
                place,
                name: Text::empty(alloc),
            });
            return Ok(());
        }
        self.arch = Some(image.arch);
        self.images.push(image)
    }

    /// Adds what was read of a table, unless a fault was found.
    fn add(&mut self, alloc: Global, reading: Reading) -> Made<()>
        ensures { OnOk result (self.new ≡ merged_with self.old reading) }
    {
        if self.fault.is_some() {
            return Ok(());
        }
        match reading {
            Reading::Absent(_) | Reading::TooLong => Ok(()),
            Reading::Faulty(fault) => {
                self.fault = Some(fault);
                Ok(())
            }
            Reading::Sound(image, place) => self.add_image(alloc, image, place),
        }
    }
}

/// What comes of all that is read.
pub fn merge(alloc: Global, readings: List<Reading>) -> Made<Merged>
    ensures { IfOk result (λ m. m ≡ merged readings) }
{
    let mut merged = Merged::none(alloc);
    for reading in readings.into_vec() {
        merged.add(alloc, reading)?;
    }
    Ok(merged)
}
