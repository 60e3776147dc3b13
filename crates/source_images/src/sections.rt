//! The sections of a domain.

ghost use Rattle.source_images.specs.Images.{is_run, sections_if, sections_of};
ghost use Rattle.source_images.specs.Numbered.{AreCounted};
ghost use Rattle.source_images.specs.SectionPages.{page_count, is_inside, sections_told};
ghost use Rattle.std.specs.Prelude.{◌≡◌, ◌<◌, ◌^◌, ◌++◌, length, true, IfOk, OnOk};

use crate::images::Images;
use cam_base::Made;
use sect_table::{Image, Section};
use std::alloc::Global;

/// A section of a program: the number of the image, and the section's place in it.
#[derive(Clone, Copy)]
pub struct Placed<'a> {
    pub image: u32,
    pub number: u32,
    pub section: &'a Section,
}

/// The number of pages of a section.
pub fn page_count(section: &Section) -> u64
    ensures { result ≡ page_count section.now }
{
    section.size.div_ceil(4096)
}

/// Whether all pages of a section lie behind the first one and in front of an address.
pub fn is_inside(section: &Section, end: u64) -> bool
    ensures { result ≡ is_inside end section.now }
{
    section.vaddr >= 4096
        && section
            .vaddr
            .checked_add(section.size)
            .is_some_and(|behind| behind <= end)
}

/// Whether one of these leaves runs the image.
fn is_run(images: &Images, leaves: &[u32], number: u32) -> bool
    ensures { result ≡ is_run images.now leaves.now number }
{
    leaves
        .iter()
        .any(|leaf| images.number_of(*leaf) == Some(number))
}

fn push_sections<'a>(number: u32, image: &'a Image, found: &mut Vec<Placed<'a>>) -> Made<()>
    requires { length image.now.sections < 2 ^ 32 }
    ensures { OnOk result (sections_told found.new.items ≡ sections_told found.old.items ++ sections_if true number image.now) }
{
    for (place, section) in image.sections.as_slice().iter().enumerate() {
        found.push(Placed {
            image: number,
            number: place as u32,
            section,
        })?;
    }
    Ok(())
}

/// The sections of the programs that leaves run, those of each program once.
pub fn sections_of<'a>(alloc: Global, images: &'a Images, leaves: &[u32]) -> Made<Vec<Placed<'a>>>
    requires { AreCounted images.now }
    ensures { IfOk result (λ v. sections_told v.items ≡ sections_of images.now leaves.now) }
{
    let mut found = Vec::new(alloc);
    for (number, image) in images.images.as_slice().iter().enumerate() {
        if is_run(images, leaves, number as u32) {
            push_sections(number as u32, image, &mut found)?;
        }
    }
    Ok(found)
}
