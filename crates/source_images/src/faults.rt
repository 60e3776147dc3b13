//! The faults of address spaces.

ghost use Rattle.adl_meaning.specs.Faults.{noted};
ghost use Rattle.cam_base.specs.Gather.{IsIn};
ghost use Rattle.source_images.specs.Numbered.{AreNumbered};
ghost use Rattle.source_images.specs.SpaceFaults.{domain_faults, first_space_fault, image_faults, is_outside, leaf_faults};
ghost use Rattle.std.specs.List.{flat_map};
ghost use Rattle.std.specs.Prelude.{◌≡◌, ◌<◌, ℕ, false, length, slice_index_or, IfOk, OnOk};

use crate::clashes::clashing;
use crate::images::{Images, sections_end};
use crate::sections::{is_inside, sections_of};
use adl_meaning::{Earliest, Flat};
use cam_base::{Code, Fault, Made, Place};
use sect_table::Image;
use std::alloc::Global;

/// Whether a section of the image lies elsewhere than sections may.
fn is_outside(image: &Image, end: u64) -> bool
    ensures { result ≡ is_outside end image.now }
{
    image
        .sections
        .as_slice()
        .iter()
        .any(|section| !is_inside(section, end))
}

/// Notes what is wrong with an image that a leaf at this place runs.
#[tactic(auto, using(adl_meaning::proofs::Noting::noting))]
fn note_image<'a>(
    image: &'a Image,
    clashing: bool,
    end: u64,
    place: Place,
    first: &mut Earliest<'a>,
)
    ensures { first.new ≡ noted first.old (image_faults end place clashing image.now) }
{
    let name = image.name.as_bytes();
    first.note(clashing, Code::SectionOverlap, place, name);
    first.note(is_outside(image, end), Code::Window, place, name);
}

/// Notes what is wrong with the program of a leaf, where it is known which images clash.
fn note_leaf<'a>(
    flat: &Flat,
    images: &'a Images,
    clashing: &[bool],
    leaf: u32,
    first: &mut Earliest<'a>,
)
    requires numbered { AreNumbered flat.now images.now }
    requires clashing { length clashing.now ≡ length images.now.images }
    requires leaf { leaf < length flat.now.leaves }
    ensures { first.new ≡ noted first.old (leaf_faults flat.now images.now (λ m. slice_index_or clashing.now m false) leaf) }
{
    let Some(number) = images.number_of(leaf) else {
        return;
    };
    let image = &images.images.as_slice()[number as usize];
    let place = flat.leaves.as_slice()[leaf as usize].place;
    let end = sections_end(images.arch());
    note_image(image, clashing[number as usize], end, place, first);
}

fn note_leaves<'a>(
    flat: &Flat,
    images: &'a Images,
    clashing: &[bool],
    leaves: &[u32],
    first: &mut Earliest<'a>,
)
    requires numbered { AreNumbered flat.now images.now }
    requires clashing { length clashing.now ≡ length images.now.images }
    requires leaves { (leaf : ℕ) → IsIn leaf leaves.now → leaf < length flat.now.leaves }
    ensures { first.new ≡ noted first.old
        (flat_map (leaf_faults flat.now images.now (λ m. slice_index_or clashing.now m false)) leaves.now) }
{
    for leaf in leaves {
        note_leaf(flat, images, clashing, *leaf, first);
    }
}

fn note_domain<'a>(
    alloc: Global,
    flat: &Flat,
    images: &'a Images,
    leaves: &[u32],
    first: &mut Earliest<'a>,
) -> Made<()>
    requires numbered { AreNumbered flat.now images.now }
    requires leaves { (leaf : ℕ) → IsIn leaf leaves.now → leaf < length flat.now.leaves }
    ensures { OnOk result (first.new ≡ noted first.old (domain_faults flat.now images.now leaves.now)) }
{
    let sections = sections_of(alloc, images, leaves)?;
    let clashing = clashing(alloc, sections.as_slice(), images.images.len())?;
    note_leaves(flat, images, clashing.as_slice(), leaves, first);
    Ok(())
}

/// The first fault of address spaces, none exactly where none stands: `specs/SpaceFaults.antt`.
pub fn first_space_fault(alloc: Global, flat: &Flat, images: &Images) -> Made<Option<Fault>>
    requires { AreNumbered flat.now images.now }
    ensures { IfOk result (λ f. f ≡ first_space_fault flat.now images.now) }
{
    let mut first = Earliest::none();
    for domain in flat.domains.as_slice() {
        note_domain(alloc, flat, images, domain.leaves.as_slice(), &mut first)?;
    }
    first.into_fault(alloc)
}
