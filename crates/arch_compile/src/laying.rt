//! Slots and spaces, or the first fault that stands in their way.

ghost use Rattle.adl_meaning.specs.Faults.{Refuses};
ghost use Rattle.arch_compile.specs.Steps.{IsImaged, IsLaid, first_laid_fault};
ghost use Rattle.front_end.specs.Steps.{HasMeaning};
ghost use Rattle.source_images.specs.SpaceFaults.{first_space_fault};
ghost use Rattle.std.specs.Prelude.{◌≡◌, IfOk, None};
ghost use Rattle.vspace_layout.specs.Given.{given, given_by};

use cam_base::{Fault, Refused};
use cspace_layout::{Slots, Wiring, lay_slots};
use front_end::Meaning;
use source_images::{Images, first_space_fault};
use std::alloc::Global;
use vspace_layout::{Spaces, lay_apart};

/// The slots of a system, and its spaces.
#[derive(Drop)]
pub struct Layout {
    pub slots: Slots,
    pub spaces: Spaces,
}

/// The slots and the spaces of what is wired, with these images, where no fault of sections stands; refused exactly where a limit
/// on slots, or else a limit on pages is passed.
fn lay_wired(alloc: Global, wiring: &Wiring<'_>, images: &Images) -> Result<Layout, Refused<Fault>>
    requires sound { HasMeaning wiring.now.source wiring.now.flat wiring.now.settled }
    requires imaged { IsImaged wiring.now.flat images.now }
    requires apart { first_space_fault wiring.now.flat images.now ≡ None }
    ensures fault { Refuses result (first_laid_fault (given_by wiring.now images.now)) }
    ensures laid { IfOk result (IsLaid wiring.now.source wiring.now.flat wiring.now.settled images.now) }
{
    let slots = lay_slots(alloc, wiring)?;
    let spaces = lay_apart(alloc, wiring, images)?;
    Ok(Layout { slots, spaces })
}

/// The slots and the spaces of what is meant, with these images; refused exactly where a fault of sections stands, or else a
/// limit on slots, or else a limit on pages is passed.
pub fn lay_out(alloc: Global, meaning: &Meaning, images: &Images) -> Result<Layout, Refused<Fault>>
    requires sound { HasMeaning meaning.now.source meaning.now.flat meaning.now.settled }
    requires imaged { IsImaged meaning.now.flat images.now }
    ensures fault { Refuses result (first_laid_fault (given meaning.now.source meaning.now.flat meaning.now.settled images.now)) }
    ensures laid { IfOk result (IsLaid meaning.now.source meaning.now.flat meaning.now.settled images.now) }
{
    if let Some(fault) = first_space_fault(alloc, &meaning.flat, images)? {
        return Err(Refused::Fault(fault));
    }
    let wiring = Wiring::new(alloc, &meaning.source, &meaning.flat, &meaning.settled)?;
    lay_wired(alloc, &wiring, images)
}
