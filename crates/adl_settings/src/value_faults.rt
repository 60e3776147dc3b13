//! The faults of values.

ghost use Rattle.adl_meaning.specs.Prelude.{Fault as Wrong, Refuses, noted};
ghost use Rattle.std.specs.Prelude.{List as Seq, OnOk, is_some, ◌++◌, ◌≡◌};
ghost use Rattle.adl_settings.specs.BadValue.{bad_at_end, bad_in_connection, bad_in_leaf};
ghost use Rattle.adl_settings.specs.DeviceOverlap.{overlaps, regions_in};
ghost use Rattle.adl_settings.specs.IrqTwice.{irqs_in, irqs_twice};
ghost use Rattle.adl_settings.specs.Meant.{bad_unless};
ghost use Rattle.adl_settings.specs.Missing.{missing_in};
ghost use Rattle.adl_settings.specs.SettingFaults.{faults_on};

use crate::overlaps::{DeviceRegion, add_regions, note_overlaps};
use crate::twice::{Irq, add_irqs, note_badges_twice, note_irqs_twice};
use crate::{Found, Given, LeafFound};
use adl_meaning::Earliest;
use cam_base::{Code, Fault, Made, Refused};
use std::alloc::Global;

/// Notes the literal of a value that means nothing.
fn note_bad<'a, T: Copy>(meant: Option<T>, given: &Option<Given<'a>>, first: &mut Earliest<'a>)
    ensures { (more : Seq Wrong) → noted first.new more ≡ noted first.old (bad_unless (is_some meant) given.now ++ more) }
{
    if let (Some(given), None) = (given, meant) {
        first.note(true, Code::Value, given.value.place, given.name);
    }
}

#[tactic(auto, using(crate::proofs::Noted::noted_values))]
fn note_bad_end<'a>(end: &Found<'a>, first: &mut Earliest<'a>)
    ensures { (more : Seq Wrong) → noted first.new more ≡ noted first.old (bad_at_end end.now ++ more) }
{
    note_bad(end.access(), &end.access, first);
    note_bad(end.badge(), &end.badge, first);
    note_bad(end.bytes(), &end.size, first);
    note_bad(end.paddr(), &end.paddr, first);
    note_bad(end.irq(), &end.irq, first);
}

/// Notes the values of a leaf that aren't allowed.
#[tactic(auto, using(crate::proofs::Noted::noted_values))]
pub fn note_bad_leaf<'a>(leaf: &LeafFound<'a>, first: &mut Earliest<'a>)
    ensures { (more : Seq Wrong) → noted first.new more ≡ noted first.old (bad_in_leaf leaf.now ++ more) }
{
    note_bad(leaf.priority(), &leaf.priority, first);
    note_bad(leaf.stack(), &leaf.stack, first);
}

/// Notes the values of a connection's ends that aren't allowed.
#[tactic(auto, using(crate::proofs::Noted::noted_values))]
fn note_bad_ends<'a>(ends: &[Found<'a>], first: &mut Earliest<'a>)
    ensures { first.new ≡ noted first.old (bad_in_connection ends.now) }
{
    for end in ends {
        note_bad_end(end, first);
    }
}

/// Notes the interfaces of devices that a connection's ends join and that lack a value.
fn note_missing<'a>(ends: &[Found<'a>], first: &mut Earliest<'a>)
    ensures { first.new ≡ noted first.old (missing_in ends.now) }
{
    for end in ends {
        let (joint, word) = (&end.joint, &end.joint.interface.id);
        let lacks_value = (joint.is_device_memory() && end.paddr.is_none())
            || (joint.is_device_event() && end.irq.is_none());
        let place = word.place();
        first.note(lacks_value, Code::Missing, place, word.name.as_bytes());
    }
}

/// What was judged so far: the first fault, and what is compared with that of all other ends.
#[derive(Drop)]
pub struct Judged<'a> {
    pub first: Earliest<'a>,
    pub regions: Vec<DeviceRegion>,
    pub irqs: Vec<Irq>,
}

impl<'a> Judged<'a> {
    /// Judges the values of a connection's ends.
    #[tactic(auto, using(adl_meaning::proofs::Noting::noting))]
    pub fn add(&mut self, alloc: Global, ends: &[Found<'a>]) -> Made<()>
        ensures first { OnOk result (self.new.first ≡ noted self.old.first (faults_on ends.now)) }
        ensures regions { OnOk result (self.new.regions.items ≡ self.old.regions.items ++ regions_in ends.now) }
        ensures irqs { OnOk result (self.new.irqs.items ≡ self.old.irqs.items ++ irqs_in ends.now) }
    {
        note_bad_ends(ends, &mut self.first);
        note_missing(ends, &mut self.first);
        note_badges_twice(alloc, ends, &mut self.first)?;
        add_regions(ends, &mut self.regions)?;
        add_irqs(ends, &mut self.irqs)
    }

    /// Refuses with the first fault, if there is one.
    ///
    /// # Errors
    ///
    /// The first fault, or want of memory.
    #[tactic(auto, using(adl_meaning::proofs::Noting::noting))]
    pub fn refuse(self, alloc: Global) -> Result<(), Refused<Fault>>
        ensures { Refuses result (noted self.entry.first
            (overlaps self.entry.regions.items ++ irqs_twice self.entry.irqs.items)) }
    {
        let Judged {
            first,
            regions,
            irqs,
        } = self;
        let mut first = first;
        note_overlaps(alloc, regions.as_slice(), &mut first)?;
        note_irqs_twice(alloc, irqs.as_slice(), &mut first)?;
        first.refuse(alloc)
    }
}
