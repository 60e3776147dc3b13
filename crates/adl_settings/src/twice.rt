//! Numbers that stand twice: those of devices' interrupts, and the badges of the ends of one connection.

ghost use Rattle.adl_meaning.specs.Prelude.{filter_map, noted};
ghost use Rattle.std.specs.Prelude.{IfOk, OnOk, map, ℕ, ◌++◌, ◌≡◌};
ghost use Rattle.adl_settings.specs.BadgeTwice.{badges_twice_in, last_in, own_badge};
ghost use Rattle.adl_settings.specs.IrqTwice.{irq_at, irqs_in, irqs_twice};
ghost use Rattle.adl_settings.specs.Repeated.{is_marked, is_repeated};

use crate::Found;
use adl_meaning::Earliest;
use cam_base::{Code, Made, Path, Place};
use indexmap::IndexMap;
use std::alloc::Global;

/// Whether each of the numbers stands twice or more; nothing is marked where there is one number at most.
fn repeated(alloc: Global, numbers: &[u64]) -> Made<IndexMap<u64, bool>>
    ensures { IfOk result (λ t. (n : ℕ) → is_marked t.entries n ≡ is_repeated numbers.now n) }
{
    if numbers.len() < 2 {
        return Ok(IndexMap::new(alloc));
    }
    let mut twice = IndexMap::with_capacity(alloc, numbers.len())?;
    for number in numbers {
        let is_met = twice.contains_key(number);
        twice.insert(*number, is_met)?;
    }
    Ok(twice)
}

#[tactic(auto, unfolding(crate::specs::Repeated::is_marked))]
fn is_marked(twice: &IndexMap<u64, bool>, number: u64) -> bool
    ensures { result ≡ is_marked twice.now.entries number }
{
    twice.get(&number).copied().unwrap_or(false)
}

/// The interrupt of a device, with the place of the literal that gives its number.
#[derive(Drop)]
pub struct Irq {
    pub number: u64,
    pub place: Place,
}

fn irq_at(end: &Found<'_>) -> Option<Irq>
    ensures { result ≡ irq_at end.now }
{
    let number = end.irq()?;
    let place = end.irq.as_ref()?.value.place;
    Some(Irq { number, place })
}

/// Adds the interrupts of devices at the ends of a connection.
pub fn add_irqs(ends: &[Found<'_>], irqs: &mut Vec<Irq>) -> Made<()>
    ensures { OnOk result (irqs.new.items ≡ irqs.old.items ++ irqs_in ends.now) }
{
    for end in ends {
        if let Some(irq) = irq_at(end) {
            irqs.push(irq)?;
        }
    }
    Ok(())
}

fn repeated_irqs(alloc: Global, irqs: &[Irq]) -> Made<IndexMap<u64, bool>>
    ensures { IfOk result (λ t. (n : ℕ) → is_marked t.entries n ≡ is_repeated (map (λ a. a.number) irqs.now) n) }
{
    let numbers: Vec<u64> = irqs.iter().map(|irq| irq.number).collect(alloc)?;
    repeated(alloc, numbers.as_slice())
}

/// Notes the interrupts that have the number of another.
pub fn note_irqs_twice(alloc: Global, irqs: &[Irq], first: &mut Earliest<'_>) -> Made<()>
    ensures { OnOk result (first.new ≡ noted first.old (irqs_twice irqs.now)) }
{
    let twice = repeated_irqs(alloc, irqs)?;
    for irq in irqs {
        let is_twice = is_marked(&twice, irq.number);
        first.note(is_twice, Code::IrqTwice, irq.place, b"");
    }
    Ok(())
}

fn last_in(path: &Path) -> &[u8]
    ensures { result.now ≡ last_in path.now }
{
    let last = path.names().last();
    last.map_or(b"".as_slice(), |name| name.as_bytes())
}

/// The badge of an end that has one.
fn own_badge(end: &Found<'_>) -> Option<u64>
    ensures { result ≡ own_badge end.now }
{
    let has_badge = end.joint.has_badge();
    end.badge().filter(|_| has_badge)
}

fn own_badges(alloc: Global, ends: &[Found<'_>]) -> Made<Vec<u64>>
    ensures { IfOk result (λ v. v.items ≡ filter_map own_badge ends.now) }
{
    Ok(ends.iter().filter_map(own_badge).collect(alloc)?)
}

/// Notes the ends of a connection that have the badge of another.
#[tactic(auto, using(crate::proofs::FewBadges::few_badges))]
pub fn note_badges_twice<'a>(
    alloc: Global,
    ends: &[Found<'a>],
    first: &mut Earliest<'a>,
) -> Made<()>
    ensures { OnOk result (first.new ≡ noted first.old (badges_twice_in ends.now)) }
{
    if ends.len() < 2 {
        return Ok(());
    }
    let badges = own_badges(alloc, ends)?;
    let twice = repeated(alloc, badges.as_slice())?;
    for end in ends {
        if let Some(badge) = own_badge(end) {
            let (place, name) = (end.joint.end.place, last_in(&end.joint.connection.path));
            first.note(is_marked(&twice, badge), Code::BadgeTwice, place, name);
        }
    }
    Ok(())
}
