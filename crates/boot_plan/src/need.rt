//! What objects need.

ghost use Rattle.boot_plan.specs.Needs.{bits_of, has_few_bits, is_usual, need, needs, page_need, table_bits};
ghost use Rattle.boot_plan.specs.Rooms.{block_bytes};
ghost use Rattle.cap_model.specs.Kept.{IsKept};
ghost use Rattle.std.specs.Prelude.{◌≡◌, true, IfOk};

use cam_base::Made;
use cap_model::{Arch, Level, Object, Spec};
use std::alloc::Global;

/// What an object needs of memory.
#[derive(Clone, Copy, Debug, PartialEq, Eq)]
pub enum Need {
    Nothing,
    /// The page of a device at that address.
    DevicePage(u64),
    /// So many bits, as a power of two, at a multiple of it.
    Block(u8),
}

/// The bits of a page table.
fn table_bits(arch: Arch, level: Level) -> u8
    ensures { result ≡ table_bits arch level }
{
    match (arch, level) {
        (Arch::Aarch64, _) => 12,
        (Arch::Arm11, Level::Table) => 10,
        (Arch::Arm11, _) => 14,
    }
}

fn page_need(paddr: Option<u64>) -> Need
    ensures { result ≡ page_need paddr }
{
    match paddr {
        None => Need::Block(12),
        Some(paddr) => Need::DevicePage(paddr),
    }
}

impl Need {
    /// What an object needs.
    pub fn of(arch: Arch, object: &Object) -> Need
        requires { has_few_bits object.now ≡ true }
        ensures { result ≡ need arch object.now }
    {
        match object {
            Object::Endpoint | Object::Notification => Need::Block(4),
            Object::CNode { bits, .. } => Need::Block(*bits + 4),
            Object::Thread(_) => Need::Block(10),
            Object::Frame { paddr, .. } => page_need(*paddr),
            Object::Pages { level, .. } => Need::Block(table_bits(arch, *level)),
            Object::Irq { .. } => Need::Nothing,
        }
    }

    /// The bits of its block, 12 for a page.
    pub fn bits(self) -> u8
        ensures { result ≡ bits_of self }
    {
        match self {
            Need::Nothing => 0,
            Need::DevicePage(_) => 12,
            Need::Block(bits) => bits,
        }
    }

    /// The bytes of its block, where that has at least so many bits.
    pub fn block_bytes(self, least: u8) -> u64
        requires { is_usual self ≡ true }
        ensures { result ≡ block_bytes least self }
    {
        match self {
            Need::Block(bits) if least <= bits => 1 << bits,
            _ => 0,
        }
    }
}

/// What the objects of a spec need, in their order.
pub fn needs(alloc: Global, spec: &Spec) -> Made<Vec<Need>>
    requires { IsKept spec.now }
    ensures { IfOk result (λ v. v.items ≡ needs spec.now) }
{
    let mut needs = Vec::new(alloc);
    for entry in spec.entries.as_slice() {
        needs.push(Need::of(spec.arch, &entry.object))?;
    }
    Ok(needs)
}
