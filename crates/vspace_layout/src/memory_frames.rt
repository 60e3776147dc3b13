//! The frames of the memory of connections, and where they stand.

ghost use Rattle.std.specs.Prelude.{◌≡◌, ◌<◌, ◌≤◌, ◌+◌, ◌*◌, ◌^◌, ◌++◌, length};
ghost use Rattle.std.specs.Prelude.{IfOk, IfSome, OnOk};
ghost use Rattle.vspace_layout.specs.CanLay.{AddressesFit};
ghost use Rattle.vspace_layout.specs.FrameNumbers.{AreFirsts, first_of, firsts_from, memory_firsts, frames_by, places_of};
ghost use Rattle.vspace_layout.specs.FrameNumbers.{first_numbers};
ghost use Rattle.vspace_layout.specs.Frames.{connection_frames, device_frames, register_frames, shared_frames};
ghost use Rattle.vspace_layout.specs.Frames.{memory_part, register_part, shared_part};
ghost use Rattle.vspace_layout.specs.Memory.{memory_paddr, memory_pages};

use crate::memory::{memory_paddr, memory_pages, registers};
use crate::owner::Owner;
use crate::ports::first_numbers;
use crate::spaces::FrameInfo;
use adl_meaning::{Connector, FlatConnection};
use cam_base::{List, Made};
use cspace_layout::Wiring;
use std::alloc::Global;

/// The frames of the memory of all connections, and the number of the first frame of each connection's memory.
#[derive(Drop)]
pub struct MemoryFrames {
    pub frames: List<FrameInfo>,
    pub firsts: Vec<u64>,
}

// ---- shared memory

fn push_pages(number: u32, pages: u64, frames: &mut List<FrameInfo>) -> Made<()>
    ensures { OnOk result (frames.new ≡ frames.old ++ connection_frames number pages) }
{
    for _page in 0..pages {
        frames.push(FrameInfo {
            owner: Owner::OfConnection(number),
            paddr: None,
            fill: None,
        })?;
    }
    Ok(())
}

fn push_shared(
    wiring: &Wiring<'_>,
    number: u32,
    connection: &FlatConnection,
    frames: &mut List<FrameInfo>,
) -> Made<()>
    ensures { OnOk result (frames.new ≡ frames.old ++ shared_frames wiring.now.settled number connection.now) }
{
    match connection.connector {
        Connector::SharedMemory => {
            push_pages(number, memory_pages(wiring, number, connection), frames)
        }
        _ => Ok(()),
    }
}

/// Adds the frames of shared memory, and tells how many stand before those of each connection.
fn push_all_shared(
    alloc: Global,
    wiring: &Wiring<'_>,
    frames: &mut List<FrameInfo>,
) -> Made<Vec<u64>>
    requires { length wiring.now.flat.connections ≤ 4096 }
    ensures frames { OnOk result (frames.new ≡ frames.old ++ shared_part wiring.now.flat wiring.now.settled) }
    ensures places { IfOk result (λ v. v.items
        ≡ places_of (length frames.old) (shared_frames wiring.now.settled) wiring.now.flat.connections) }
{
    let mut places = Vec::with_capacity(alloc, wiring.connections().len())?;
    for (number, connection) in wiring.connections().iter().enumerate() {
        places.push(frames.len() as u64)?;
        push_shared(wiring, number as u32, connection, frames)?;
    }
    Ok(places)
}

// ---- registers

fn push_device_pages(leaf: u32, paddr: u64, pages: u64, frames: &mut List<FrameInfo>) -> Made<()>
    requires { paddr + 4096 * pages ≤ 2 ^ 48 }
    ensures { OnOk result (frames.new ≡ frames.old ++ device_frames leaf paddr pages) }
{
    for page in 0..pages {
        frames.push(FrameInfo {
            owner: Owner::OfLeaf(leaf),
            paddr: Some(paddr + 4096 * page),
            fill: None,
        })?;
    }
    Ok(())
}

/// Adds the frames of a connection's registers, if `first`, the first connection to them, is this one.
fn push_registers(
    wiring: &Wiring<'_>,
    first: Option<u32>,
    number: u32,
    connection: &FlatConnection,
    frames: &mut List<FrameInfo>,
) -> Made<()>
    requires { memory_paddr wiring.now.settled number connection.now
        + 4096 * memory_pages wiring.now.settled number connection.now ≤ 2 ^ 48 }
    ensures { OnOk result (frames.new ≡ frames.old ++ frames_by wiring.now.settled first number connection.now) }
{
    let Some(end) = registers(connection) else {
        return Ok(());
    };
    if first == Some(number) {
        let paddr = memory_paddr(wiring, number, connection);
        let pages = memory_pages(wiring, number, connection);
        push_device_pages(end.leaf, paddr, pages, frames)?;
    }
    Ok(())
}

/// Adds the registers of devices, and tells how many frames stand before those that each connection adds.
fn push_all_registers(
    alloc: Global,
    wiring: &Wiring<'_>,
    firsts: &[Option<u32>],
    frames: &mut List<FrameInfo>,
) -> Made<Vec<u64>>
    requires few { length wiring.now.flat.connections ≤ 4096 }
    requires fit { AddressesFit wiring.now.flat wiring.now.settled }
    requires firsts { firsts.now ≡ first_numbers wiring.now.flat.connections }
    ensures frames { OnOk result (frames.new ≡ frames.old ++ register_part wiring.now.flat wiring.now.settled) }
    ensures places { IfOk result (λ v. v.items
        ≡ places_of (length frames.old) (register_frames wiring.now.flat wiring.now.settled) wiring.now.flat.connections) }
{
    let mut places = Vec::with_capacity(alloc, firsts.len())?;
    for (number, connection) in wiring.connections().iter().enumerate() {
        places.push(frames.len() as u64)?;
        push_registers(wiring, firsts[number], number as u32, connection, frames)?;
    }
    Ok(places)
}

// ---- numbers

/// How many frames of memory stand before those of a connection.
fn first_of(shared: &[u64], registered: &[u64], first: Option<u32>, number: usize) -> u64
    requires shared { number < length shared.now }
    requires registered { IfSome first (λ n. n < length registered.now) }
    ensures { result ≡ first_of shared.now registered.now first number }
{
    match first {
        Some(first) => registered[first as usize],
        None => shared[number],
    }
}

/// The numbers of the first frames, where so many frames stand before all memory.
fn firsts_from(
    alloc: Global,
    own: u64,
    shared: &[u64],
    registered: &[u64],
    numbers: &[Option<u32>],
) -> Made<Vec<u64>>
    requires { AreFirsts own shared.now registered.now numbers.now }
    ensures { IfOk result (λ firsts. firsts.items ≡ firsts_from own shared.now registered.now numbers.now) }
{
    let mut firsts = Vec::with_capacity(alloc, numbers.len())?;
    for (number, first) in numbers.iter().enumerate() {
        firsts.push(own + first_of(shared, registered, *first, number))?;
    }
    Ok(firsts)
}

/// The frames of the memory of all connections, where so many frames stand before them.
pub fn memory_frames(alloc: Global, own: u64, wiring: &Wiring<'_>) -> Made<MemoryFrames>
    requires own { own + length (memory_part wiring.now.flat wiring.now.settled) < 2 ^ 64 }
    requires few { length wiring.now.flat.connections ≤ 4096 }
    requires fit { AddressesFit wiring.now.flat wiring.now.settled }
    ensures frames { IfOk result (λ memory. memory.frames ≡ memory_part wiring.now.flat wiring.now.settled) }
    ensures firsts { IfOk result (λ memory. memory.firsts.items ≡ memory_firsts own wiring.now.flat wiring.now.settled) }
{
    let numbers = first_numbers(alloc, wiring.connections())?;
    let mut frames = List::new(alloc);
    let shared = push_all_shared(alloc, wiring, &mut frames)?;
    let registered = push_all_registers(alloc, wiring, &numbers, &mut frames)?;
    let firsts = firsts_from(alloc, own, &shared, &registered, &numbers)?;
    Ok(MemoryFrames { frames, firsts })
}
