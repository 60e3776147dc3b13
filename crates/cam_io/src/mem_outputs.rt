ghost use Rattle.cam_io.specs.Causes.{Rose, one_more, next_call};
ghost use Rattle.cam_io.specs.Channels.{blank, name_room};
ghost use Rattle.cam_io.specs.MemOutputs.{sink_of, room_of, channels, mem_sink, mem_faults, mem_bytes, mem_begun, rooms, calls, failing};
ghost use Rattle.cam_io.specs.Sinks.{IsOpen, appended, with_begun};
ghost use Rattle.std.specs.Option.{option_map};
ghost use Rattle.std.specs.Prelude.{◌≡◌, ◌<◌, ◌≤◌, ◌⊎◌, ◌↔◌, ◌∷◌, [], ◌++◌, ◌==◌, ◌-◌, ℕ, false, leb, cond, min, take, length, Contains, IsErr, IsTrue, OnOk, OnErr, IfOk};

use crate::mem_channel::MemChannel;
use crate::{Failed, Outputs, Written};
use cam_base::{List, Made};
use std::alloc::Global;

/// The six channels in memory. Calls of `begin` and `write` are counted together from 1, and one past number 2^64 - 1
/// keeps that number. A call fails exactly where its number was stated, `begin` also at a name of more than 4,096 bytes,
/// and `write` where no room is left.
#[derive(Drop)]
pub struct MemOutputs {
    channels: [MemChannel; 6],
    calls: u64,
    faults: u64,
    failing: List<u64>,
}

/// Takes as many bytes as the channel has room for.
fn take_at(channels: &mut [MemChannel], at: usize, piece: &[u8]) -> usize
    requires { at < length channels.old }
    ensures count { result ≡ min (length piece.now) (room_of channels.old at) }
    ensures taken { sink_of channels.new ≡ appended (sink_of channels.old) at (take result piece.now) }
    ensures room { (k : ℕ) → room_of channels.new k ≡ cond (k == at) (room_of channels.old k - result) (room_of channels.old k) }
{
    let channel = &mut channels[at];
    channel.take(piece)
}

/// Begins a channel, where there is room for the name.
fn begin_at(channels: &mut [MemChannel], at: usize, name: &str) -> bool
    requires { at < length channels.old }
    ensures room { result ≡ leb (length name.now) name_room }
    ensures begun { IsTrue result → sink_of channels.new ≡ with_begun (sink_of channels.old) at name.now }
    ensures refused { result ≡ false → channels.new ≡ channels.old }
    ensures rooms { (k : ℕ) → room_of channels.new k ≡ room_of channels.old k }
{
    let channel = &mut channels[at];
    channel.begin(name)
}

impl MemOutputs {
    /// Six channels that aren't begun and hold nothing, each with room for `room` bytes and a name of 4,096 bytes.
    pub fn new(alloc: Global, room: usize) -> Made<MemOutputs>
        ensures channels { IfOk result (λ o. channels o ≡ blank room ∷ blank room ∷ blank room ∷ blank room ∷ blank room
            ∷ blank room ∷ []) }
        ensures fresh { IfOk result (λ o. (k : ℕ) → (mem_sink o).begun k ≡ false) }
        ensures calls { IfOk result (λ o. calls o ≡ 0) }
        ensures faults { IfOk result (λ o. mem_faults o ≡ 0) }
        ensures failing { IfOk result (λ o. failing o ≡ []) }
    {
        Ok(MemOutputs {
            channels: [
                MemChannel::new(alloc, room)?,
                MemChannel::new(alloc, room)?,
                MemChannel::new(alloc, room)?,
                MemChannel::new(alloc, room)?,
                MemChannel::new(alloc, room)?,
                MemChannel::new(alloc, room)?,
            ],
            calls: 0,
            faults: 0,
            failing: List::new(alloc),
        })
    }

    /// States that the call of this number fails. Refused, it leaves the outputs as they were.
    pub fn fail_at(&mut self, call: u64) -> Made<()>
        ensures ok { OnOk result (failing self.new ≡ failing self.old ++ call ∷ []) }
        ensures err { OnErr result (failing self.new ≡ failing self.old) }
        ensures channels { channels self.new ≡ channels self.old }
        ensures calls { calls self.new ≡ calls self.old }
        ensures faults { mem_faults self.new ≡ mem_faults self.old }
    {
        self.failing.push(call)
    }

    /// What a channel holds; nothing past channel 5.
    pub fn bytes(&self, channel: u8) -> &[u8]
        ensures { result.now ≡ mem_bytes self.now channel }
    {
        match self.channels.get(channel as usize) {
            Some(channel) => channel.bytes(),
            None => &[],
        }
    }

    /// The name that a channel is begun under; none past channel 5.
    pub fn begun(&self, channel: u8) -> Option<&str>
        ensures { option_map (λ s. s.now) result ≡ mem_begun self.now channel }
    {
        match self.channels.get(channel as usize) {
            Some(channel) => channel.begun(),
            None => None,
        }
    }

    /// Counts a call, and answers whether its number was stated.
    fn fails(&mut self) -> bool
        ensures stated { IsTrue result ↔ Contains (failing self.old) (next_call (calls self.old)) }
        ensures calls { calls self.new ≡ next_call (calls self.old) }
        ensures channels { channels self.new ≡ channels self.old }
        ensures faults { mem_faults self.new ≡ mem_faults self.old }
        ensures failing { failing self.new ≡ failing self.old }
    {
        self.calls = self.calls.saturating_add(1);
        self.failing.as_slice().contains(&self.calls)
    }

    /// Counts a fault.
    fn fault(&mut self) -> Failed
        ensures faults { mem_faults self.new ≡ one_more (mem_faults self.old) }
        ensures rose { Rose (mem_faults self.old) (mem_faults self.new) }
        ensures later { mem_faults self.old ≤ mem_faults self.new }
        ensures channels { channels self.new ≡ channels self.old }
        ensures calls { calls self.new ≡ calls self.old }
        ensures failing { failing self.new ≡ failing self.old }
    {
        self.faults = self.faults.saturating_add(1);
        Failed
    }
}

impl Outputs for MemOutputs {
    ghost use Rattle.cam_io.specs.MemOutputs.{mem_sink, mem_faults};

    ghost sink = { mem_sink };

    ghost faults = { mem_faults };

    fn begin(&mut self, channel: u8, name: &str) -> Written
        requires low { 2 ≤ channel }
        requires high { channel ≤ 5 }
        requires fresh { (mem_sink self.old).begun channel ≡ false }
        ensures ok { OnOk result (mem_sink self.new ≡ with_begun (mem_sink self.old) channel name.now) }
        ensures err { OnErr result (mem_sink self.new ≡ mem_sink self.old) }
        ensures later { mem_faults self.old ≤ mem_faults self.new }
        ensures failed { OnErr result (Rose (mem_faults self.old) (mem_faults self.new)) }
        ensures exactly { IsErr result
            ↔ (Contains (failing self.old) (next_call (calls self.old)) ⊎ (name_room < length name.now)) }
        ensures rooms { (k : ℕ) → rooms self.new k ≡ rooms self.old k }
        ensures calls { calls self.new ≡ next_call (calls self.old) }
        ensures failing { failing self.new ≡ failing self.old }
        ensures quiet { OnOk result (mem_faults self.new ≡ mem_faults self.old) }
        ensures counted { OnErr result (mem_faults self.new ≡ one_more (mem_faults self.old)) }
    {
        if self.fails() || !begin_at(&mut self.channels, channel as usize, name) {
            return Err(self.fault());
        }
        Ok(())
    }

    fn write(&mut self, channel: u8, piece: &[u8]) -> Result<usize, Failed>
        requires open { IsOpen (mem_sink self.old) channel }
        requires some { 0 < length piece.now }
        ensures some { IfOk result (λ n. 0 < n) }
        ensures at_most { IfOk result (λ n. n ≤ length piece.now) }
        ensures ok { IfOk result (λ n. mem_sink self.new ≡ appended (mem_sink self.old) channel
            (take n piece.now)) }
        ensures err { OnErr result (mem_sink self.new ≡ mem_sink self.old) }
        ensures later { mem_faults self.old ≤ mem_faults self.new }
        ensures failed { OnErr result (Rose (mem_faults self.old) (mem_faults self.new)) }
        ensures exactly { IsErr result
            ↔ (Contains (failing self.old) (next_call (calls self.old)) ⊎ (rooms self.old channel ≡ 0)) }
        ensures taken { IfOk result (λ n. n ≡ min (length piece.now) (rooms self.old channel)) }
        ensures rooms { IfOk result (λ n. (k : ℕ) → rooms self.new k ≡ cond (k == channel)
            (rooms self.old k - n) (rooms self.old k)) }
        ensures still { OnErr result ((k : ℕ) → rooms self.new k ≡ rooms self.old k) }
        ensures calls { calls self.new ≡ next_call (calls self.old) }
        ensures failing { failing self.new ≡ failing self.old }
        ensures quiet { OnOk result (mem_faults self.new ≡ mem_faults self.old) }
        ensures counted { OnErr result (mem_faults self.new ≡ one_more (mem_faults self.old)) }
    {
        if self.fails() {
            return Err(self.fault());
        }
        let count = take_at(&mut self.channels, channel as usize, piece);
        if count == 0 {
            return Err(self.fault());
        }
        Ok(count)
    }
}
