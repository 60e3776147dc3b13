ghost use Rattle.arrayvec.specs.ArrayVec.{array_vec_len};
ghost use Rattle.cam_base.specs.Texts.{together};
ghost use Rattle.cam_io.specs.Sinks.{IsOpen, is_open};
ghost use Rattle.std.specs.List.{flat_map};
ghost use Rattle.std.specs.Prelude.{◌≡◌, ◌+◌, ◌-◌, ◌^◌, ◌≤◌, IsTrue, [], false, length, map, min};

use crate::{Failed, Outputs, Written, write_all};
use arrayvec::ArrayVec;

/// Outputs and one of their channels, open, to which a text is written piece by piece. Up to 64 KiB of it wait, and go on in
/// few calls; `flush` sends what waits, and what isn't flushed is lost. After a failed call nothing more is written.
#[derive(Drop)]
pub struct Writer<'a, O: Outputs> {
    out: &'a mut O,
    channel: u8,
    waiting: ArrayVec<u8, 65536>,
    failed: bool,
    ghost is_open: { IsTrue (is_open (O.sink out.now) channel) },
}

/// How many bytes pieces have, up to 2^64 - 1.
#[inline(always)]
fn bytes_of(texts: &[&[u8]]) -> usize
    ensures { result ≡ min (length (flat_map (λ t. t.now) texts.now)) (2 ^ 64 - 1) }
{
    let mut count: usize = 0;
    for text in texts {
        count = count.saturating_add(text.len());
    }
    count
}

impl<'a, O: Outputs> Writer<'a, O> {
    ghost use Rattle.cam_io.specs.Saying.{Flushes, Said, Says};

    /// Nothing is written yet.
    #[inline(always)]
    pub fn new(out: &'a mut O, channel: u8) -> Writer<'a, O>
        requires { IsOpen (O.sink out.old) channel }
        ensures same { result.out.ghost_name ≡ out.entry.ghost_name }
        ensures channel { result.channel ≡ channel }
        ensures said { Said (O.sink out.old) [] (O.faults out.old) result }
    {
        Writer {
            out,
            channel,
            waiting: ArrayVec::new(),
            failed: false,
        }
    }

    /// Writes a piece of the text.
    #[inline(always)]
    pub fn text(&mut self, text: &[u8])
        ensures { Says self.old text.now self.new }
    {
        match self.waiting.try_extend_from_slice(text) {
            Ok(()) => {}
            Err(_) => self.text_behind(text),
        }
    }

    /// Writes several pieces, one behind another. Room is looked for once.
    #[inline(always)]
    pub fn texts(&mut self, texts: &[&[u8]])
        ensures { Says self.old (together (map (λ t. t.now) texts.now)) self.new }
    {
        if bytes_of(texts) <= self.waiting.remaining_capacity() {
            self.wait(texts)
        } else {
            self.texts_behind(texts)
        }
    }

    /// Puts pieces for which there is room behind what waits.
    #[inline(always)]
    fn wait(&mut self, texts: &[&[u8]])
        requires { array_vec_len self.old.waiting + length (flat_map (λ t. t.now) texts.now) ≤ 65536 }
        ensures { Says self.old (together (map (λ t. t.now) texts.now)) self.new }
    {
        for text in texts {
            match self.waiting.try_extend_from_slice(text) {
                Ok(()) => {}
                Err(_) => unreachable!(),
            }
        }
    }

    /// Writes several pieces for which there may be no room.
    #[cold]
    #[inline(never)]
    fn texts_behind(&mut self, texts: &[&[u8]])
        ensures { Says self.old (together (map (λ t. t.now) texts.now)) self.new }
    {
        for text in texts {
            self.text(text);
        }
    }

    /// Sends what waits, so that there is room for a piece, which is written through where it is longer than that.
    #[cold]
    #[inline(never)]
    fn text_behind(&mut self, text: &[u8])
        ensures { Says self.old text.now self.new }
    {
        match self.flush() {
            Ok(()) => self.text_alone(text),
            Err(Failed) => {}
        }
    }

    /// Writes a piece where nothing waits.
    fn text_alone(&mut self, text: &[u8])
        requires going { self.old.failed ≡ false }
        requires none { self.old.waiting.items ≡ [] }
        ensures { Says self.old text.now self.new }
    {
        match self.waiting.try_extend_from_slice(text) {
            Ok(()) => {}
            Err(_) => self.failed = write_all(self.out, self.channel, text).is_err(),
        }
    }

    /// Sends what waits. `Failed` where a call has failed.
    pub fn flush(&mut self) -> Written
        ensures { Flushes self.old result self.new }
    {
        if self.failed {
            return Err(Failed);
        }
        let sent = write_all(self.out, self.channel, self.waiting.as_slice());
        self.failed = sent.is_err();
        self.waiting.clear();
        sent
    }
}
