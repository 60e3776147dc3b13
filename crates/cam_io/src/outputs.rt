ghost use Rattle.cam_io.specs.Causes.{Rose};
ghost use Rattle.cam_io.specs.Sinks.{Sink, IsOpen, appended, with_begun};
ghost use Rattle.std.specs.Prelude.{◌≡◌, ◌<◌, ◌≤◌, ℕ, false, length, take, IfOk, OnOk, OnErr};

use crate::Failed;

/// What is written, unless the outputs fail.
pub type Written = Result<(), Failed>;

/// Numbered channels: 0 standard output, 1 standard error, 2 capDL, 3 policy, 4 certificate, 5 map. The first two are
/// always open, the others once they are begun.
pub trait Outputs {
    /// Which channels are begun, and, where they are told, their names and what each channel holds.
    ghost sink: { Self → Sink };

    /// How often a call has failed.
    ghost faults: { Self → ℕ };

    /// Begins a channel from 2 to 5 under a name. `Failed` only where the count rose; the channel isn't begun then.
    fn begin(&mut self, channel: u8, name: &str) -> Written
        requires low { 2 ≤ channel }
        requires high { channel ≤ 5 }
        requires fresh { (sink self.old).begun channel ≡ false }
        ensures ok { OnOk result (sink self.new ≡ with_begun (sink self.old) channel name.now) }
        ensures err { OnErr result (sink self.new ≡ sink self.old) }
        ensures later { faults self.old ≤ faults self.new }
        ensures failed { OnErr result (Rose (faults self.old) (faults self.new)) };

    /// Writes a front of the piece to an open channel, and answers its length. `Failed` only where the count rose;
    /// nothing is written then.
    fn write(&mut self, channel: u8, piece: &[u8]) -> Result<usize, Failed>
        requires open { IsOpen (sink self.old) channel }
        requires some { 0 < length piece.now }
        ensures some { IfOk result (λ n. 0 < n) }
        ensures at_most { IfOk result (λ n. n ≤ length piece.now) }
        ensures ok { IfOk result (λ n. sink self.new ≡ appended (sink self.old) channel (take n piece.now)) }
        ensures err { OnErr result (sink self.new ≡ sink self.old) }
        ensures later { faults self.old ≤ faults self.new }
        ensures failed { OnErr result (Rose (faults self.old) (faults self.new)) };
}
