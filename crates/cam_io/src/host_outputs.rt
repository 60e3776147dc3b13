ghost use Rattle.cam_io.specs.Causes.{Rose, one_more};
ghost use Rattle.cam_io.specs.Host.{begun_by, faults_by, host_sink};
ghost use Rattle.cam_io.specs.Sinks.{IsOpen, appended, with_begun};
ghost use Rattle.std.specs.Prelude.{◌≡◌, ◌<◌, ◌≤◌, ℕ, false, length, take, IfOk, OnOk, OnErr};

use crate::{Failed, Outputs, Written};
use std::fs;
use std::fs::File;
use std::io::Write;

/// The channels of the host: standard output, standard error, and a file for each other channel once it is begun. They
/// tell no names and no bytes, and their count of faults rises at each error.
#[derive(Drop)]
pub struct HostOutputs {
    rt: HostRuntime,
    files: [Option<File>; 6],
    faults: u64,
}

impl HostOutputs {
    /// No channel is begun, and the count is 0.
    pub fn new(rt: HostRuntime) -> HostOutputs
        ensures fresh { (k : ℕ) → (begun_by result).begun k ≡ false }
        ensures faults { faults_by result ≡ 0 }
    {
        HostOutputs {
            rt,
            files: [None, None, None, None, None, None],
            faults: 0,
        }
    }

    fn fault(&mut self) -> Failed
        ensures faults { faults_by self.new ≡ one_more (faults_by self.old) }
        ensures rose { Rose (faults_by self.old) (faults_by self.new) }
        ensures later { faults_by self.old ≤ faults_by self.new }
        ensures files { self.new.files ≡ self.old.files }
    {
        self.faults = self.faults.saturating_add(1);
        Failed
    }
}

/// One write to a channel. A channel that takes nothing is a fault.
fn write_once(
    rt: &HostRuntime,
    files: &[Option<File>],
    channel: u8,
    piece: &[u8],
) -> Result<usize, Failed>
    ensures some { IfOk result (λ n. 0 < n) }
    ensures at_most { IfOk result (λ n. n ≤ length piece.now) }
{
    let written = if channel == 0 {
        rt.stdout().write(piece)
    } else if channel == 1 {
        rt.stderr().write(piece)
    } else {
        match files.get(channel as usize) {
            Some(Some(file)) => {
                let mut file = file;
                file.write(piece)
            }
            _ => Ok(0),
        }
    };
    match written {
        Ok(0) | Err(_) => Err(Failed),
        Ok(count) => Ok(count),
    }
}

/// Makes a file in the channel's place.
fn begin_file(rt: &HostRuntime, files: &mut [Option<File>], at: usize, name: &str) -> Written
    requires { at < length files.old }
    ensures ok { OnOk result (host_sink files.new ≡ with_begun (host_sink files.old) at name.now) }
    ensures err { OnErr result (files.new ≡ files.old) }
{
    match fs::create(rt, name) {
        Ok(file) => {
            files[at] = Some(file);
            Ok(())
        }
        Err(_) => Err(Failed),
    }
}

impl Outputs for HostOutputs {
    ghost use Rattle.cam_io.specs.Host.{begun_by, faults_by};

    ghost sink = { begun_by };

    ghost faults = { faults_by };

    fn begin(&mut self, channel: u8, name: &str) -> Written
        requires low { 2 ≤ channel }
        requires high { channel ≤ 5 }
        requires fresh { (begun_by self.old).begun channel ≡ false }
        ensures ok { OnOk result (begun_by self.new ≡ with_begun (begun_by self.old) channel name.now) }
        ensures err { OnErr result (begun_by self.new ≡ begun_by self.old) }
        ensures later { faults_by self.old ≤ faults_by self.new }
        ensures failed { OnErr result (Rose (faults_by self.old) (faults_by self.new)) }
        ensures quiet { OnOk result (faults_by self.new ≡ faults_by self.old) }
        ensures counted { OnErr result (faults_by self.new ≡ one_more (faults_by self.old)) }
    {
        match begin_file(&self.rt, &mut self.files, channel as usize, name) {
            Ok(()) => Ok(()),
            Err(Failed) => Err(self.fault()),
        }
    }

    fn write(&mut self, channel: u8, piece: &[u8]) -> Result<usize, Failed>
        requires open { IsOpen (begun_by self.old) channel }
        requires some { 0 < length piece.now }
        ensures some { IfOk result (λ n. 0 < n) }
        ensures at_most { IfOk result (λ n. n ≤ length piece.now) }
        ensures ok { IfOk result (λ n. begun_by self.new ≡ appended (begun_by self.old) channel
            (take n piece.now)) }
        ensures err { OnErr result (begun_by self.new ≡ begun_by self.old) }
        ensures later { faults_by self.old ≤ faults_by self.new }
        ensures failed { OnErr result (Rose (faults_by self.old) (faults_by self.new)) }
        ensures quiet { OnOk result (faults_by self.new ≡ faults_by self.old) }
        ensures counted { OnErr result (faults_by self.new ≡ one_more (faults_by self.old)) }
    {
        match write_once(&self.rt, &self.files, channel, piece) {
            Ok(count) => Ok(count),
            Err(Failed) => Err(self.fault()),
        }
    }
}
