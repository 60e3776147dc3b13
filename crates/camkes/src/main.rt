//! The program: it hands its words, the host's files and the host's outputs to the top call, and ends with its status.
//!
//! Nothing here decides anything but what to say of words that can't be read: words that aren't UTF-8 are no command, and
//! want of memory is status 6.
#![tactic(auto)]

use cam_io::{HostFiles, HostOutputs, write_all};
use camkes_tool::run;
use std::io::ErrorKind;
use std::process::ExitCode;
use std::{env, io};

fn main(rt: HostRuntime) -> io::Result<ExitCode> {
    keep_memory(&rt);
    let mut files = HostFiles::letting_go(rt.clone()?);
    let mut out = HostOutputs::new(rt.clone()?);
    let status = match words(&rt) {
        Ok(words) => run(rt.alloc(), &words, &mut files, &mut out),
        Err(error) if error.kind() == ErrorKind::OutOfMemory => no_memory(&mut out),
        Err(_) => run(rt.alloc(), &[], &mut files, &mut out),
    };
    Ok(ExitCode::from(status))
}

/// Takes 16 MiB and gives them back untouched. From then on the C library keeps what is given back of pieces up to that size, and
/// hands it out again, where it would else ask the system for each large piece anew, page by page.
fn keep_memory(rt: &HostRuntime) {
    let _much: Result<Vec<u8>, _> = Vec::with_capacity(rt.alloc(), 16 << 20);
}

/// The words behind the program's name.
fn words(rt: &HostRuntime) -> io::Result<Vec<String>> {
    let mut words = Vec::new(rt.alloc());
    for word in env::args(rt)?.skip(1) {
        if words.push(word).is_err() {
            return Err(io::Error::from(ErrorKind::OutOfMemory));
        }
    }
    Ok(words)
}

fn no_memory(out: &mut HostOutputs) -> u8 {
    match write_all(out, 1, b"no memory\n") {
        Ok(()) => 6,
        Err(_) => 5,
    }
}
