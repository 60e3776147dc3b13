//! Commands over files of the host.

use cam_io::{HostFiles, HostOutputs};
use camkes_tool::run;
use std::{fs, io};

/// Does what each line of the file `runs` says, in turn. A line that begins with `show` names a file to be printed; the words of
/// any other line are a command of `camkes`, which prints what it prints, and its status behind it.
pub fn show_runs(rt: &HostRuntime) -> io::Result<()> {
    let text = fs::read_to_string(rt, "runs")?;
    for line in text.as_str().lines() {
        match line.strip_prefix("show ") {
            Some(name) => show(rt, name)?,
            None => call(rt, line)?,
        }
    }
    Ok(())
}

/// Prints a file of the host under its name.
fn show(rt: &HostRuntime, name: &str) -> io::Result<()> {
    let text = fs::read_to_string(rt, name)?;
    println!(rt; "{name}:")?;
    print!(rt; "{}", text.as_str())
}

/// Runs the program with the words of a line, over files and outputs of the host, and prints its status.
fn call(rt: &HostRuntime, line: &str) -> io::Result<()> {
    let mut words = Vec::new(rt.alloc());
    for word in line.split(' ') {
        words.push(String::from_str(rt.alloc(), word)?)?;
    }
    let mut files = HostFiles::new(rt.clone()?);
    let mut out = HostOutputs::new(rt.clone()?);
    let status = run(rt.alloc(), &words, &mut files, &mut out);
    println!(rt; "status {status}")
}
