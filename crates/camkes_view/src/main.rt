//! What `camkes` says, shown: the program over the host's files and outputs.
//!
//! What is answered to which words, and what is written of it, is `view_tool`'s.
#![tactic(auto)]

use cam_io::{HostFiles, HostOutputs};
use std::io::ErrorKind;
use std::process::ExitCode;
use std::{env, io};
use view_text::read_spot;
use view_tool::{Answer, decide};

fn main(rt: HostRuntime) -> io::Result<ExitCode> {
    let mut files = HostFiles::new(rt.clone()?);
    let mut out = HostOutputs::new(rt.clone()?);
    let answer = match words(&rt) {
        Ok(words) => decide(rt.alloc(), &words, &mut files),
        Err(error) if error.kind() == ErrorKind::OutOfMemory => Answer::NoMemory,
        Err(_) => Answer::Usage,
    };
    match answer.write(&mut out) {
        Ok(()) => Ok(ExitCode::from(answer.status())),
        Err(_) => Ok(ExitCode::from(5)),
    }
}

/// The words behind the program's name; behind `fault` alone stands the line of a fault that standard input has.
fn words(rt: &HostRuntime) -> io::Result<Vec<String>> {
    let mut words = Vec::new(rt.alloc());
    for word in env::args(rt)?.skip(1) {
        push(&mut words, word)?;
    }
    if asks_for_input(&words) {
        push(&mut words, fault_line(rt)?)?;
    }
    Ok(words)
}

fn push(words: &mut Vec<String>, word: String) -> io::Result<()> {
    match words.push(word) {
        Ok(()) => Ok(()),
        Err(_) => Err(io::Error::from(ErrorKind::OutOfMemory)),
    }
}

fn asks_for_input(words: &[String]) -> bool {
    match words {
        [word] => word.as_str() == "fault",
        _ => false,
    }
}

/// The first line of standard input that is a fault's, an empty one where none is.
fn fault_line(rt: &HostRuntime) -> io::Result<String> {
    for line in rt.lines(rt.alloc()) {
        let line = line?;
        if read_spot(line.as_str()).is_some() {
            return Ok(line);
        }
    }
    Ok(String::new(rt.alloc()))
}
