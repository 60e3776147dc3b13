//! The program of rows: it runs each case of the row files that its words name, in memory, and prints what it found.
//!
//! It prints a line for each case and a last line with counts, and ends with status 1 where a case differs from what is
//! wanted. A case has files and runs over them, of `camkes` or of `camkes_view`; `docs/testing.md` says how cases are written.
#![tactic(auto)]

mod bench;
mod block;
mod case;
mod error;
mod pen;
mod reader;
mod verdict;

use cam_base::NoMemory;
use case::Case;
use reader::read_cases;
use std::alloc::Global;
use std::io::ErrorKind;
use std::process::ExitCode;
use std::{env, fs, io};
use verdict::judge;

/// How many cases there were, and how many of them differ from what is wanted.
#[derive(Clone, Copy)]
struct Count {
    cases: u64,
    differ: u64,
}

/// Prints what was found of a case, and answers whether it is as wanted.
fn show(rt: &impl Print, alloc: Global, case: &Case) -> io::Result<bool> {
    let name = case.name.as_str();
    match judge(alloc, case) {
        Err(NoMemory) => Err(io::Error::from(ErrorKind::OutOfMemory)),
        Ok(None) => {
            println!(rt; "{name}: ok")?;
            Ok(true)
        }
        Ok(Some(verdict)) => {
            let number = verdict.number;
            let part = verdict.part;
            let status = verdict.status;
            let text = verdict.text.as_str();
            println!(rt; "{name}: run {number} differs: {part}: status {status}, {text}")?;
            Ok(false)
        }
    }
}

fn show_all(rt: &impl Print, alloc: Global, cases: &[Case], count: Count) -> io::Result<Count> {
    let mut count = count;
    for case in cases {
        count.cases = count.cases.saturating_add(1);
        if !show(rt, alloc, case)? {
            count.differ = count.differ.saturating_add(1);
        }
    }
    Ok(count)
}

/// Runs the cases of a row file; a file that can't be read as rows counts as a case that differs.
fn show_file(rt: &HostRuntime, name: &str, count: Count) -> io::Result<Count> {
    let text = fs::read_to_string(rt, name)?;
    match read_cases(rt.alloc(), text.as_str()) {
        Ok(cases) => show_all(rt, rt.alloc(), cases.as_slice(), count),
        Err(error) => {
            println!(rt; "{name}:{error}")?;
            Ok(Count {
                cases: count.cases,
                differ: count.differ.saturating_add(1),
            })
        }
    }
}

fn main(rt: HostRuntime) -> io::Result<ExitCode> {
    let mut count = Count {
        cases: 0,
        differ: 0,
    };
    for name in env::args(&rt)?.skip(1) {
        count = show_file(&rt, name.as_str(), count)?;
    }
    let Count { cases, differ } = count;
    println!(rt; "{cases} cases, {differ} differ")?;
    Ok(ExitCode::from(if differ == 0 { 0 } else { 1 }))
}
