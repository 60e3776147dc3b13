//! The public calls that the compiler passes by, each made with ample memory over a small system, and what they answer.
//!
//! The compiler has ways of its own where a call would do again what is done already: it lexes into the memory of the file
//! before, reads parts of a file within the whole, looks names up without tables, and makes one program for types, hierarchy
//! and settings. So nothing else would see that these calls answer anything but want of memory: `lex`, `keywords` and `find`,
//! `count`, `parse_value`, `parse_composition`, `parse_configuration`, `parse_assembly`, `resolve`, `check_types`, `flatten`,
//! `settle`, `is_prefix`, `same_end`, `lay_caps`, `lay_spaces`, `applied`. The edges of `direct` are counted besides. Every other
//! public call is made by the program, in `camkes_tests`, or by the program of rows.
//!
//! Then commands of `camkes` over files and outputs of the host, with what they print and the files that they write: rows have
//! theirs in memory.
#![tactic(auto)]

mod host;
mod layout;
mod machine;
mod parts;
mod refused;
mod source;
mod tokens;

use cam_io::HostFiles;
use std::process::ExitCode;
use std::{fs, io};

fn main(rt: HostRuntime) -> io::Result<ExitCode> {
    let text = fs::read_to_string(&rt, "app.camkes")?;
    tokens::show_file(&rt, text.as_str().as_bytes())?;
    tokens::show_keywords(&rt)?;
    parts::show_brackets(&rt)?;
    parts::show_parts(&rt)?;
    let mut files = HostFiles::new(rt.clone()?);
    source::show_source(&rt, &mut files)?;
    layout::show_layout(&rt, &mut files)?;
    machine::show_build(&rt, &mut files)?;
    host::show_runs(&rt)?;
    Ok(ExitCode::from(0))
}
