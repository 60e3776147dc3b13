//! Runs in memory: of the words of `camkes`, and of those of `camkes_view`.

ghost use Rattle.cam_io.specs.MemOutputs.{sink_of};
ghost use Rattle.std.specs.Prelude.{◌≡◌, ℕ, false};

use crate::case::{NamedText, Program, Run};
use cam_base::Made;
use cam_io::{MemFiles, MemOutputs};
use camkes_tool::run;
use std::alloc::Global;
use view_tool::decide;

/// The room of each channel in bytes.
const ROOM: usize = 4_194_304;

/// What a run did.
#[derive(Drop)]
pub struct Done {
    pub status: u8,
    pub out: MemOutputs,
}

/// The files of a case, of which the read of this number fails.
fn files_of(alloc: Global, files: &[NamedText], failing: u64) -> Made<MemFiles> {
    let mut held = MemFiles::new(alloc);
    for file in files {
        held.add(file.name.as_str(), file.bytes.as_slice())?;
    }
    held.fail_at(failing)?;
    Ok(held)
}

/// Does what `main` of `camkes_view` does with these words.
fn show(alloc: Global, words: &[String], files: &mut MemFiles, out: &mut MemOutputs) -> u8 {
    let answer = decide(alloc, words, files);
    match answer.write(out) {
        Ok(()) => answer.status(),
        Err(_) => 5,
    }
}

/// Makes the run over these files. Calls that fail are counted from 1; 0 stands for none.
pub fn perform(
    alloc: Global,
    wanted: &Run,
    files: &[NamedText],
    failing_read: u64,
    failing_write: u64,
) -> Made<Done> {
    let mut files = files_of(alloc, files, failing_read)?;
    let mut out = MemOutputs::new(alloc, ROOM)?;
    out.fail_at(failing_write)?;
    let words = wanted.words.as_slice();
    let status = match wanted.program {
        Program::Camkes => run(alloc, words, &mut files, &mut out),
        Program::View => show(alloc, words, &mut files, &mut out),
    };
    Ok(Done { status, out })
}
