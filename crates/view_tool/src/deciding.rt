//! What the words ask for.

ghost use Rattle.cam_io.specs.Reading.{InAll, KeepsFiles};
ghost use Rattle.view_tool.specs.Answers.{Fits, FitsFlow, FitsWord, FitsWords, OfRoot};
ghost use Rattle.std.specs.Prelude.{codes, map, string_bytes};
ghost use Rattle.std.specs.Str.{bytes_eq};

use crate::answer::Answer;
use crate::build::{Asked, view_build};
use crate::fault::view_fault;
use crate::flow::{view_flow, view_flows};
use crate::graph::view_graph;
use crate::source::{Drawing, view_front};
use cam_io::Files;
use std::alloc::Global;

/// What is answered to the words behind the program's name: `specs/Answers.antt`.
pub fn decide<F: Files>(alloc: Global, words: &[String], files: &mut F) -> Answer
    ensures kept { KeepsFiles F.told F.faults files.old files.new }
    ensures fits { InAll (F.told files.new) (λ m. Fits (map string_bytes words.now) m (F.faults files.old) (F.faults files.new)
        result) }
{
    match words {
        [word, what] => follow(alloc, word.as_str(), what.as_str(), files),
        [word, root, label] => {
            follow_both(alloc, word.as_str(), root.as_str(), label.as_str(), files)
        }
        [word, file, from, to] => follow_flow(
            alloc,
            word.as_str(),
            file.as_str(),
            from.as_str(),
            to.as_str(),
            files,
        ),
        _ => Answer::Usage,
    }
}

/// What is answered to a command and the word behind it.
fn follow<F: Files>(alloc: Global, word: &str, what: &str, files: &mut F) -> Answer
    ensures kept { KeepsFiles F.told F.faults files.old files.new }
    ensures fits { InAll (F.told files.new) (λ m. FitsWord (bytes_eq word.now (codes "fault")) (bytes_eq word.now (codes "graph"))
        (bytes_eq word.now (codes "flows")) word.now m (F.faults files.old) (F.faults files.new) what.now result) }
{
    match word {
        "fault" => view_fault(alloc, what, files),
        "graph" => view_graph(alloc, what, files),
        "flows" => view_flows(alloc, what, files),
        _ => follow_root(alloc, word, what, files),
    }
}

/// What is answered to a command and the root of a source.
fn follow_root<F: Files>(alloc: Global, word: &str, root: &str, files: &mut F) -> Answer
    ensures kept { KeepsFiles F.told F.faults files.old files.new }
    ensures fits { InAll (F.told files.new) (λ m. OfRoot word.now m (F.faults files.old) (F.faults files.new) root.now result) }
{
    match word {
        "reasons" => view_front(alloc, root, Drawing::Reasons, files),
        "picture" => view_front(alloc, root, Drawing::Picture, files),
        "overview" => view_front(alloc, root, Drawing::Overview, files),
        "lint" => view_build(alloc, root, Asked::Lint, files),
        "page" => view_build(alloc, root, Asked::Page, files),
        _ => Answer::Usage,
    }
}

/// What is answered to a command and the two words behind it.
fn follow_both<F: Files>(
    alloc: Global,
    word: &str,
    root: &str,
    label: &str,
    files: &mut F,
) -> Answer
    ensures kept { KeepsFiles F.told F.faults files.old files.new }
    ensures fits { InAll (F.told files.new) (λ m. FitsWords (bytes_eq word.now (codes "table")) m (F.faults files.old)
        (F.faults files.new) root.now label.now result) }
{
    match word {
        "table" => view_build(alloc, root, Asked::Table(label), files),
        _ => Answer::Usage,
    }
}

/// What is answered to a command and the three words behind it.
fn follow_flow<F: Files>(
    alloc: Global,
    word: &str,
    file: &str,
    from: &str,
    to: &str,
    files: &mut F,
) -> Answer
    ensures kept { KeepsFiles F.told F.faults files.old files.new }
    ensures fits { InAll (F.told files.new) (λ m. FitsFlow (bytes_eq word.now (codes "flow")) m (F.faults files.old)
        (F.faults files.new) file.now from.now to.now result) }
{
    match word {
        "flow" => view_flow(alloc, file, from, to, files),
        _ => Answer::Usage,
    }
}
