//! What is shown of a compiled source: the tables of a domain, its page, or its first fault as editors read it.

ghost use Rattle.cam_io.specs.Reading.{InAll, KeepsFiles};
ghost use Rattle.domain_table.specs.Tables.{domain_called, tables_of};
ghost use Rattle.front_end.specs.Steps.{HasMeaning};
ghost use Rattle.std.specs.Prelude.{◌≡◌, ◌<◌, ◌^◌, length};
ghost use Rattle.view_tool.specs.Answers.{Assesses, FitsBuild, RefusesAs, ShowsBuild, Tabled, named, wanted};
ghost use Rattle.view_tool.specs.Words.{Gives};
ghost use Rattle.view_tool.specs.declared.answer.Answer.TheVariants as answers;

use crate::answer::Answer;
use crate::lines::{refuse, refuse_source};
use crate::lint::lint_error;
use crate::page::{Page, page_text};
use crate::reasons::{Grounds, page_notes};
use arch_compile::{Build, compile};
use cam_base::{List, NoMemory, SourceError};
use cam_io::Files;
use domain_table::{domain_called, tables_of};
use std::alloc::Global;
use system_spec::MapNames;

/// What is asked of a compiled source.
#[derive(Clone, Copy)]
pub(crate) enum Asked<'a> {
    /// The tables of the domain with this label.
    Table(&'a str),
    /// Its page.
    Page,
    /// Its first fault.
    Lint,
}

fn tables(alloc: Global, build: &Build, domain: u32, label: &str) -> Answer
    ensures { Gives (answers.Shown (tables_of (named build.now) build.now.map domain label.now)) result }
{
    let names = MapNames {
        source: &build.meaning.source,
        flat: &build.meaning.flat,
        spec: &build.spec,
    };
    Answer::shown(tables_of(
        alloc,
        &names,
        build.map.as_slice(),
        domain,
        label.as_bytes(),
    ))
}

/// The tables of the domain with this label.
fn show_table(alloc: Global, build: &Build, label: &str) -> Answer
    requires { length build.now.meaning.flat.domains < 2 ^ 32 }
    ensures { Tabled build.now label.now (domain_called build.now.meaning.flat label.now) result }
{
    match domain_called(alloc, &build.meaning.flat, label.as_bytes()) {
        Ok(Some(domain)) => tables(alloc, build, domain as u32, label),
        Ok(None) => refuse(alloc, label.as_bytes(), b"no such domain"),
        Err(NoMemory) => Answer::NoMemory,
    }
}

/// The page of a source.
fn show_page(alloc: Global, build: &Build, root: &str) -> Answer
    requires few { length build.now.meaning.flat.domains < 2 ^ 32 }
    requires sound { HasMeaning build.now.meaning.source build.now.meaning.flat build.now.meaning.settled }
    ensures { Assesses root.now build.now result }
{
    let grounds = Grounds {
        source: &build.meaning.source,
        flat: &build.meaning.flat,
        settled: &build.meaning.settled,
        policy: &build.policy,
    };
    match page_notes(alloc, &grounds) {
        Ok(notes) => {
            let page = Page {
                root: root.as_bytes(),
                names: MapNames {
                    source: &build.meaning.source,
                    flat: &build.meaning.flat,
                    spec: &build.spec,
                },
                settled: &build.meaning.settled,
                map: build.map.as_slice(),
                policy: &build.policy,
                notes: notes.as_slice(),
            };
            Answer::shown(page_text(alloc, &page))
        }
        Err(NoMemory) => Answer::NoMemory,
    }
}

fn show(alloc: Global, build: &Build, root: &str, asked: Asked) -> Answer
    requires few { length build.now.meaning.flat.domains < 2 ^ 32 }
    requires sound { HasMeaning build.now.meaning.source build.now.meaning.flat build.now.meaning.settled }
    ensures { ShowsBuild root.now (wanted asked.entry) build.now result }
{
    match asked {
        Asked::Table(label) => show_table(alloc, build, label),
        Asked::Page => show_page(alloc, build, root),
        Asked::Lint => Answer::Shown(List::new(alloc)),
    }
}

fn refuse_build<F: Files>(alloc: Global, files: &mut F, asked: Asked, error: SourceError) -> Answer
    ensures kept { KeepsFiles F.told F.faults files.old files.new }
    ensures fits { InAll (F.told files.new) (λ m. RefusesAs m (F.faults files.old) (F.faults files.new) (wanted asked.entry)
        error result) }
{
    match asked {
        Asked::Lint => lint_error(alloc, files, error),
        Asked::Page => refuse_source(alloc, error),
        Asked::Table(_) => refuse_source(alloc, error),
    }
}

/// What is answered to the root of a source that is to be compiled.
pub(crate) fn view_build<F: Files>(alloc: Global, root: &str, asked: Asked, files: &mut F) -> Answer
    ensures kept { KeepsFiles F.told F.faults files.old files.new }
    ensures fits { InAll (F.told files.new) (λ m. FitsBuild m (F.faults files.old) (F.faults files.new) root.now
        (wanted asked.entry) result) }
{
    match compile(alloc, files, root) {
        Ok(build) => show(alloc, &build, root, asked),
        Err(error) => refuse_build(alloc, files, asked, error),
    }
}
