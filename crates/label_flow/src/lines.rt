//! For each label those that can come to influence it, as lines.

ghost use Rattle.label_flow.specs.Told.{source_line, source_word, AreLines, IsLine};
ghost use Rattle.label_flow.specs.Search.{is_source};
ghost use Rattle.std.specs.List.{flat_map};
ghost use Rattle.std.specs.Prelude.{◌≡◌, ◌++◌, IfOk, OnOk};

use crate::{Sources, Upstream};
use cam_base::{List, Made};
use cap_model::Policy;
use std::alloc::Global;
use view_text::{Label, add, join};

/// The name of a label, where it is a source of another one.
fn add_source(text: &mut List<u8>, sources: &Sources, to: u32, label: &Label) -> Made<()>
    ensures { OnOk result (text.new ≡ text.old ++ source_word (is_source sources.now) to label.now) }
{
    let (number, name) = label;
    if *number != to && sources.has(*number) {
        add(text, &[b" ", name.as_bytes()])
    } else {
        Ok(())
    }
}

fn add_sources(text: &mut List<u8>, sources: &Sources, to: u32, labels: &[Label]) -> Made<()>
    ensures { OnOk result (text.new ≡ text.old ++ flat_map (source_word (is_source sources.now) to) labels.now) }
{
    for label in labels {
        add_source(text, sources, to, label)?;
    }
    Ok(())
}

/// The name of a label, and those of its sources.
fn source_line(alloc: Global, sources: &Sources, labels: &[Label], label: &Label) -> Made<List<u8>>
    ensures { IfOk result (λ line. line ≡ source_line labels.now (is_source sources.now) label.now) }
{
    let (number, name) = label;
    let mut line = join(alloc, &[name.as_bytes(), b":"])?;
    add_sources(&mut line, sources, *number, labels)?;
    line.extend(b"\n")?;
    Ok(line)
}

/// The line of a label.
fn line_of(alloc: Global, upstream: &Upstream, labels: &[Label], label: &Label) -> Made<List<u8>>
    ensures { IfOk result (IsLine upstream.now labels.now label.now) }
{
    let sources = upstream.sources(alloc, label.0)?;
    let line = source_line(alloc, &sources, labels, label)?;
    Ok(line)
}

/// For each label of a policy a line of those that can come to influence it. Takes time for the labels times the edges.
pub fn flows_text(alloc: Global, policy: &Policy) -> Made<List<u8>>
    ensures { IfOk result (AreLines policy.now.edges policy.now.labels policy.now.labels) }
{
    let upstream = Upstream::of(alloc, &policy.edges)?;
    let labels = policy.labels.as_slice();
    let mut text = List::new(alloc);
    for label in labels {
        let line = line_of(alloc, &upstream, labels, label)?;
        text.extend(line.as_slice())?;
    }
    Ok(text)
}
