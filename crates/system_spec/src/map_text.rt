//! The writer of the map. It takes no memory.

ghost use Rattle.cam_base.specs.Paths.{joined};
ghost use Rattle.cam_io.specs.Saying.{Says};
ghost use Rattle.std.specs.List.{flat_map};
ghost use Rattle.std.specs.Prelude.{◌≡◌, ◌∷◌};
ghost use Rattle.system_spec.specs.MapText.{connection_path, domain_line, domain_path, end_text, leaf_path, line_text, map_text};
ghost use Rattle.system_spec.specs.MapText.{member_name, name_in, named, own_line, slot_line, thread_line, window_line};

use crate::{MapLine, Series};
use adl_ast::{Member, Source};
use adl_meaning::Flat;
use cam_base::{Name, hexadecimal};
use cam_io::{Outputs, Writer};
use cap_model::Spec;
use cspace_layout::{EndAt, end_of, members_at};
use itoa::Buffer;

/// What gives names to what the lines of a map say by number.
#[derive(Clone, Copy)]
pub struct MapNames<'a> {
    pub source: &'a Source,
    pub flat: &'a Flat,
    pub spec: &'a Spec,
}

fn domain_path(flat: &Flat, domain: u32) -> &[Name]
    ensures { result.now ≡ domain_path flat.now domain }
{
    match flat.domains.as_slice().get(domain as usize) {
        Some(found) => found.path.names(),
        None => &[],
    }
}

fn leaf_path(flat: &Flat, leaf: u32) -> &[Name]
    ensures { result.now ≡ leaf_path flat.now leaf }
{
    match flat.leaves.as_slice().get(leaf as usize) {
        Some(found) => found.path.names(),
        None => &[],
    }
}

fn connection_path(flat: &Flat, connection: u32) -> &[Name]
    ensures { result.now ≡ connection_path flat.now connection }
{
    match flat.connections.as_slice().get(connection as usize) {
        Some(found) => found.path.names(),
        None => &[],
    }
}

fn name_in(member: &Member) -> &[u8]
    ensures { result.now ≡ name_in member.now }
{
    match member {
        Member::Interface(interface) => interface.id.name.as_bytes(),
        Member::Lock(lock) => lock.id.name.as_bytes(),
        _ => b"",
    }
}

/// The name of a member of a leaf. Takes no memory.
pub fn member_name<'a>(names: &'a MapNames<'_>, leaf: u32, member: u32) -> &'a [u8]
    ensures { result.now ≡ member_name (named names.now) leaf member }
{
    let Some(leaf) = names.flat.leaves.as_slice().get(leaf as usize) else {
        return b"";
    };
    match members_at(names.source, leaf.component).get(member as usize) {
        Some(found) => name_in(found),
        None => b"",
    }
}

/// Writes names, a dot before each.
fn write_dotted<O: Outputs>(names: &[Name], to: &mut Writer<O>)
    ensures { Says to.old (flat_map (λ name. 46 ∷ name) names.now) to.new }
{
    for name in names {
        to.text(b".");
        to.text(name.as_bytes());
    }
}

/// Writes the names of a path, joined by dots.
fn write_path<O: Outputs>(names: &[Name], to: &mut Writer<O>)
    ensures { Says to.old (joined names.now) to.new }
{
    if let Some((first, rest)) = names.split_first() {
        to.text(first.as_bytes());
        write_dotted(rest, to);
    }
}

fn write_own<O: Outputs>(path: &[Name], name: &[u8], slot: u64, object: &[u8], to: &mut Writer<O>)
    ensures { Says to.old (own_line path.now name.now slot object.now) to.new }
{
    let mut digits = [0; 18];
    let slot = hexadecimal(slot, &mut digits);
    to.text(b"own ");
    write_path(path, to);
    to.texts(&[b" ", name, b" ", slot, b" ", object, b"\n"]);
}

impl MapNames<'_> {
    /// Writes the leaf, the interface and the connection of an end.
    fn write_end<O: Outputs>(&self, connection: u32, end: u32, to: &mut Writer<O>)
        ensures { Says to.old (end_text (named self.now) connection end) to.new }
    {
        if let Some((_, end)) = end_of(self.flat, connection, end) {
            let name = member_name(self, end.leaf, end.member);
            write_path(leaf_path(self.flat, end.leaf), to);
            to.texts(&[b" ", name, b" "]);
            write_path(connection_path(self.flat, connection), to);
        }
    }

    fn write_domain<O: Outputs>(&self, domain: u32, to: &mut Writer<O>)
        ensures { Says to.old (domain_line (named self.now) domain) to.new }
    {
        let mut number = Buffer::new();
        let number = number.format(domain).as_bytes();
        let cnode = Series::CNode.prefix();
        let root = Series::of_root(self.spec.arch).prefix();
        to.text(b"domain ");
        write_path(domain_path(self.flat, domain), to);
        to.texts(&[b" ", cnode, number, b" ", root, number, b"\n"]);
    }

    fn write_thread<O: Outputs>(&self, tcb: u32, leaf: u32, at: Option<EndAt>, to: &mut Writer<O>)
        ensures { Says to.old (thread_line (named self.now) tcb leaf at) to.new }
    {
        let tcb = self.spec.name(tcb);
        to.text(b"thread ");
        match at {
            None => {
                write_path(leaf_path(self.flat, leaf), to);
                to.texts(&[b" control ", tcb, b"\n"]);
            }
            Some(at) => {
                self.write_end(at.connection, at.end, to);
                to.texts(&[b" ", tcb, b"\n"]);
            }
        }
    }

    fn write_slot<O: Outputs>(&self, at: EndAt, slot: u64, object: u32, to: &mut Writer<O>)
        ensures { Says to.old (slot_line (named self.now) at.connection at.end slot object) to.new }
    {
        let mut digits = [0; 18];
        let slot = hexadecimal(slot, &mut digits);
        let object = self.spec.name(object);
        to.text(b"slot ");
        self.write_end(at.connection, at.end, to);
        to.texts(&[b" ", slot, b" ", object, b"\n"]);
    }

    fn write_window<O: Outputs>(&self, at: EndAt, vaddr: u64, bytes: u64, to: &mut Writer<O>)
        ensures { Says to.old (window_line (named self.now) at.connection at.end vaddr bytes) to.new }
    {
        let mut digits = [0; 18];
        let mut number = Buffer::new();
        let vaddr = hexadecimal(vaddr, &mut digits);
        let bytes = number.format(bytes).as_bytes();
        to.text(b"window ");
        self.write_end(at.connection, at.end, to);
        to.texts(&[b" ", vaddr, b" ", bytes, b"\n"]);
    }

    fn write_line<O: Outputs>(&self, line: MapLine, to: &mut Writer<O>)
        ensures { Says to.old (line_text (named self.now) line) to.new }
    {
        match line {
            MapLine::DomainLine(domain) => self.write_domain(domain, to),
            MapLine::ThreadLine { tcb, leaf, end } => self.write_thread(tcb, leaf, end, to),
            MapLine::SlotLine {
                connection,
                end,
                slot,
                object,
            } => self.write_slot(EndAt { connection, end }, slot, object, to),
            MapLine::OwnLine {
                leaf,
                member,
                slot,
                object,
            } => {
                let name = member_name(self, leaf, member);
                let object = self.spec.name(object);
                write_own(leaf_path(self.flat, leaf), name, slot, object, to)
            }
            MapLine::WindowLine {
                connection,
                end,
                vaddr,
                bytes,
            } => self.write_window(EndAt { connection, end }, vaddr, bytes, to),
        }
    }
}

/// Writes the text of a map: `specs/MapText.antt`. What a line names that isn't there is left out.
pub fn write_map<O: Outputs>(names: &MapNames<'_>, lines: &[MapLine], to: &mut Writer<O>)
    ensures { Says to.old (map_text (named names.now) lines.now) to.new }
{
    for line in lines {
        names.write_line(*line, to);
    }
}
