ghost use Rattle.authorities.specs.Authorities.{authorities};
ghost use Rattle.cap_model.specs.Edges.{edge};
ghost use Rattle.cap_model.specs.Tables.{has};
ghost use Rattle.cam_base.specs.Gather.{gather};
ghost use Rattle.std.specs.List.{flat_map};
ghost use Rattle.std.specs.Prelude.{◌≡◌, ◌++◌, IfOk, OnOk, find};
ghost use Rattle.view_text.specs.Pictures.{arrow_of, both_drawn, held_line, held_lines, is_first, node_of, pair_line, picture_of, shape_at, shaped_line};

use crate::Label;
use crate::graph::quoted;
use crate::shape::{Shape, shape_at};
use crate::texts::add;
use cam_base::{List, Made};
use cap_model::{Authority, Edge, EdgeTable, Policy};
use itoa::Buffer;
use std::alloc::Global;

/// All authorities, by number.
const AUTHORITIES: [Authority; 12] = [
    Authority::Receive,
    Authority::SyncSend,
    Authority::AsyncSend,
    Authority::Reset,
    Authority::Grant,
    Authority::Read,
    Authority::Write,
    Authority::Control,
    Authority::Call,
    Authority::Reply,
    Authority::GrantBack,
    Authority::Handle,
];

fn add_shaped(alloc: Global, text: &mut List<u8>, shape: Shape, label: &Label) -> Made<()>
    ensures { OnOk result (text.new ≡ text.old ++ shaped_line shape label.now) }
{
    let (number, name) = label;
    let name = quoted(alloc, name.as_bytes())?;
    let mut digits = Buffer::new();
    let number = digits.format(*number).as_bytes();
    add(
        text,
        &[
            number,
            b" [label=\"",
            name.as_slice(),
            b"\"",
            shape.style(),
            b"];\n",
        ],
    )
}

fn add_node(alloc: Global, text: &mut List<u8>, shape: Shape, label: &Label) -> Made<()>
    ensures { OnOk result (text.new ≡ text.old ++ node_of shape label.now) }
{
    if shape.is_drawn() {
        add_shaped(alloc, text, shape, label)
    } else {
        Ok(())
    }
}

fn add_nodes(alloc: Global, text: &mut List<u8>, labels: &[Label], shapes: &[Shape]) -> Made<()>
    ensures { OnOk result (text.new ≡ text.old ++ flat_map (λ l. node_of (shape_at shapes.now l.0) l) labels.now) }
{
    for label in labels {
        add_node(alloc, text, shape_at(shapes, label.0), label)?;
    }
    Ok(())
}

fn has_edge(edges: &EdgeTable, from: u32, authority: Authority, to: u32) -> bool
    ensures { result ≡ has edges.now (edge from authority to) }
{
    edges.contains(&Edge {
        from,
        authority,
        to,
    })
}

fn add_held_line(
    text: &mut List<u8>,
    edges: &EdgeTable,
    from: u32,
    to: u32,
    authority: Authority,
) -> Made<()>
    ensures { OnOk result (text.new ≡ text.old ++ held_line edges.now from to authority) }
{
    if has_edge(edges, from, authority, to) {
        text.extend(authority.text().as_bytes())?;
        text.extend(b"\\l")?;
    }
    Ok(())
}

fn add_held_lines(
    text: &mut List<u8>,
    edges: &EdgeTable,
    from: u32,
    to: u32,
    authorities: &[Authority],
) -> Made<()>
    ensures { OnOk result (text.new ≡ text.old ++ flat_map (held_line edges.now from to) authorities.now) }
{
    for authority in authorities {
        add_held_line(text, edges, from, to, *authority)?;
    }
    Ok(())
}

fn held_lines(alloc: Global, edges: &EdgeTable, from: u32, to: u32) -> Made<List<u8>>
    ensures { IfOk result (λ text. text ≡ held_lines edges.now from to) }
{
    let mut text = List::new(alloc);
    add_held_lines(&mut text, edges, from, to, &AUTHORITIES)?;
    Ok(text)
}

/// The least authority that the one label has over the other.
fn first_held(edges: &EdgeTable, from: u32, to: u32) -> Option<Authority>
    ensures { result ≡ find (λ a. has edges.now (edge from a to)) authorities }
{
    AUTHORITIES
        .iter()
        .copied()
        .find(|authority| has_edge(edges, from, *authority, to))
}

fn is_first(edges: &EdgeTable, edge: &Edge) -> bool
    ensures { result ≡ is_first edges.now edge.now }
{
    match first_held(edges, edge.from, edge.to) {
        Some(authority) => authority.number() == edge.authority.number(),
        None => false,
    }
}

fn add_pair(alloc: Global, text: &mut List<u8>, edges: &EdgeTable, edge: &Edge) -> Made<()>
    ensures { OnOk result (text.new ≡ text.old ++ pair_line edges.now edge.now) }
{
    let held = held_lines(alloc, edges, edge.from, edge.to)?;
    let (mut from, mut to) = (Buffer::new(), Buffer::new());
    let from = from.format(edge.from).as_bytes();
    let to = to.format(edge.to).as_bytes();
    add(
        text,
        &[from, b" -> ", to, b" [label=\"", held.as_slice(), b"\"];\n"],
    )
}

fn both_drawn(shapes: &[Shape], edge: &Edge) -> bool
    ensures { result ≡ both_drawn shapes.now edge.now }
{
    shape_at(shapes, edge.from).is_drawn() && shape_at(shapes, edge.to).is_drawn()
}

fn add_arrow(
    alloc: Global,
    text: &mut List<u8>,
    shapes: &[Shape],
    edges: &EdgeTable,
    edge: &Edge,
) -> Made<()>
    ensures { OnOk result (text.new ≡ text.old ++ arrow_of shapes.now edges.now edge.now) }
{
    if both_drawn(shapes, edge) && is_first(edges, edge) {
        add_pair(alloc, text, edges, edge)
    } else {
        Ok(())
    }
}

fn add_arrows(alloc: Global, text: &mut List<u8>, shapes: &[Shape], edges: &EdgeTable) -> Made<()>
    ensures { OnOk result (text.new ≡ text.old ++ gather (λ at e. arrow_of shapes.now edges.now e) edges.now) }
{
    for edge in edges.iter() {
        add_arrow(alloc, text, shapes, edges, &edge)?;
    }
    Ok(())
}

/// A policy as a picture in Graphviz's language. Labels have the shapes at the places of their numbers.
pub fn picture_of(alloc: Global, policy: &Policy, shapes: &[Shape]) -> Made<List<u8>>
    ensures { IfOk result (λ text. text ≡ picture_of policy.now shapes.now) }
{
    let mut text = List::from_slice(
        alloc,
        b"digraph policy {\nrankdir=LR;\nnode [fontname=\"sans-serif\"];\nedge [fontname=\"sans-serif\", fontsize=11];\n",
    )?;
    add_nodes(alloc, &mut text, policy.labels.as_slice(), shapes)?;
    add_arrows(alloc, &mut text, shapes, &policy.edges)?;
    text.extend(b"}\n")?;
    Ok(text)
}
