//! The shapes of a source's labels.

ghost use Rattle.view_tool.specs.Shapes.{device_labels, differ, domain_at, has_other, is_domain, is_named, kept_as, overview, partners, shape_of, shapes_by, shapes_of};
ghost use Rattle.std.specs.Prelude.{◌≡◌, ◌++◌, [], IfOk, OnOk};

use adl_meaning::Flat;
use cam_base::{List, Made, Text};
use cap_model::EdgeTable;
use domain_table::domain_labels;
use std::alloc::Global;
use view_text::{Label, Shape, shape_at};

fn device_labels(alloc: Global, flat: &Flat) -> Made<List<Text>>
    ensures { IfOk result (λ texts. texts ≡ device_labels flat.now) }
{
    let mut texts = List::new(alloc);
    for leaf in flat.leaves.as_slice() {
        if leaf.domain.is_none() {
            texts.push(leaf.path.text(alloc)?)?;
        }
    }
    Ok(texts)
}

fn is_named(names: &[Text], name: &[u8]) -> bool
    ensures { result ≡ is_named names.now name.now }
{
    names.iter().any(|text| text.as_bytes() == name)
}

fn shape_of(domains: &[Text], devices: &[Text], name: &[u8]) -> Shape
    ensures { result ≡ shape_of domains.now devices.now name.now }
{
    if is_named(domains, name) {
        Shape::Domain
    } else if is_named(devices, name) {
        Shape::Device
    } else {
        Shape::Connection
    }
}

fn shapes_by(
    alloc: Global,
    domains: &[Text],
    devices: &[Text],
    labels: &[Label],
) -> Made<List<Shape>>
    ensures { IfOk result (λ shapes. shapes ≡ shapes_by domains.now devices.now labels.now) }
{
    let mut shapes = List::new(alloc);
    for label in labels {
        shapes.push(shape_of(domains, devices, label.1.as_bytes()))?;
    }
    Ok(shapes)
}

/// The shape of each label.
pub(crate) fn shapes_of(alloc: Global, flat: &Flat, labels: &[Label]) -> Made<List<Shape>>
    ensures { IfOk result (λ shapes. shapes ≡ shapes_of flat.now labels.now) }
{
    let domains = domain_labels(alloc, flat)?;
    let devices = device_labels(alloc, flat)?;
    shapes_by(alloc, domains.as_slice(), devices.as_slice(), labels)
}

fn is_domain(shape: Shape) -> bool
    ensures { result ≡ is_domain shape }
{
    matches!(shape, Shape::Domain)
}

fn push_domain(found: &mut List<u32>, shapes: &[Shape], number: u32) -> Made<()>
    ensures { OnOk result (found.new ≡ found.old ++ domain_at shapes.now number) }
{
    if is_domain(shape_at(shapes, number)) {
        found.push(number)?;
    }
    Ok(())
}

fn partners(alloc: Global, shapes: &[Shape], edges: &EdgeTable, label: usize) -> Made<List<u32>>
    ensures { IfOk result (λ found. found ≡ partners shapes.now edges.now label) }
{
    let mut found = List::new(alloc);
    for edge in edges.iter() {
        if edge.from as usize == label {
            push_domain(&mut found, shapes, edge.to)?;
        } else if edge.to as usize == label {
            push_domain(&mut found, shapes, edge.from)?;
        }
    }
    Ok(found)
}

fn has_other(domains: &[u32], first: u32) -> bool
    ensures { result ≡ has_other first domains.now }
{
    domains.iter().any(|domain| *domain != first)
}

fn differ(domains: &[u32]) -> bool
    ensures { result ≡ differ domains.now }
{
    match domains {
        [] => false,
        [first, rest @ ..] => has_other(rest, *first),
    }
}

fn kept_as(
    alloc: Global,
    shapes: &[Shape],
    edges: &EdgeTable,
    label: usize,
    shape: Shape,
) -> Made<Shape>
    ensures { IfOk result (λ kept. kept ≡ kept_as shapes.now edges.now label shape) }
{
    let partners = partners(alloc, shapes, edges, label)?;
    if is_domain(shape) || differ(partners.as_slice()) {
        Ok(shape)
    } else {
        Ok(Shape::LeftOut)
    }
}

/// The same shapes, where what fewer than two domains touch is left out.
pub(crate) fn overview(alloc: Global, shapes: &[Shape], edges: &EdgeTable) -> Made<List<Shape>>
    ensures { IfOk result (λ kept. kept ≡ overview shapes.now edges.now) }
{
    let mut kept = List::new(alloc);
    for (label, shape) in shapes.iter().enumerate() {
        kept.push(kept_as(alloc, shapes, edges, label, *shape)?)?;
    }
    Ok(kept)
}
