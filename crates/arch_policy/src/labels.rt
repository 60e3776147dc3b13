//! The labels of a system, in order, and their numbers.

ghost use Rattle.arch_policy.specs.Labels.{IsOrdered, comes_before, connection_numbers, device_numbers, domain_numbers, firsts, in_order, label_numbers, label_texts, rank};
ghost use Rattle.arch_policy.specs.Owners.{connection_texts, device_texts, domain_texts, has_label, is_device, texts};
ghost use Rattle.arch_policy.specs.Where.{where_true};
ghost use Rattle.cam_base.specs.Paths.{joined};
ghost use Rattle.cam_base.specs.Gather.{gather};
ghost use Rattle.std.specs.List.{flat_map};
ghost use Rattle.std.specs.Prelude.{◌≡◌, ◌+◌, ◌<◌, ◌^◌, ◌++◌, ◌∷◌, [], true, length, IfOk, IfSome, OnOk};

use crate::LabelNumbers;
use adl_meaning::{Connector, Domain, Flat, FlatConnection, Leaf};
use cam_base::{List, Made, Name, Path, Text};
use std::alloc::Global;
use std::slice::Iter;

/// The texts of all labels, in byte order, and the numbers of labels. The number of a label is its text's place.
#[derive(Drop)]
pub struct Labelling {
    pub texts: List<Text>,
    pub numbers: LabelNumbers,
}

fn has_label(connector: Connector) -> bool
    ensures { result ≡ has_label connector }
{
    match connector {
        Connector::Rpc | Connector::Notification | Connector::SharedMemory | Connector::Interrupt =>
            true,
        Connector::Mmio | Connector::Direct => false,
    }
}

/// Puts the text of a path behind the others, with its place among them, where the path is a label's.
fn push_text(
    alloc: Global,
    is_label: bool,
    path: &Path,
    texts: &mut List<(Text, usize)>,
) -> Made<()>
    ensures { OnOk result (firsts texts.new ≡ firsts texts.old ++ where_true is_label (joined path.now)) }
{
    if is_label {
        let text = path.text(alloc)?;
        let place = texts.len();
        texts.push((text, place))?;
    }
    Ok(())
}

fn push_device(alloc: Global, leaf: &Leaf, texts: &mut List<(Text, usize)>) -> Made<()>
    ensures { OnOk result (firsts texts.new ≡ firsts texts.old ++ where_true (is_device leaf.now.domain) (joined leaf.now.path)) }
{
    push_text(alloc, leaf.domain.is_none(), &leaf.path, texts)
}

fn push_domains(alloc: Global, domains: &[Domain], texts: &mut List<(Text, usize)>) -> Made<()>
    ensures { OnOk result (firsts texts.new ≡ firsts texts.old ++ domain_texts domains.now) }
{
    for domain in domains {
        push_text(alloc, true, &domain.path, texts)?;
    }
    Ok(())
}

fn push_devices(alloc: Global, leaves: &[Leaf], texts: &mut List<(Text, usize)>) -> Made<()>
    ensures { OnOk result (firsts texts.new ≡ firsts texts.old ++ device_texts leaves.now) }
{
    for leaf in leaves {
        push_device(alloc, leaf, texts)?;
    }
    Ok(())
}

fn push_connections(
    alloc: Global,
    connections: &[FlatConnection],
    texts: &mut List<(Text, usize)>,
) -> Made<()>
    ensures { OnOk result (firsts texts.new ≡ firsts texts.old ++ connection_texts connections.now) }
{
    for connection in connections {
        let is_label = has_label(connection.connector);
        push_text(alloc, is_label, &connection.path, texts)?;
    }
    Ok(())
}

/// The texts of all labels, each with its place among them. Devices are few, so no room is taken for theirs.
fn all_texts(alloc: Global, flat: &Flat) -> Made<List<(Text, usize)>>
    ensures { IfOk result (λ found. firsts found ≡ texts flat.now) }
{
    let room = flat.domains.len().saturating_add(flat.connections.len());
    let mut texts = List::from_vec(Vec::with_capacity(alloc, room)?);
    push_domains(alloc, flat.domains.as_slice(), &mut texts)?;
    push_devices(alloc, flat.leaves.as_slice(), &mut texts)?;
    push_connections(alloc, flat.connections.as_slice(), &mut texts)?;
    Ok(texts)
}

/// The texts in byte order, each once, and where the text of each place came to stand before they were each taken once. Texts are
/// often listed in few runs that are in order, so they are sorted by runs.
fn in_order(alloc: Global, texts: List<(Text, usize)>) -> Made<(List<Text>, List<usize>)>
    ensures { IfOk result (λ found. found.0 ≡ in_order (firsts texts)) }
{
    let mut placed = texts.into_vec();
    placed.sort()?;
    let mut places = Vec::from_elem(alloc, 0, placed.len())?;
    let mut ordered = Vec::with_capacity(alloc, placed.len())?;
    for (text, place) in placed {
        if let Some(number) = places.get_mut(place) {
            *number = ordered.len();
        }
        ordered.push(text)?;
    }
    ordered.dedup();
    Ok((List::from_vec(ordered), List::from_vec(places)))
}

fn comes_before(other: &Text, text: &[u8]) -> bool
    ensures { result ≡ comes_before other.now text.now }
{
    other.as_bytes().cmp(text).is_lt()
}

/// How many of the texts, which are in order, come before this one.
fn rank(texts: &[Text], text: &[u8]) -> usize
    requires { IsOrdered texts.now }
    ensures { result ≡ rank texts.now text.now }
{
    texts.partition_point(|other| comes_before(other, text))
}

/// What of the text stands behind this front.
fn behind<'a>(text: &'a [u8], front: &[u8]) -> Option<&'a [u8]>
    ensures { IfSome result (λ rest. text.entry.now ≡ front.now ++ rest.now) }
{
    text.strip_prefix(front)
}

/// Whether the text is that of names, a dot before each.
fn are_dotted(names: &[Name], text: &[u8]) -> bool
    ensures { result ≡ true → text.now ≡ flat_map (λ name. 46 ∷ name) names.now }
{
    let mut left = text;
    for name in names {
        let [dot, more @ ..] = left else {
            return false;
        };
        if *dot != b'.' {
            return false;
        }
        let Some(rest) = behind(more, name.as_bytes()) else {
            return false;
        };
        left = rest;
    }
    left.is_empty()
}

/// Whether the text is that of names, joined by dots.
fn are_joined(names: &[Name], text: &[u8]) -> bool
    ensures { result ≡ true → text.now ≡ joined names.now }
{
    let [first, more @ ..] = names else {
        return text.is_empty();
    };
    match behind(text, first.as_bytes()) {
        Some(rest) => are_dotted(more, rest),
        None => false,
    }
}

/// Whether the text of names stands at a place.
fn stands_at(texts: &[Text], place: usize, names: &[Name]) -> bool
    requires { IsOrdered texts.now }
    ensures { result ≡ true → rank texts.now (joined names.now) ≡ place }
{
    match texts.get(place) {
        Some(other) => are_joined(names, other.as_bytes()),
        None => false,
    }
}

/// How many of the texts, which are in order, come before that of the path, looked for first at a place.
fn path_rank(alloc: Global, texts: &[Text], place: usize, path: &Path) -> Made<usize>
    requires { IsOrdered texts.now }
    ensures { IfOk result (λ n. n ≡ rank texts.now (joined path.now)) }
{
    if stands_at(texts, place, path.names()) {
        return Ok(place);
    }
    let text = path.text(alloc)?;
    Ok(rank(texts, text.as_bytes()))
}

/// Puts the number that the path has behind the others, looked for first at a place.
fn push_number(
    alloc: Global,
    texts: &[Text],
    place: usize,
    path: &Path,
    numbers: &mut List<u32>,
) -> Made<()>
    requires ordered { IsOrdered texts.now }
    requires few { length texts.now < 2 ^ 32 }
    ensures { OnOk result (numbers.new ≡ numbers.old ++ rank texts.now (joined path.now) ∷ []) }
{
    let number = path_rank(alloc, texts, place, path)?;
    numbers.push(number as u32)
}

/// The next of the places, 0 where there is none.
fn next_place(places: &mut Iter<'_, usize>) -> usize {
    places.next().copied().unwrap_or(0)
}

fn domain_numbers(
    alloc: Global,
    texts: &[Text],
    places: &mut Iter<'_, usize>,
    domains: &[Domain],
) -> Made<List<u32>>
    requires ordered { IsOrdered texts.now }
    requires few { length texts.now < 2 ^ 32 }
    ensures { IfOk result (λ numbers. numbers ≡ domain_numbers texts.now domains.now) }
{
    let mut numbers = List::from_vec(Vec::with_capacity(alloc, domains.len())?);
    for domain in domains {
        push_number(alloc, texts, next_place(places), &domain.path, &mut numbers)?;
    }
    Ok(numbers)
}

fn connection_numbers(
    alloc: Global,
    texts: &[Text],
    places: &mut Iter<'_, usize>,
    connections: &[FlatConnection],
) -> Made<List<u32>>
    requires ordered { IsOrdered texts.now }
    requires few { length texts.now < 2 ^ 32 }
    ensures { IfOk result (λ numbers. numbers ≡ connection_numbers texts.now connections.now) }
{
    let mut numbers = List::from_vec(Vec::with_capacity(alloc, connections.len())?);
    for connection in connections {
        let place = if has_label(connection.connector) {
            next_place(places)
        } else {
            0
        };
        push_number(alloc, texts, place, &connection.path, &mut numbers)?;
    }
    Ok(numbers)
}

fn device_numbers(
    alloc: Global,
    texts: &[Text],
    places: &mut Iter<'_, usize>,
    domains: &[u32],
    leaves: &[Leaf],
) -> Made<List<u32>>
    requires ordered { IsOrdered texts.now }
    requires few { length texts.now < 2 ^ 32 }
    ensures { IfOk result (λ numbers. numbers ≡ device_numbers texts.now leaves.now) }
{
    let mut numbers = List::from_vec(Vec::with_capacity(alloc, leaves.len())?);
    for leaf in leaves {
        // At the next place that of a device, and any other where that of its domain stands.
        let place = match leaf.domain {
            None => next_place(places),
            Some(domain) => domains.get(domain as usize).copied().unwrap_or(0) as usize,
        };
        push_number(alloc, texts, place, &leaf.path, &mut numbers)?;
    }
    Ok(numbers)
}

/// The numbers of the labels with these texts, which are looked for first at these places, in the order in which labels are
/// listed.
fn label_numbers(alloc: Global, texts: &[Text], places: &[usize], flat: &Flat) -> Made<LabelNumbers>
    requires are { texts.now ≡ label_texts flat.now }
    requires ordered { IsOrdered texts.now }
    requires few { length texts.now < 2 ^ 32 }
    ensures { IfOk result (λ numbers. numbers ≡ label_numbers flat.now) }
{
    let mut places = places.iter();
    let domains = domain_numbers(alloc, texts, &mut places, flat.domains.as_slice())?;
    let leaves = flat.leaves.as_slice();
    let devices = device_numbers(alloc, texts, &mut places, domains.as_slice(), leaves)?;
    let connections = connection_numbers(alloc, texts, &mut places, flat.connections.as_slice())?;
    Ok(LabelNumbers {
        domains,
        connections,
        devices,
    })
}

/// The labels of a system, numbered from 0 in the byte order of their texts: `specs/Labels.antt`.
///
/// # Errors
///
/// Want of memory.
pub fn labels_of(alloc: Global, flat: &Flat) -> Made<Labelling>
    requires { length flat.now.domains + length flat.now.connections + length flat.now.leaves < 2 ^ 32 }
    ensures texts { IfOk result (λ labels. labels.texts ≡ label_texts flat.now) }
    ensures numbers { IfOk result (λ labels. labels.numbers ≡ label_numbers flat.now) }
{
    let (texts, places) = in_order(alloc, all_texts(alloc, flat)?)?;
    let numbers = label_numbers(alloc, texts.as_slice(), places.as_slice(), flat)?;
    Ok(Labelling { texts, numbers })
}

/// The texts with their numbers.
pub fn label_lines(alloc: Global, texts: List<Text>) -> Made<List<(u32, Text)>>
    requires { length texts < 2 ^ 32 }
    ensures { IfOk result (λ lines. lines ≡ gather (λ n t. (n, t) ∷ []) texts) }
{
    let mut lines = List::from_vec(Vec::with_capacity(alloc, texts.len())?);
    for text in texts.into_vec() {
        let number = lines.len() as u32;
        lines.push((number, text))?;
    }
    Ok(lines)
}
