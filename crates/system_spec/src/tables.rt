ghost use Rattle.std.specs.Prelude.{◌≡◌};
ghost use Rattle.system_spec.specs.Tables.{component_name, device_place, irq_owner, frame_owner, leaf_entry, leaf_name, pages_at};
ghost use Rattle.system_spec.specs.Tables.{priority, threads_at, uses_at, windows_at, told};

use adl_ast::{Item, Source};
use adl_meaning::{Connector, Flat, FlatConnection, FlatEnd, ItemAt, Settled};
use arch_policy::{LabelNumbers, Owner};
use conn_rules::EndRule;
use cspace_layout::{SlotUse, Slots};
use source_images::Images;
use vspace_layout::{Owner as FrameOwner, Page, Spaces, ThreadPlace, Window};

/// What the objects of a system are made from: the source, its flat, settled system, the images of its programs, the slots
/// of its domains, its spaces, and the numbers of its labels.
#[derive(Clone, Copy)]
pub struct Tables<'a> {
    pub source: &'a Source,
    pub flat: &'a Flat,
    pub settled: &'a Settled,
    pub images: &'a Images,
    pub slots: &'a Slots,
    pub spaces: &'a Spaces,
    pub numbers: &'a LabelNumbers,
}

/// What the slots of a domain are for. Takes no memory.
pub fn uses_at<'a>(tables: &'a Tables<'_>, domain: u32) -> &'a [SlotUse]
    ensures { result.now ≡ uses_at (told tables.now) domain }
{
    match tables.slots.domains.as_slice().get(domain as usize) {
        Some(plan) => plan.uses.as_slice(),
        None => &[],
    }
}

/// The pages of a domain. Takes no memory.
pub fn pages_at<'a>(tables: &'a Tables<'_>, domain: u32) -> &'a [Page]
    ensures { result.now ≡ pages_at (told tables.now) domain }
{
    match tables.spaces.spaces.as_slice().get(domain as usize) {
        Some(space) => space.pages.as_slice(),
        None => &[],
    }
}

/// The threads of a domain. Takes no memory.
pub fn threads_at<'a>(tables: &'a Tables<'_>, domain: u32) -> &'a [ThreadPlace]
    ensures { result.now ≡ threads_at (told tables.now) domain }
{
    match tables.spaces.spaces.as_slice().get(domain as usize) {
        Some(space) => space.threads.as_slice(),
        None => &[],
    }
}

/// The windows of a domain. Takes no memory.
pub fn windows_at<'a>(tables: &'a Tables<'_>, domain: u32) -> &'a [Window]
    ensures { result.now ≡ windows_at (told tables.now) domain }
{
    match tables.spaces.spaces.as_slice().get(domain as usize) {
        Some(space) => space.windows.as_slice(),
        None => &[],
    }
}

/// The place of the first end at which the connector table has a device. Takes no memory.
pub fn device_place(connector: Connector, ends: &[FlatEnd]) -> Option<usize>
    ensures { result ≡ device_place connector ends.now }
{
    ends.iter()
        .position(|end| EndRule::of(connector, end.role).hardware)
}

/// Whose the interrupt of the connection of this number is. Takes no memory.
pub fn irq_owner(number: u32, connection: &FlatConnection) -> Owner
    ensures { result ≡ irq_owner number connection.now }
{
    let ends = connection.ends.as_slice();
    let Some(place) = device_place(connection.connector, ends) else {
        return Owner::OfConnection(number);
    };
    match ends.get(place) {
        Some(end) => Owner::OfLeaf(end.leaf),
        None => Owner::OfConnection(number),
    }
}

/// Whose a frame is. Takes no memory.
pub fn frame_owner(owner: FrameOwner) -> Owner
    ensures { result ≡ frame_owner owner }
{
    match owner {
        FrameOwner::OfDomain(domain) => Owner::OfDomain(domain),
        FrameOwner::OfConnection(connection) => Owner::OfConnection(connection),
        FrameOwner::OfLeaf(leaf) => Owner::OfLeaf(leaf),
    }
}

fn component_name(source: &Source, at: ItemAt) -> &[u8]
    ensures { result.now ≡ component_name source.now at }
{
    let Some(file) = source.files.as_slice().get(at.file as usize) else {
        return b"";
    };
    let Some(ended) = file.tree.items.as_slice().get(at.item as usize) else {
        return b"";
    };
    match &ended.item {
        Item::Component(component) => component.id.name.as_bytes(),
        _ => b"",
    }
}

/// The name of a leaf's component. Takes no memory.
pub fn leaf_name<'a>(tables: &'a Tables<'_>, leaf: u32) -> &'a [u8]
    ensures { result.now ≡ leaf_name (told tables.now) leaf }
{
    match tables.flat.leaves.as_slice().get(leaf as usize) {
        Some(found) => component_name(tables.source, found.component),
        None => b"",
    }
}

/// The priority of a leaf. Takes no memory.
pub fn priority(tables: &Tables<'_>, leaf: u32) -> u64
    ensures { result ≡ priority (told tables.now) leaf }
{
    match tables.settled.leaves.as_slice().get(leaf as usize) {
        Some(setting) => setting.priority as u64,
        None => 0,
    }
}

/// Where the program of a leaf begins. Takes no memory.
pub fn leaf_entry(tables: &Tables<'_>, leaf: u32) -> u64
    ensures { result ≡ leaf_entry (told tables.now) leaf }
{
    let Some(number) = tables.images.number_of(leaf) else {
        return 0;
    };
    match tables.images.images.as_slice().get(number as usize) {
        Some(image) => image.entry,
        None => 0,
    }
}
