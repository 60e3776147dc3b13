//! The parts of a system, section by section.

ghost use Rattle.cam_base.specs.Gather.{gather};
ghost use Rattle.std.specs.Prelude.{◌≡◌, ◌≤◌, ◌<◌, ◌^◌, ◌++◌, ◌∷◌, [], length, take, IfOk, OnOk};
ghost use Rattle.system_spec.specs.Buildable.{AreFew};
ghost use Rattle.system_spec.specs.Parts.{but_frames, holders, joints, cnodes, tcbs, threads_of, lock, locks, endpoint};
ghost use Rattle.system_spec.specs.Parts.{endpoint_by, endpoints, notification, notification_by, notifications, irq, irq_by};
ghost use Rattle.system_spec.specs.Parts.{irqs, all_tables, frame_part, numbered, table_parts, together};
ghost use Rattle.system_spec.specs.Tables.{told};

use crate::levels::{all_tables, table_parts};
use crate::tables::{Tables, frame_owner, irq_owner, threads_at, uses_at};
use crate::{Owned, Part, Series, What};
use adl_meaning::{Connector, Domain, FlatConnection};
use arch_policy::Owner;
use cam_base::{List, Made};
use cspace_layout::SlotUse;
use std::alloc::Global;
use vspace_layout::{FrameInfo, ThreadPlace};

/// These, numbered from 0.
fn numbered(alloc: Global, series: Series, items: &[Owned]) -> Made<List<Part>>
    requires { length items.now < 2 ^ 32 }
    ensures { IfOk result (λ parts. parts ≡ numbered series items.now) }
{
    let mut parts = List::from_vec(Vec::with_capacity(alloc, items.len())?);
    for (number, item) in items.iter().enumerate() {
        parts.push(Part {
            series,
            number: number as u32,
            owner: item.owner,
            what: item.what,
        })?;
    }
    Ok(parts)
}

/// A CNode for each domain.
fn cnodes(alloc: Global, domains: &[Domain]) -> Made<List<Owned>>
    requires { length domains.now < 2 ^ 32 }
    ensures { IfOk result (λ items. items ≡ cnodes domains.now) }
{
    let mut items = List::new(alloc);
    for number in 0..domains.len() as u32 {
        items.push(Owned {
            owner: Owner::OfDomain(number),
            what: What::CNodeOf(number),
        })?;
    }
    Ok(items)
}

/// Puts the threads of a domain behind the others.
fn push_threads(domain: u32, threads: &[ThreadPlace], items: &mut List<Owned>) -> Made<()>
    requires { length threads.now < 2 ^ 32 }
    ensures { OnOk result (items.new ≡ items.old ++ threads_of domain threads.now) }
{
    for number in 0..threads.len() as u32 {
        items.push(Owned {
            owner: Owner::OfDomain(domain),
            what: What::ThreadOf(domain, number),
        })?;
    }
    Ok(())
}

/// The threads of all domains.
fn tcbs(alloc: Global, tables: &Tables<'_>) -> Made<List<Owned>>
    requires { AreFew (told tables.now) }
    ensures { IfOk result (λ items. items ≡ tcbs (told tables.now)) }
{
    let mut items = List::new(alloc);
    for number in 0..tables.flat.domains.len() as u32 {
        push_threads(number, threads_at(tables, number), &mut items)?;
    }
    Ok(items)
}

fn push_lock(domain: u32, place: u32, used: SlotUse, items: &mut List<Owned>) -> Made<()>
    ensures { OnOk result (items.new ≡ items.old ++ lock domain place used) }
{
    match used {
        SlotUse::OwnLock(_, _) => items.push(Owned {
            owner: Owner::OfDomain(domain),
            what: What::LockOf(domain, place),
        }),
        _ => Ok(()),
    }
}

/// Puts the locks of a domain behind the others.
fn push_locks(domain: u32, uses: &[SlotUse], items: &mut List<Owned>) -> Made<()>
    requires { length uses.now < 2 ^ 32 }
    ensures { OnOk result (items.new ≡ items.old ++ gather (lock domain) uses.now) }
{
    for (place, used) in uses.iter().enumerate() {
        push_lock(domain, place as u32, *used, items)?;
    }
    Ok(())
}

/// The locks of all domains.
fn locks(alloc: Global, tables: &Tables<'_>) -> Made<List<Owned>>
    requires { AreFew (told tables.now) }
    ensures { IfOk result (λ items. items ≡ locks (told tables.now)) }
{
    let mut items = List::new(alloc);
    for number in 0..tables.flat.domains.len() as u32 {
        push_locks(number, uses_at(tables, number), &mut items)?;
    }
    Ok(items)
}

fn push_endpoint(connection: u32, connector: Connector, parts: &mut List<Part>) -> Made<()>
    ensures { OnOk result (parts.new ≡ parts.old ++ endpoint_by connection connector) }
{
    match connector {
        Connector::Rpc => parts.push(Part {
            series: Series::Ep,
            number: connection,
            owner: Owner::OfConnection(connection),
            what: What::EndpointOf(connection),
        }),
        _ => Ok(()),
    }
}

/// The endpoints of all connections.
fn endpoints(alloc: Global, connections: &[FlatConnection]) -> Made<List<Part>>
    requires { length connections.now < 2 ^ 32 }
    ensures { IfOk result (λ parts. parts ≡ gather endpoint connections.now) }
{
    let mut parts = List::new(alloc);
    for (number, connection) in connections.iter().enumerate() {
        push_endpoint(number as u32, connection.connector, &mut parts)?;
    }
    Ok(parts)
}

fn push_notification(connection: u32, connector: Connector, parts: &mut List<Part>) -> Made<()>
    ensures { OnOk result (parts.new ≡ parts.old ++ notification_by connection connector) }
{
    match connector {
        Connector::Notification | Connector::Interrupt => parts.push(Part {
            series: Series::Ntfn,
            number: connection,
            owner: Owner::OfConnection(connection),
            what: What::NotificationOf(connection),
        }),
        _ => Ok(()),
    }
}

/// The notifications of all connections.
fn notifications(alloc: Global, connections: &[FlatConnection]) -> Made<List<Part>>
    requires { length connections.now < 2 ^ 32 }
    ensures { IfOk result (λ parts. parts ≡ gather notification connections.now) }
{
    let mut parts = List::new(alloc);
    for (number, connection) in connections.iter().enumerate() {
        push_notification(number as u32, connection.connector, &mut parts)?;
    }
    Ok(parts)
}

fn push_irq(number: u32, connection: &FlatConnection, items: &mut List<Owned>) -> Made<()>
    ensures { OnOk result (items.new ≡ items.old ++ irq number connection.now) }
{
    match connection.connector {
        Connector::Interrupt => items.push(Owned {
            owner: irq_owner(number, connection),
            what: What::IrqOf(number),
        }),
        _ => Ok(()),
    }
}

/// The interrupts of all connections.
fn irqs(alloc: Global, connections: &[FlatConnection]) -> Made<List<Owned>>
    requires { length connections.now < 2 ^ 32 }
    ensures { IfOk result (λ items. items ≡ gather irq connections.now) }
{
    let mut items = List::new(alloc);
    for (number, connection) in connections.iter().enumerate() {
        push_irq(number as u32, connection, &mut items)?;
    }
    Ok(items)
}

/// Frame `number`.
pub fn frame_part(number: u32, frame: &FrameInfo) -> Part
    ensures { result ≡ frame_part number frame.now }
{
    Part {
        series: Series::Frame,
        number,
        owner: frame_owner(frame.owner),
        what: What::FrameOf(number),
    }
}

/// Puts the sections of CNodes and threads behind the others.
fn push_holders(alloc: Global, tables: &Tables<'_>, sections: &mut List<List<Part>>) -> Made<()>
    requires { AreFew (told tables.now) }
    ensures { OnOk result (sections.new ≡ sections.old ++ holders (told tables.now)) }
{
    let cnodes = cnodes(alloc, tables.flat.domains.as_slice())?;
    sections.push(numbered(alloc, Series::CNode, cnodes.as_slice())?)?;
    let tcbs = tcbs(alloc, tables)?;
    sections.push(numbered(alloc, Series::Tcb, tcbs.as_slice())?)
}

/// Puts the sections of endpoints, notifications, locks and interrupts behind the others.
fn push_joints(alloc: Global, tables: &Tables<'_>, sections: &mut List<List<Part>>) -> Made<()>
    requires { AreFew (told tables.now) }
    ensures { OnOk result (sections.new ≡ sections.old ++ joints (told tables.now)) }
{
    let connections = tables.flat.connections.as_slice();
    sections.push(endpoints(alloc, connections)?)?;
    sections.push(notifications(alloc, connections)?)?;
    let locks = locks(alloc, tables)?;
    sections.push(numbered(alloc, Series::Lock, locks.as_slice())?)?;
    let irqs = irqs(alloc, connections)?;
    sections.push(numbered(alloc, Series::Irq, irqs.as_slice())?)
}

/// Puts the section of page tables behind the others.
fn push_tables(alloc: Global, tables: &Tables<'_>, sections: &mut List<List<Part>>) -> Made<()>
    requires { AreFew (told tables.now) }
    ensures { OnOk result (sections.new ≡ sections.old ++ table_parts (all_tables (told tables.now)) ∷ []) }
{
    let all = all_tables(alloc, tables)?;
    sections.push(table_parts(alloc, all.as_slice())?)
}

/// The sections of the parts of a system but for frames, in order: `specs/Parts.antt`. Takes time linear in what the tables list.
pub fn sections(alloc: Global, tables: &Tables<'_>) -> Made<List<List<Part>>>
    requires { AreFew (told tables.now) }
    ensures { IfOk result (λ list. list ≡ but_frames (told tables.now)) }
{
    let mut sections = List::from_vec(Vec::with_capacity(alloc, 7)?);
    push_holders(alloc, tables, &mut sections)?;
    push_joints(alloc, tables, &mut sections)?;
    push_tables(alloc, tables, &mut sections)?;
    Ok(sections)
}

/// Where the section of this number begins. Takes no memory.
pub fn first_of(sections: &[List<Part>], number: usize) -> u32
    requires few { length (together sections.now) < 2 ^ 32 }
    requires within { number ≤ length sections.now }
    ensures { result ≡ length (together (take number sections.now)) }
{
    let mut first = 0;
    let before = &sections[..number];
    for section in before {
        first += section.len() as u32;
    }
    first
}
