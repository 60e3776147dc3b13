//! Rows of lines of the map.

ghost use Rattle.domain_table.specs.Tables.{badge_of, cap_in, rights_of, slot_line, slot_row, thread_line, thread_row, window_line};
ghost use Rattle.std.specs.List.{flat_map};
ghost use Rattle.std.specs.Option.{option_map};
ghost use Rattle.std.specs.Prelude.{◌≡◌, ◌∷◌, ◌++◌, [], IfOk, OnOk};
ghost use Rattle.system_spec.specs.MapText.{named};

use crate::domain::NamedDomain;
use crate::row::{Rows, push_row};
use cam_base::{List, Made, hexadecimal};
use cap_model::{Cap, Object, Spec};
use itoa::Buffer;
use system_spec::MapLine;

/// A slot of a domain's CNode.
fn cap_in(spec: &Spec, domain: u32, slot: u64) -> Option<&(u64, Cap)>
    ensures { option_map (λ s. s.now) result ≡ cap_in spec.now domain slot }
{
    match spec.object(domain) {
        Some(Object::CNode { slots, .. }) => slots.as_slice().iter().find(|entry| entry.0 == slot),
        _ => None,
    }
}

fn rights_of(slot: Option<&(u64, Cap)>) -> &[u8]
    ensures { result.now ≡ rights_of (option_map (λ s. s.now) slot.entry) }
{
    match slot {
        Some((_, cap)) => cap.rights.word(),
        None => b"",
    }
}

fn badge_of(slot: Option<&(u64, Cap)>) -> u64
    ensures { result ≡ badge_of (option_map (λ s. s.now) slot.entry) }
{
    match slot {
        Some((_, cap)) => cap.badge,
        None => 0,
    }
}

impl<'a> NamedDomain<'a> {
    fn push_slot(&self, rows: &mut Rows, slot: u64, object: u32, of: &[u8]) -> Made<()>
        ensures { OnOk result (rows.new
            ≡ rows.old ++ slot_row self.now.names.spec.now self.now.number slot object of.now ∷ []) }
    {
        let spec = self.names.spec;
        let cap = cap_in(spec, self.number, slot);
        let mut digits = [0; 18];
        let mut number = Buffer::new();
        let slot = hexadecimal(slot, &mut digits);
        let name = spec.name(object);
        let rights = rights_of(cap);
        let badge = number.format(badge_of(cap)).as_bytes();
        push_row(self.alloc, rows, &[slot, name, rights, badge, of])
    }

    fn push_thread(&self, rows: &mut Rows, tcb: u32, what: &[u8]) -> Made<()>
        ensures { OnOk result (rows.new ≡ rows.old ++ thread_row (named self.now.names) tcb what.now) }
    {
        let spec = self.names.spec;
        match spec.object(tcb) {
            Some(Object::Thread(registers)) => {
                let registers = registers.get();
                let (mut entry, mut stack, mut buffer) = ([0; 18], [0; 18], [0; 18]);
                let entry = hexadecimal(registers.ip, &mut entry);
                let stack = hexadecimal(registers.sp, &mut stack);
                let buffer = hexadecimal(registers.addr, &mut buffer);
                push_row(
                    self.alloc,
                    rows,
                    &[what, spec.name(tcb), entry, stack, buffer],
                )
            }
            _ => Ok(()),
        }
    }

    /// Puts the row of a line behind the others, where the line tells of a slot of the domain.
    fn push_slot_line(&self, rows: &mut Rows, line: MapLine) -> Made<()>
        ensures { OnOk result (rows.new ≡ rows.old ++ slot_line (named self.now.names) self.now.number line) }
    {
        match line {
            MapLine::SlotLine {
                connection,
                end,
                slot,
                object,
            } if self.has_end(connection, end) => {
                let of = self.end_text(connection, end)?;
                self.push_slot(rows, slot, object, of.as_slice())
            }
            MapLine::OwnLine {
                leaf,
                member,
                slot,
                object,
            } if self.has_leaf(leaf) => {
                let of = self.lock_text(leaf, member)?;
                self.push_slot(rows, slot, object, of.as_slice())
            }
            _ => Ok(()),
        }
    }

    /// Puts the row of a line behind the others, where the line tells of a thread of the domain.
    fn push_thread_line(&self, rows: &mut Rows, line: MapLine) -> Made<()>
        ensures { OnOk result (rows.new ≡ rows.old ++ thread_line (named self.now.names) self.now.number line) }
    {
        match line {
            MapLine::ThreadLine { tcb, leaf, end } if self.has_leaf(leaf) => {
                let what = self.thread_text(leaf, end)?;
                self.push_thread(rows, tcb, what.as_slice())
            }
            _ => Ok(()),
        }
    }

    /// Puts the row of a line behind the others, where the line tells of a window of the domain.
    fn push_window_line(&self, rows: &mut Rows, line: MapLine) -> Made<()>
        ensures { OnOk result (rows.new ≡ rows.old ++ window_line (named self.now.names) self.now.number line) }
    {
        match line {
            MapLine::WindowLine {
                connection,
                end,
                vaddr,
                bytes,
            } if self.has_end(connection, end) => {
                let of = self.end_text(connection, end)?;
                let mut digits = [0; 18];
                let mut number = Buffer::new();
                let vaddr = hexadecimal(vaddr, &mut digits);
                let bytes = number.format(bytes).as_bytes();
                push_row(self.alloc, rows, &[of.as_slice(), vaddr, bytes])
            }
            _ => Ok(()),
        }
    }

    /// The rows of its slots.
    pub fn slots(&self, lines: &[MapLine]) -> Made<Rows>
        ensures { IfOk result (λ rows. rows ≡ flat_map (slot_line (named self.now.names) self.now.number) lines.now) }
    {
        let mut rows = List::new(self.alloc);
        for line in lines {
            self.push_slot_line(&mut rows, *line)?;
        }
        Ok(rows)
    }

    /// The rows of its threads.
    pub fn threads(&self, lines: &[MapLine]) -> Made<Rows>
        ensures { IfOk result (λ rows. rows ≡ flat_map (thread_line (named self.now.names) self.now.number) lines.now) }
    {
        let mut rows = List::new(self.alloc);
        for line in lines {
            self.push_thread_line(&mut rows, *line)?;
        }
        Ok(rows)
    }

    /// The rows of its windows.
    pub fn windows(&self, lines: &[MapLine]) -> Made<Rows>
        ensures { IfOk result (λ rows. rows ≡ flat_map (window_line (named self.now.names) self.now.number) lines.now) }
    {
        let mut rows = List::new(self.alloc);
        for line in lines {
            self.push_window_line(&mut rows, *line)?;
        }
        Ok(rows)
    }
}
