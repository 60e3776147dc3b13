//! The pages of a space.

ghost use Rattle.cap_model.specs.RightsWord.{rights_word};
ghost use Rattle.domain_table.specs.Pages.{address, fill_text, frame_text, object_called, paddr_text, page_row, page_rows, rows_of_space, space_rows, steps, table_slots};
ghost use Rattle.domain_table.specs.Tables.{root_name};
ghost use Rattle.std.specs.Option.{option_map};
ghost use Rattle.std.specs.Prelude.{◌≡◌, ◌++◌, ◌∷◌, [], IfOk, OnOk};

use crate::domain::NamedDomain;
use crate::row::{Rows, push_row};
use crate::table::root_name;
use cam_base::{Boxed, List, Made, hexadecimal};
use cap_model::{Arch, Cap, Fill, Object, Rights, Spec};
use itoa::Buffer;
use std::alloc::Global;
use view_text::join;

/// What a slot of each level spans, from the root down.
fn steps(arch: Arch) -> &'static [u64]
    ensures { result.now ≡ steps arch }
{
    match arch {
        Arch::Arm11 => &[0x10_0000, 0x1000],
        Arch::Aarch64 => &[0x80_0000_0000, 0x4000_0000, 0x20_0000, 0x1000],
    }
}

fn address(at: u64, slot: u64, step: u64) -> u64
    ensures { result ≡ address at slot step }
{
    at.wrapping_add(slot.wrapping_mul(step))
}

fn table_slots(object: Option<&Object>) -> &[(u64, Cap)]
    ensures { result.now ≡ table_slots (option_map (λ o. o.now) object.entry) }
{
    match object {
        Some(Object::Pages { slots, .. }) => slots.as_slice(),
        _ => &[],
    }
}

fn paddr_text(alloc: Global, paddr: Option<u64>) -> Made<List<u8>>
    ensures { IfOk result (λ text. text ≡ paddr_text paddr) }
{
    let Some(paddr) = paddr else {
        return Ok(List::new(alloc));
    };
    let mut digits = [0; 18];
    join(alloc, &[b"at ", hexadecimal(paddr, &mut digits)])
}

fn fill_text(alloc: Global, fill: &Option<Boxed<Fill>>) -> Made<List<u8>>
    ensures { IfOk result (λ text. text ≡ fill_text fill.now) }
{
    let Some(fill) = fill else {
        return Ok(List::new(alloc));
    };
    let fill = fill.get();
    let mut digits = [0; 18];
    let mut number = Buffer::new();
    let at = hexadecimal(fill.at, &mut digits);
    let length = number.format(fill.length).as_bytes();
    join(alloc, &[fill.file.as_bytes(), b" ", at, b" ", length])
}

/// What stands in a frame.
fn frame_text(alloc: Global, object: Option<&Object>) -> Made<List<u8>>
    ensures { IfOk result (λ text. text ≡ frame_text (option_map (λ o. o.now) object.entry)) }
{
    match object {
        Some(Object::Frame { paddr, fill }) => {
            let paddr = paddr_text(alloc, *paddr)?;
            let fill = fill_text(alloc, fill)?;
            join(alloc, &[paddr.as_slice(), fill.as_slice()])
        }
        _ => Ok(List::new(alloc)),
    }
}

fn rights_word(rights: &Rights) -> &[u8]
    ensures { result.now ≡ rights_word rights.now }
{
    rights.word()
}

/// The object of that name.
fn object_called<'a>(spec: &'a Spec, name: &[u8]) -> Option<&'a Object>
    ensures { option_map (λ o. o.now) result ≡ object_called spec.now name.now }
{
    spec.entries
        .as_slice()
        .iter()
        .find(|entry| entry.name.as_bytes() == name)
        .map(|entry| &entry.object)
}

impl<'a> NamedDomain<'a> {
    fn push_page(&self, rows: &mut Rows, at: u64, cap: &Cap) -> Made<()>
        ensures { OnOk result (rows.new ≡ rows.old ++ page_row self.now.names.spec.now at cap.now ∷ []) }
    {
        let spec = self.names.spec;
        let holds = frame_text(self.alloc, spec.object(cap.object))?;
        let mut digits = [0; 18];
        let at = hexadecimal(at, &mut digits);
        let name = spec.name(cap.object);
        let rights = rights_word(&cap.rights);
        push_row(self.alloc, rows, &[at, name, rights, holds.as_slice()])
    }

    /// Puts the pages that a capability at an address leads to behind the others, over the levels below it.
    fn push_pages(&self, rows: &mut Rows, steps: &[u64], at: u64, cap: &Cap) -> Made<()>
        ensures { OnOk result (rows.new ≡ rows.old ++ page_rows self.now.names.spec.now steps.now at cap.now) }
    {
        match steps {
            [] => self.push_page(rows, at, cap),
            [step, below @ ..] => {
                for slot in table_slots(self.names.spec.object(cap.object)) {
                    let place = address(at, slot.0, *step);
                    self.push_pages(rows, below, place, &slot.1)?;
                }
                Ok(())
            }
        }
    }

    fn push_space(&self, rows: &mut Rows, steps: &[u64], slots: &[(u64, Cap)]) -> Made<()>
        ensures { OnOk result (rows.new ≡ rows.old ++ space_rows self.now.names.spec.now steps.now slots.now) }
    {
        let [step, below @ ..] = steps else {
            return Ok(());
        };
        for slot in slots {
            self.push_pages(rows, below, address(0, slot.0, *step), &slot.1)?;
        }
        Ok(())
    }

    /// The rows of the pages of its space.
    pub fn pages(&self) -> Made<Rows>
        ensures { IfOk result (λ rows. rows
            ≡ rows_of_space self.now.names.spec.now (root_name self.now.names.spec.now self.now.number)) }
    {
        let spec = self.names.spec;
        let root = root_name(self.alloc, spec, self.number)?;
        let mut rows = List::new(self.alloc);
        let slots = table_slots(object_called(spec, root.as_bytes()));
        self.push_space(&mut rows, steps(spec.arch), slots)?;
        Ok(rows)
    }
}
