ghost use Rattle.cam_base.specs.Texts.{◌⊹◌, together};
ghost use Rattle.cam_io.specs.Saying.{Says};
ghost use Rattle.cap_model.specs.Canonical.{cap_end, slot_line, slots_text, named_line, buffer_line, has_slot, tcb_text, irq_text, entry_text, params};
ghost use Rattle.cap_model.specs.RightsWord.{has_rights, rights_word};
ghost use Rattle.std.specs.List.{flat_map};
ghost use Rattle.std.specs.Prelude.{◌≡◌, [], ◌∷◌, codes, true, false};

use cam_base::hexadecimal;
use cam_io::{Outputs, Writer};
use cap_model::{Cap, Entry, Object, Rights, Spec, Tcb};
use itoa::Buffer;

/// Writes the slots of those of the objects that have a slot, in order.
pub fn write_holders<O: Outputs>(spec: &Spec, entries: &[Entry], to: &mut Writer<O>)
    ensures { Says to.old (flat_map (entry_text spec.now) entries.now) to.new }
{
    for entry in entries {
        write_holder(spec, entry, to);
    }
}

fn write_holder<O: Outputs>(spec: &Spec, entry: &Entry, to: &mut Writer<O>)
    ensures { Says to.old (entry_text spec.now entry.now) to.new }
{
    let name = entry.name.as_bytes();
    match &entry.object {
        Object::CNode { slots, .. } | Object::Pages { slots, .. } => {
            write_slots(spec, name, slots.as_slice(), to)
        }
        Object::Thread(tcb) => write_tcb_slots(spec, name, tcb.get(), to),
        Object::Irq { notification } => write_irq_slot(spec, name, *notification, to),
        Object::Endpoint => {}
        Object::Notification => {}
        Object::Frame { .. } => {}
    }
}

fn write_slots<O: Outputs>(spec: &Spec, name: &[u8], slots: &[(u64, Cap)], to: &mut Writer<O>)
    ensures { Says to.old (slots_text spec.now name.now slots.now) to.new }
{
    if slots.is_empty() {
        return;
    }
    write_some_slots(spec, name, slots, to);
}

fn write_some_slots<O: Outputs>(spec: &Spec, name: &[u8], slots: &[(u64, Cap)], to: &mut Writer<O>)
    ensures { Says to.old (together (name.now ∷ codes " {\n" ∷ []) ⊹ flat_map (slot_line spec.now) slots.now
        ⊹ codes "}\n") to.new }
{
    to.texts(&[name, b" {\n"]);
    write_slot_lines(spec, slots, to);
    to.text(b"}\n");
}

fn write_slot_lines<O: Outputs>(spec: &Spec, slots: &[(u64, Cap)], to: &mut Writer<O>)
    ensures { Says to.old (flat_map (slot_line spec.now) slots.now) to.new }
{
    for slot in slots {
        write_slot(spec, slot, to);
    }
}

fn write_slot<O: Outputs>(spec: &Spec, slot: &(u64, Cap), to: &mut Writer<O>)
    ensures { Says to.old (slot_line spec.now slot.now) to.new }
{
    let mut digits = [0; 18];
    let number = hexadecimal(slot.0, &mut digits);
    write_cap(spec, number, &slot.1, to);
}

/// Writes a capability behind a word and a colon, and the end of the line.
fn write_cap<'a, O: Outputs>(spec: &'a Spec, word: &'a [u8], cap: &'a Cap, to: &mut Writer<O>)
    ensures { Says to.old (together (word.now ∷ codes ": " ∷ []) ⊹ cap_end spec.now cap.now) to.new }
{
    let name = spec.name(cap.object);
    if cap.badge == 0 {
        to.texts(&[word, b": ", name, end_word(&cap.rights)]);
        return;
    }
    let rights = rights_word(&cap.rights);
    let mut digits = Buffer::new();
    let badge = digits.format(cap.badge).as_bytes();
    if cap.rights.any() {
        to.texts(&[
            word,
            b": ",
            name,
            b" (",
            rights,
            b", badge: ",
            badge,
            b")\n",
        ]);
    } else {
        to.texts(&[word, b": ", name, b" (badge: ", badge, b")\n"]);
    }
}

/// What follows the name of the object of a capability without a badge.
fn end_word(rights: &Rights) -> &[u8]
    ensures { result.now ≡ params (has_rights rights.now) false rights.now 0 ⊹ codes "\n" }
{
    match (rights.read, rights.write, rights.grant, rights.reply) {
        (false, false, false, false) => b"\n",
        (false, false, false, true) => b" (P)\n",
        (false, false, true, false) => b" (G)\n",
        (false, false, true, true) => b" (GP)\n",
        (false, true, false, false) => b" (W)\n",
        (false, true, false, true) => b" (WP)\n",
        (false, true, true, false) => b" (WG)\n",
        (false, true, true, true) => b" (WGP)\n",
        (true, false, false, false) => b" (R)\n",
        (true, false, false, true) => b" (RP)\n",
        (true, false, true, false) => b" (RG)\n",
        (true, false, true, true) => b" (RGP)\n",
        (true, true, false, false) => b" (RW)\n",
        (true, true, false, true) => b" (RWP)\n",
        (true, true, true, false) => b" (RWG)\n",
        (true, true, true, true) => b" (RWGP)\n",
    }
}

fn rights_word(rights: &Rights) -> &[u8]
    ensures { result.now ≡ rights_word rights.now }
{
    rights.word()
}

fn write_tcb_slots<O: Outputs>(spec: &Spec, name: &[u8], tcb: &Tcb, to: &mut Writer<O>)
    ensures { Says to.old (tcb_text spec.now name.now tcb.now (has_slot tcb.now)) to.new }
{
    if has_slot(tcb) {
        write_some_tcb_slots(spec, name, tcb, to);
    }
}

fn has_slot(tcb: &Tcb) -> bool
    ensures { result ≡ has_slot tcb.now }
{
    tcb.cspace.is_some() || tcb.vspace.is_some() || tcb.buffer.is_some()
}

fn write_some_tcb_slots<O: Outputs>(spec: &Spec, name: &[u8], tcb: &Tcb, to: &mut Writer<O>)
    ensures { Says to.old (tcb_text spec.now name.now tcb.now true) to.new }
{
    to.texts(&[name, b" {\n"]);
    write_named(spec, b"cspace: ", tcb.cspace, to);
    write_named(spec, b"vspace: ", tcb.vspace, to);
    write_buffer(spec, tcb.buffer, to);
    to.text(b"}\n");
}

fn write_named<O: Outputs>(spec: &Spec, word: &[u8], object: Option<u32>, to: &mut Writer<O>)
    ensures { Says to.old (named_line spec.now word.now object) to.new }
{
    match object {
        None => {}
        Some(object) => to.texts(&[word, spec.name(object), b"\n"]),
    }
}

fn write_buffer<O: Outputs>(spec: &Spec, buffer: Option<Cap>, to: &mut Writer<O>)
    ensures { Says to.old (buffer_line spec.now buffer) to.new }
{
    match buffer {
        None => {}
        Some(cap) => write_cap(spec, b"ipc_buffer_slot", &cap, to),
    }
}

fn write_irq_slot<O: Outputs>(
    spec: &Spec,
    name: &[u8],
    notification: Option<u32>,
    to: &mut Writer<O>,
)
    ensures { Says to.old (irq_text spec.now name.now notification) to.new }
{
    match notification {
        None => {}
        Some(notification) => to.texts(&[name, b" {\n0x0: ", spec.name(notification), b"\n}\n"]),
    }
}
