//! The writer of plans.

ghost use Rattle.boot_plan.specs.Needs.{has_few_bits};
ghost use Rattle.boot_plan.specs.Texts.{bytes_placed, entry_bits, one_placed, place_line, place_lines, plan_text};
ghost use Rattle.cam_io.specs.Saying.{Says};
ghost use Rattle.cam_io.specs.Sinks.{IsOpen, Writes};
ghost use Rattle.cap_model.specs.Kept.{IsKept};
ghost use Rattle.std.specs.List.{sum_by, zip};
ghost use Rattle.std.specs.Prelude.{◌≡◌, true};

use crate::need::Need;
use crate::plan_refusal::BootPlan;
use cam_base::hexadecimal;
use cam_io::{Outputs, Writer, Written};
use cap_model::{Arch, Entry, Spec};
use itoa::Buffer;

/// The bits that an object has in memory.
fn entry_bits(arch: Arch, entry: &Entry) -> u8
    requires { has_few_bits entry.now.object ≡ true }
    ensures { result ≡ entry_bits arch entry.now }
{
    Need::of(arch, &entry.object).bits()
}

/// The bytes of an object that has a place, none where it has none.
fn entry_bytes(arch: Arch, entry: &Entry, place: Option<u64>) -> u64
    requires { has_few_bits entry.now.object ≡ true }
    ensures { result ≡ bytes_placed arch (entry.now, place) }
{
    match place {
        None => 0,
        Some(_) => 1 << entry_bits(arch, entry),
    }
}

/// How many objects have a place.
fn objects_placed(spec: &Spec, places: &[Option<u64>]) -> u64
    requires { IsKept spec.now }
    ensures { result ≡ sum_by one_placed (zip spec.now.entries places.now) }
{
    let mut total = 0;
    for (_, place) in spec.entries.as_slice().iter().zip(places) {
        total += u64::from(place.is_some());
    }
    total
}

/// The bytes of the objects that have a place.
fn bytes_placed(spec: &Spec, places: &[Option<u64>]) -> u64
    requires { IsKept spec.now }
    ensures { result ≡ sum_by (bytes_placed spec.now.arch) (zip spec.now.entries places.now) }
{
    let mut total = 0;
    for (entry, place) in spec.entries.as_slice().iter().zip(places) {
        total += entry_bytes(spec.arch, entry, *place);
    }
    total
}

/// Writes a plan to an open channel. `specs/Texts.antt` has its text. After a failure, which comes only where the outputs'
/// count rose, the channel has a front of it. Takes no memory.
pub fn write_plan<O: Outputs>(spec: &Spec, plan: &BootPlan, out: &mut O, channel: u8) -> Written
    requires open { IsOpen (O.sink out.old) channel }
    requires kept { IsKept spec.now }
    ensures { Writes result channel (plan_text spec.now plan.now.places) (O.sink out.old) (O.sink out.new) (O.faults out.old)
        (O.faults out.new) }
{
    let places = plan.places.as_slice();
    let (mut objects, mut bytes) = (Buffer::new(), Buffer::new());
    let mut to = Writer::new(out, channel);
    to.texts(&[
        b"planned ",
        objects.format(objects_placed(spec, places)).as_bytes(),
        b" objects ",
        bytes.format(bytes_placed(spec, places)).as_bytes(),
        b" bytes\n",
    ]);
    write_places(spec, places, &mut to);
    to.flush()
}

fn write_places<O: Outputs>(spec: &Spec, places: &[Option<u64>], to: &mut Writer<O>)
    requires { IsKept spec.now }
    ensures { Says to.old (place_lines spec.now places.now) to.new }
{
    for (entry, place) in spec.entries.as_slice().iter().zip(places) {
        write_place(spec.arch, entry, *place, to);
    }
}

fn write_place<O: Outputs>(arch: Arch, entry: &Entry, place: Option<u64>, to: &mut Writer<O>)
    requires { has_few_bits entry.now.object ≡ true }
    ensures { Says to.old (place_line arch (entry.now, place)) to.new }
{
    let Some(first) = place else {
        return;
    };
    let (mut hex_digits, mut digits) = ([0; 18], Buffer::new());
    to.texts(&[
        b"place ",
        entry.name.as_bytes(),
        b" ",
        hexadecimal(first, &mut hex_digits),
        b" ",
        digits.format(entry_bits(arch, entry)).as_bytes(),
        b"\n",
    ]);
}
