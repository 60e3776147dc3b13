//! Lines by what stands behind their first word.

ghost use Rattle.cam_io.specs.Saying.{Says};
ghost use Rattle.cap_model.specs.Lookup.{name_at};
ghost use Rattle.step_text.specs.StepLines.{call_line, copy_line, grant_line, number_line, numbers_line, reply_line, rights_field, thread_line};
ghost use Rattle.std.specs.Prelude.{◌≡◌};

use cam_io::{Outputs, Writer};
use cap_model::{Rights, Spec};
use itoa::Buffer;

fn rights_field<'a>(r: Rights) -> &'a [u8]
    ensures { result.now ≡ rights_field r }
{
    if r.any() { r.word() } else { b"-" }
}

/// A word and a thread.
pub fn write_thread<O: Outputs>(word: &[u8], thread: &[u8], to: &mut Writer<O>)
    ensures { Says to.old (thread_line word.now thread.now) to.new }
{
    to.texts(&[word, thread, b"\n"]);
}

/// A word, a thread and a number.
pub fn write_number<O: Outputs>(word: &[u8], thread: &[u8], i: u64, to: &mut Writer<O>)
    ensures { Says to.old (number_line word.now thread.now i) to.new }
{
    let mut digits = Buffer::new();
    to.texts(&[word, thread, b" ", digits.format(i).as_bytes(), b"\n"]);
}

/// A word, a thread and two numbers.
pub fn write_numbers<O: Outputs>(word: &[u8], thread: &[u8], i: u64, j: u64, to: &mut Writer<O>)
    ensures { Says to.old (numbers_line word.now thread.now i j) to.new }
{
    let (mut first, mut second) = (Buffer::new(), Buffer::new());
    to.texts(&[
        word,
        thread,
        b" ",
        first.format(i).as_bytes(),
        b" ",
        second.format(j).as_bytes(),
        b"\n",
    ]);
}

/// A word, a thread, two numbers and rights.
pub fn write_copy<O: Outputs>(
    word: &[u8],
    thread: &[u8],
    numbers: (u64, u64),
    r: Rights,
    to: &mut Writer<O>,
)
    ensures { Says to.old (copy_line word.now thread.now numbers.0 numbers.1 r) to.new }
{
    let (mut first, mut second) = (Buffer::new(), Buffer::new());
    to.texts(&[
        word,
        thread,
        b" ",
        first.format(numbers.0).as_bytes(),
        b" ",
        second.format(numbers.1).as_bytes(),
        b" ",
        rights_field(r),
        b"\n",
    ]);
}

/// A reply with a copy.
pub fn write_reply<O: Outputs>(thread: &[u8], copy: (u64, Rights), to: &mut Writer<O>)
    ensures { Says to.old (reply_line thread.now copy.0 copy.1) to.new }
{
    let mut digits = Buffer::new();
    to.texts(&[
        b"reply ",
        thread,
        b" ",
        digits.format(copy.0).as_bytes(),
        b" ",
        rights_field(copy.1),
        b"\n",
    ]);
}

/// A call of one thread to another, with the numbers of their capabilities.
pub fn write_call<O: Outputs>(spec: &Spec, caller: (u32, u64), peer: (u32, u64), to: &mut Writer<O>)
    ensures { Says to.old (call_line (name_at spec.now caller.0) caller.1 (name_at spec.now peer.0) peer.1) to.new }
{
    let (mut first, mut second) = (Buffer::new(), Buffer::new());
    to.texts(&[
        b"call ",
        spec.name(caller.0),
        b" ",
        first.format(caller.1).as_bytes(),
        b" ",
        spec.name(peer.0),
        b" ",
        second.format(peer.1).as_bytes(),
        b"\n",
    ]);
}

/// A grant of one thread to another, with the numbers of their capabilities, and what is copied.
pub fn write_grant<O: Outputs>(
    spec: &Spec,
    giver: (u32, u64),
    taker: (u32, u64),
    copy: (u64, Rights),
    to: &mut Writer<O>,
)
    ensures { Says to.old (grant_line (name_at spec.now giver.0) giver.1 (name_at spec.now taker.0) taker.1 copy.0 copy.1)
        to.new }
{
    let (mut first, mut second, mut third) = (Buffer::new(), Buffer::new(), Buffer::new());
    to.texts(&[
        b"grant ",
        spec.name(giver.0),
        b" ",
        first.format(giver.1).as_bytes(),
        b" ",
        spec.name(taker.0),
        b" ",
        second.format(taker.1).as_bytes(),
        b" ",
        third.format(copy.0).as_bytes(),
        b" ",
        rights_field(copy.1),
        b"\n",
    ]);
}
