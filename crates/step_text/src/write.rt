//! The text of steps.

ghost use Rattle.cam_io.specs.Saying.{Says};
ghost use Rattle.cam_io.specs.Sinks.{IsOpen, Writes};
ghost use Rattle.step_text.specs.StepLines.{step_line, steps_text};

use crate::line::{
    write_call, write_copy, write_grant, write_number, write_numbers, write_reply, write_thread,
};
use cam_base::List;
use cam_io::{Outputs, Writer, Written};
use cap_machine::Step;
use cap_model::Spec;

/// Writes steps to an open channel, a line for each. After a failure the channel has a front of the text. Takes no memory.
pub fn write_steps<O: Outputs>(spec: &Spec, steps: &List<Step>, out: &mut O, channel: u8) -> Written
    requires { IsOpen (O.sink out.old) channel }
    ensures { Writes result channel (steps_text spec.now steps.now) (O.sink out.old) (O.sink out.new) (O.faults out.old)
        (O.faults out.new) }
{
    let mut to = Writer::new(out, channel);
    write_step_lines(spec, steps.as_slice(), &mut to);
    to.flush()
}

/// Writes steps, a line for each.
pub fn write_step_lines<O: Outputs>(spec: &Spec, steps: &[Step], to: &mut Writer<O>)
    ensures { Says to.old (steps_text spec.now steps.now) to.new }
{
    for step in steps {
        write_step(spec, *step, to);
    }
}

fn write_step<O: Outputs>(spec: &Spec, step: Step, to: &mut Writer<O>)
    ensures { Says to.old (step_line spec.now step) to.new }
{
    match step {
        Step::Take { t, i, j, r } => write_copy(b"take ", spec.name(t), (i, j), r, to),
        Step::Put { t, i, j, r } => write_copy(b"put ", spec.name(t), (i, j), r, to),
        Step::Map { t, i, j, r } => write_copy(b"map ", spec.name(t), (i, j), r, to),
        Step::Grant { t, i, u, j, k, r } => write_grant(spec, (t, i), (u, j), (k, r), to),
        Step::Call { t, i, u, j } => write_call(spec, (t, i), (u, j), to),
        Step::Reply { t, copy: None } => write_thread(b"reply ", spec.name(t), to),
        Step::Reply {
            t,
            copy: Some(copy),
        } => write_reply(spec.name(t), copy, to),
        Step::SetCspace { t, i, j } => write_numbers(b"setcspace ", spec.name(t), i, j, to),
        Step::SetVspace { t, i, j } => write_numbers(b"setvspace ", spec.name(t), i, j, to),
        Step::Bind { t, i, j } => write_numbers(b"bind ", spec.name(t), i, j, to),
        Step::Drop { t, i } => write_number(b"drop ", spec.name(t), i, to),
        Step::Save { t } => write_thread(b"save ", spec.name(t), to),
        Step::ReplyTo { t, i, copy: None } => write_number(b"replyto ", spec.name(t), i, to),
        Step::ReplyTo {
            t,
            i,
            copy: Some(copy),
        } => write_copy(b"replyto ", spec.name(t), (i, copy.0), copy.1, to),
    }
}
