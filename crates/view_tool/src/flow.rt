//! What a policy lets flow.

ghost use Rattle.cap_model.specs.Policies.{NumbersDiffer};
ghost use Rattle.cam_io.specs.Reading.{InAll, KeepsFiles};
ghost use Rattle.view_tool.specs.Answers.{AnswersFlow, IsFlow, IsFlows, OfFile};

use crate::answer::Answer;
use crate::fault::hindered;
use crate::lines::{refuse, text_fault_line};
use cam_base::{NoMemory, Refused};
use cam_io::{Files, read_whole};
use cap_model::Policy;
use label_flow::{Told, flows_text, tell_flow};
use policy_text::read_policy;
use std::alloc::Global;
use view_text::LIMIT;

/// What flows from one label to another.
fn answer_flow(alloc: Global, policy: &Policy, from: &str, to: &str) -> Answer
    requires { NumbersDiffer policy.now.labels }
    ensures { AnswersFlow policy.now from.now to.now result }
{
    match tell_flow(alloc, policy, from.as_bytes(), to.as_bytes()) {
        Ok(Told::Flows(text)) => Answer::Shown(text),
        Ok(Told::NoFlow) => Answer::NoFlow,
        Ok(Told::NoFrom) => refuse(alloc, from.as_bytes(), b"no such label"),
        Ok(Told::NoTo) => refuse(alloc, to.as_bytes(), b"no such label"),
        Err(NoMemory) => Answer::NoMemory,
    }
}

fn tell(alloc: Global, file: &str, bytes: &[u8], from: &str, to: &str) -> Answer
    ensures { IsFlow file.now from.now to.now bytes.now result }
{
    match read_policy(alloc, bytes) {
        Ok(policy) => answer_flow(alloc, &policy, from, to),
        Err(Refused::Fault(fault)) => Answer::refused(text_fault_line(alloc, file, &fault)),
        Err(Refused::NoMemory) => Answer::NoMemory,
    }
}

fn tell_all(alloc: Global, file: &str, bytes: &[u8]) -> Answer
    ensures { IsFlows file.now bytes.now result }
{
    match read_policy(alloc, bytes) {
        Ok(policy) => Answer::shown(flows_text(alloc, &policy)),
        Err(Refused::Fault(fault)) => Answer::refused(text_fault_line(alloc, file, &fault)),
        Err(Refused::NoMemory) => Answer::NoMemory,
    }
}

/// What is answered to the file of a policy and the names of two labels.
pub fn view_flow<F: Files>(alloc: Global, file: &str, from: &str, to: &str, files: &mut F) -> Answer
    ensures kept { KeepsFiles F.told F.faults files.old files.new }
    ensures fits { InAll (F.told files.new) (λ m. OfFile m (F.faults files.old) (F.faults files.new) file.now
        (IsFlow file.now from.now to.now) result) }
{
    match read_whole(alloc, files, file, LIMIT) {
        Ok(bytes) => tell(alloc, file, bytes.as_slice(), from, to),
        Err(error) => hindered(alloc, file, error),
    }
}

/// What is answered to the file of a policy.
pub fn view_flows<F: Files>(alloc: Global, file: &str, files: &mut F) -> Answer
    ensures kept { KeepsFiles F.told F.faults files.old files.new }
    ensures fits { InAll (F.told files.new) (λ m. OfFile m (F.faults files.old) (F.faults files.new) file.now (IsFlows file.now)
        result) }
{
    match read_whole(alloc, files, file, LIMIT) {
        Ok(bytes) => tell_all(alloc, file, bytes.as_slice()),
        Err(error) => hindered(alloc, file, error),
    }
}
