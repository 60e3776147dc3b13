ghost use Rattle.arch_compile.specs.BuildTexts.{AreUnbegun};
ghost use Rattle.cam_io.specs.Causes.{Rose};
ghost use Rattle.cam_io.specs.Contents.{Contents};
ghost use Rattle.cam_io.specs.Reading.{InAll, KeepsFiles, LearnsOnly};
ghost use Rattle.camkes_tool.specs.Answers.{Fits, Tells, command_of, status_of};
ghost use Rattle.camkes_tool.specs.Learning.{AlikeInCommand};
ghost use Rattle.camkes_tool.specs.Statuses.{NoneRose};
ghost use Rattle.camkes_tool.specs.Theorem.{HoldTexts, IsAnswerWritten, IsListWritten, IsSafe, IsWritten};
ghost use Rattle.camkes_tool.specs.Theorem.{IsCertificateWritten, IsReportWritten, IsTableWritten};
ghost use Rattle.camkes_tool.specs.declared.answer.Answer.{Answer};
ghost use Rattle.command_words.specs.declared.command.Command.TheVariants.{Audit, Certify, Check, Compile, Explain, Sections};
ghost use Rattle.command_words.specs.declared.command.Command.TheVariants.{List as ListOf};
ghost use Rattle.std.specs.Prelude.{◌≡◌, ◌⊎◌, ℕ, List, Some, if◌then◌else◌};

use crate::Answer;
use crate::decide::decide;
use crate::perform::perform;
use cam_io::{Failed, Files, Outputs};
use std::alloc::Global;
use std::mem;

/// The status of what is found, by whether it is what was hoped for.
fn well_or_not(well: bool) -> u8
    ensures { result ≡ (if well then 0 else 3) }
{
    if well { 0 } else { 3 }
}

fn status_of(answer: &Answer) -> u8
    ensures { result ≡ status_of answer.now }
{
    match answer {
        Answer::Compiled { .. } => 0,
        Answer::Listed { .. } => 0,
        Answer::Generated { .. } => 0,
        Answer::Explained { answer } => well_or_not(answer.is_assigned()),
        Answer::Told { outcome } => well_or_not(outcome.is_well()),
        Answer::Faulted { .. } | Answer::Refused { .. } => 1,
        Answer::Usage => 2,
        Answer::ReadFault { .. } => 4,
        Answer::NoMemory => 6,
    }
}

/// Does what the words behind the program's name say, and answers the program's status. None of the channels 2 to 5 may
/// be begun. Takes no memory from the first begin on, and doesn't give back what the answer holds: the program ends behind it.
///
/// There is one answer that fits the words and all contents that the files tell, and there are such contents; and either the
/// answer was told whole, or the status is 5 and it was cut short: `specs/Answers.antt`. What is compiled is what the source
/// says, is read back, and lets threads reach exactly what the source assigns; just that is listed and explained; a yes of the
/// checker holds over every interleaving of steps; and of what was compiled it says yes. The least certificate and a table are
/// read back, and the steps of an audit are replayed; of what was compiled an audit has the edges that are listed, and the least
/// certificate is the one that was written: `specs/Theorem.antt`. No more is learned of the files than those that the command
/// names or meets, up to their limits and a byte more: `specs/Learning.antt`.
pub fn run<F: Files, O: Outputs>(alloc: Global, words: &[String], files: &mut F, out: &mut O) -> u8
    requires { AreUnbegun (O.sink out.old) }
    ensures kept { KeepsFiles F.told F.faults files.old files.new }
    ensures learned { LearnsOnly F.told (AlikeInCommand (command_of words.now)) files.old files.new }
    ensures answered { (answer : Answer)
        × InAll (F.told files.new) (λ m. Fits (command_of words.now) m (F.faults files.old) (F.faults files.new) answer)
        × Tells answer result (O.sink out.old) (O.sink out.new) (O.faults out.old) (O.faults out.new) }
    ensures compiled { (root base : List ℕ) → command_of words.now ≡ Some (Compile root base) → result ≡ 0
        → IsWritten (F.told files.new) root base (O.sink out.old) (O.sink out.new) }
    ensures listed { (root : List ℕ) → command_of words.now ≡ Some (ListOf root) → result ≡ 0
        → IsListWritten (F.told files.new) root (O.sink out.old) (O.sink out.new) }
    ensures explained { (root from authority to : List ℕ) → command_of words.now ≡ Some (Explain root from authority to)
        → (result ≡ 0) ⊎ (result ≡ 3)
        → IsAnswerWritten (F.told files.new) root from authority to result (O.sink out.old) (O.sink out.new) }
    ensures checked { (cdl policy cert : List ℕ) → command_of words.now ≡ Some (Check cdl policy cert) → result ≡ 0
        → InAll (F.told files.new) (λ m. IsSafe m cdl policy) }
    ensures accepted { (cdl policy cert : List ℕ) → command_of words.now ≡ Some (Check cdl policy cert)
        → (m : Contents) → F.told files.new m → HoldTexts m cdl policy cert → NoneRose (F.faults files.old) (F.faults files.new)
        → ¬ Rose (O.faults out.old) (O.faults out.new) → (result ≡ 0) ⊎ (result ≡ 6) }
    ensures certified { (cdl policy : List ℕ) → command_of words.now ≡ Some (Certify cdl policy) → result ≡ 0
        → IsCertificateWritten (F.told files.new) cdl policy (O.sink out.old) (O.sink out.new) }
    ensures tabled { (elf : List ℕ) → command_of words.now ≡ Some (Sections elf) → result ≡ 0
        → IsTableWritten (F.told files.new) elf (O.sink out.old) (O.sink out.new) }
    ensures audited { (cdl policy : List ℕ) → command_of words.now ≡ Some (Audit cdl policy) → result ≡ 0
        → IsReportWritten (F.told files.new) cdl policy (O.sink out.old) (O.sink out.new) }
{
    let answer = decide(alloc, words, files);
    let status = tell(&answer, out);
    mem::forget(answer);
    status
}

/// Does what the answer says, and answers the status.
fn tell<O: Outputs>(answer: &Answer, out: &mut O) -> u8
    requires { AreUnbegun (O.sink out.old) }
    ensures { Tells answer.now result (O.sink out.old) (O.sink out.new) (O.faults out.old) (O.faults out.new) }
{
    match perform(answer, out) {
        Ok(()) => status_of(answer),
        Err(Failed) => 5,
    }
}
