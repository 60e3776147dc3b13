//! The commands that only print: what is asked for is found, and what was found is the answer.

ghost use Rattle.adl_import.specs.Loaded.{AlikeInSource};
ghost use Rattle.cam_io.specs.Reading.{InAll, KeepsFiles, LearnsOnly};
ghost use Rattle.camkes_tool.specs.Answers.{FitsExplained, FitsGenerated, FitsListed, FitsTexts};
ghost use Rattle.camkes_tool.specs.Deciding.{refused, told};
ghost use Rattle.camkes_tool.specs.Generated.{IsGenerated};
ghost use Rattle.source_commands.specs.Explained.{IsExplained};
ghost use Rattle.source_commands.specs.Listed.{IsListed};
ghost use Rattle.std.specs.Prelude.{◌≡◌, [], ◌∷◌};
ghost use Rattle.text_commands.specs.Commands.{IsAudited, IsCertified, IsChecked, IsPlanned, IsRun, IsTabled};
ghost use Rattle.text_commands.specs.Inputs.{AlikeAsRead, AlikeInInputs};

use crate::{Answer, generate};
use cam_base::{SourceError, Unread};
use cam_io::Files;
use explain::Question;
use source_commands::{explain, list};
use std::alloc::Global;
use text_commands::{
    Found, audit_texts, certify_texts, check_texts, plan_texts, replay_texts, table_of_elf,
};

/// What the source of the root assigns.
pub fn listed<F: Files>(alloc: Global, root: &str, files: &mut F) -> Answer
    ensures kept { KeepsFiles F.told F.faults files.old files.new }
    ensures learned { LearnsOnly F.told (AlikeInSource root.now) files.old files.new }
    ensures fits { InAll (F.told files.new) (λ m. FitsListed
        (IsListed root.now m (F.faults files.old) (F.faults files.new)) result) }
{
    match list(alloc, files, root) {
        Ok(listing) => Answer::Listed { listing },
        Err(error) => refused(error),
    }
}

/// Why the source of the root assigns what is asked for.
pub fn explained<F: Files>(alloc: Global, root: &str, question: &Question, files: &mut F) -> Answer
    ensures kept { KeepsFiles F.told F.faults files.old files.new }
    ensures learned { LearnsOnly F.told (AlikeInSource root.now) files.old files.new }
    ensures fits { InAll (F.told files.new) (λ m. FitsExplained
        (IsExplained question.now.from.now question.now.authority.now question.now.to.now root.now
        m (F.faults files.old) (F.faults files.new)) result) }
{
    match explain(alloc, files, root, question) {
        Ok(answer) => Answer::Explained { answer },
        Err(error) => refused(error),
    }
}

/// What is compiled of the source that is generated for so many clients.
pub fn generated(alloc: Global, count: u64) -> Answer
    ensures { FitsGenerated (IsGenerated count) result }
{
    match generate(alloc, count) {
        Ok(summary) => Answer::Generated { summary },
        Err(error) => refused(error),
    }
}

/// The answer where a source is refused.
pub fn refused(error: SourceError) -> Answer
    ensures { result ≡ refused error }
{
    match error {
        Unread::Fault(fault, file) => Answer::Faulted { file, fault },
        Unread::ReadFault(file) => Answer::ReadFault { file },
        Unread::NoMemory => Answer::NoMemory,
    }
}

/// Whether a certificate keeps the rules.
pub fn checked<F: Files>(
    alloc: Global,
    cdl: &str,
    policy: &str,
    cert: &str,
    files: &mut F,
) -> Answer
    ensures kept { KeepsFiles F.told F.faults files.old files.new }
    ensures learned { LearnsOnly F.told (AlikeInInputs (cdl.now ∷ policy.now ∷ cert.now ∷ [])) files.old files.new }
    ensures fits { InAll (F.told files.new) (λ m. FitsTexts
        (IsChecked m (F.faults files.old) (F.faults files.new) cdl.now policy.now cert.now) result) }
{
    told(check_texts(alloc, files, cdl, policy, cert))
}

/// What steps lead to.
pub fn replayed<F: Files>(
    alloc: Global,
    cdl: &str,
    policy: &str,
    steps: &str,
    files: &mut F,
) -> Answer
    ensures kept { KeepsFiles F.told F.faults files.old files.new }
    ensures learned { LearnsOnly F.told (AlikeInInputs (cdl.now ∷ policy.now ∷ steps.now ∷ [])) files.old files.new }
    ensures fits { InAll (F.told files.new) (λ m. FitsTexts
        (IsRun m (F.faults files.old) (F.faults files.new) cdl.now policy.now steps.now) result) }
{
    told(replay_texts(alloc, files, cdl, policy, steps))
}

/// What runs reach.
pub fn audited<F: Files>(alloc: Global, cdl: &str, policy: &str, files: &mut F) -> Answer
    ensures kept { KeepsFiles F.told F.faults files.old files.new }
    ensures learned { LearnsOnly F.told (AlikeInInputs (cdl.now ∷ policy.now ∷ [])) files.old files.new }
    ensures fits { InAll (F.told files.new) (λ m. FitsTexts
        (IsAudited m (F.faults files.old) (F.faults files.new) cdl.now policy.now) result) }
{
    told(audit_texts(alloc, files, cdl, policy))
}

/// The least certificate.
pub fn certified<F: Files>(alloc: Global, cdl: &str, policy: &str, files: &mut F) -> Answer
    ensures kept { KeepsFiles F.told F.faults files.old files.new }
    ensures learned { LearnsOnly F.told (AlikeInInputs (cdl.now ∷ policy.now ∷ [])) files.old files.new }
    ensures fits { InAll (F.told files.new) (λ m. FitsTexts
        (IsCertified m (F.faults files.old) (F.faults files.new) cdl.now policy.now) result) }
{
    told(certify_texts(alloc, files, cdl, policy))
}

/// The section table of an ELF file.
pub fn tabled<F: Files>(alloc: Global, elf: &str, files: &mut F) -> Answer
    ensures kept { KeepsFiles F.told F.faults files.old files.new }
    ensures learned { LearnsOnly F.told (AlikeAsRead elf.now) files.old files.new }
    ensures fits { InAll (F.told files.new) (λ m. FitsTexts
        (IsTabled m (F.faults files.old) (F.faults files.new) elf.now) result) }
{
    told(table_of_elf(alloc, files, elf))
}

/// Where objects go in memory.
pub fn planned<F: Files>(alloc: Global, cdl: &str, untypeds: &str, files: &mut F) -> Answer
    ensures kept { KeepsFiles F.told F.faults files.old files.new }
    ensures learned { LearnsOnly F.told (AlikeInInputs (cdl.now ∷ untypeds.now ∷ [])) files.old files.new }
    ensures fits { InAll (F.told files.new) (λ m. FitsTexts
        (IsPlanned m (F.faults files.old) (F.faults files.new) cdl.now untypeds.now) result) }
{
    told(plan_texts(alloc, files, cdl, untypeds))
}

/// The answer of a command over texts.
fn told(found: Found) -> Answer
    ensures { result ≡ told found }
{
    match found {
        Ok(outcome) => Answer::Told { outcome },
        Err(Unread::Fault(fault, file)) => Answer::Refused { file, fault },
        Err(Unread::ReadFault(file)) => Answer::ReadFault { file },
        Err(Unread::NoMemory) => Answer::NoMemory,
    }
}
