ghost use Rattle.arch_compile.specs.Compiled.{AlikeInBuild};
ghost use Rattle.cam_io.specs.Reading.{InAll, KeepsFiles, LearnsOnly};
ghost use Rattle.camkes_tool.specs.Answers.{Fits, FitsCompiled, command_of};
ghost use Rattle.camkes_tool.specs.Learning.{AlikeInCommand};
ghost use Rattle.command_words.specs.Words.{AreUtf8};
ghost use Rattle.std.specs.Prelude.{Some};

use crate::Answer;
use crate::asking::{
    audited, certified, checked, explained, generated, listed, planned, refused, replayed, tabled,
};
use arch_compile::{TextNames, compile};
use cam_base::NoMemory;
use cam_io::Files;
use command_words::{Command, WordsError, as_name, read_words};
use explain::Question;
use std::alloc::Global;

/// Reads the words and the files, and says nothing yet.
pub fn decide<F: Files>(alloc: Global, words: &[String], files: &mut F) -> Answer
    ensures kept { KeepsFiles F.told F.faults files.old files.new }
    ensures learned { LearnsOnly F.told (AlikeInCommand (command_of words.now)) files.old files.new }
    ensures fits { InAll (F.told files.new) (λ m. Fits (command_of words.now) m (F.faults files.old)
        (F.faults files.new) result) }
{
    match read_words(alloc, words) {
        Ok(command) => follow(alloc, &command, files),
        Err(WordsError::Usage) => Answer::Usage,
        Err(WordsError::NoMemory) => Answer::NoMemory,
    }
}

/// Does what a command asks for, but for writing.
fn follow<F: Files>(alloc: Global, command: &Command, files: &mut F) -> Answer
    requires { AreUtf8 command.now }
    ensures kept { KeepsFiles F.told F.faults files.old files.new }
    ensures learned { LearnsOnly F.told (AlikeInCommand (Some command.now)) files.old files.new }
    ensures fits { InAll (F.told files.new) (λ m. Fits (Some command.now) m (F.faults files.old)
        (F.faults files.new) result) }
{
    match command {
        Command::Compile { root, base } => answer(alloc, as_name(root), as_name(base), files),
        Command::Check { cdl, policy, cert } => checked(
            alloc,
            as_name(cdl),
            as_name(policy),
            as_name(cert),
            files,
        ),
        Command::List { root } => listed(alloc, as_name(root), files),
        Command::Explain {
            root,
            from,
            authority,
            to,
        } => {
            let question = Question {
                from: from.as_bytes(),
                authority: authority.as_bytes(),
                to: to.as_bytes(),
            };
            explained(alloc, as_name(root), &question, files)
        }
        Command::Replay { cdl, policy, steps } => replayed(
            alloc,
            as_name(cdl),
            as_name(policy),
            as_name(steps),
            files,
        ),
        Command::Generate { count } => generated(alloc, *count),
        Command::Audit { cdl, policy } => audited(alloc, as_name(cdl), as_name(policy), files),
        Command::Certify { cdl, policy } => {
            certified(alloc, as_name(cdl), as_name(policy), files)
        }
        Command::Sections { elf } => tabled(alloc, as_name(elf), files),
        Command::Plan { cdl, untypeds } => planned(alloc, as_name(cdl), as_name(untypeds), files),
    }
}

/// Compiles the source of the root, and answers what is to be written under the base or what stands in the way.
fn answer<F: Files>(alloc: Global, root: &str, base: &str, files: &mut F) -> Answer
    ensures kept { KeepsFiles F.told F.faults files.old files.new }
    ensures learned { LearnsOnly F.told (AlikeInBuild root.now) files.old files.new }
    ensures fits { InAll (F.told files.new) (λ m. FitsCompiled root.now base.now
        m (F.faults files.old) (F.faults files.new) result) }
{
    match compile(alloc, files, root) {
        Ok(build) => match TextNames::of(alloc, base) {
            Ok(names) => Answer::Compiled { names, build },
            Err(NoMemory) => Answer::NoMemory,
        },
        Err(error) => refused(error),
    }
}
