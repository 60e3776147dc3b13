ghost use Rattle.clap.specs.Words.{first_of, found_of, rows_of};
ghost use Rattle.command_words.specs.Clap.{made_of};
ghost use Rattle.command_words.specs.Words.{AreUtf8, count_of, read_words};
ghost use Rattle.std.specs.Prelude.{◌≡◌, IfOk, MatchResult, None, Some, map, option_and_then, string_bytes};

use crate::count::count_in;
use crate::reader::program;
use crate::{Command, WordsError};
use cam_base::Text;
use clap::ArgMatches;
use clap::error::ErrorKind;
use std::alloc::Global;

/// The word that was given for an argument.
fn text_of(alloc: Global, matches: &ArgMatches, id: &str) -> Result<Text, WordsError>
    ensures { MatchResult result (λ t. first_of id.now (rows_of (found_of matches.now)) ≡ Some t)
        (λ e. e ≡ WordsError.Usage → first_of id.now (rows_of (found_of matches.now)) ≡ None) }
{
    match matches.get_str(id) {
        Some(text) => Ok(Text::new(alloc, text.as_bytes())?),
        None => Err(WordsError::Usage),
    }
}

/// The count that was given for an argument.
fn count_of(matches: &ArgMatches, id: &str) -> Result<u64, WordsError>
    ensures { MatchResult result (λ n. option_and_then count_of (first_of id.now (rows_of (found_of matches.now))) ≡ Some n)
        (λ _. option_and_then count_of (first_of id.now (rows_of (found_of matches.now))) ≡ None) }
{
    let Some(word) = matches.get_str(id) else {
        return Err(WordsError::Usage);
    };
    match count_in(word.as_bytes()) {
        Some(count) => Ok(count),
        None => Err(WordsError::Usage),
    }
}

fn command_from(alloc: Global, name: &str, matches: &ArgMatches) -> Result<Command, WordsError>
    ensures { MatchResult result (λ c. made_of name.now (rows_of (found_of matches.now)) ≡ Some c)
        (λ e. e ≡ WordsError.Usage → made_of name.now (rows_of (found_of matches.now)) ≡ None) }
{
    match name {
        "compile" => Ok(Command::Compile {
            root: text_of(alloc, matches, "ROOT")?,
            base: text_of(alloc, matches, "BASE")?,
        }),
        "check" => Ok(Command::Check {
            cdl: text_of(alloc, matches, "CDL")?,
            policy: text_of(alloc, matches, "POLICY")?,
            cert: text_of(alloc, matches, "CERT")?,
        }),
        "list" => Ok(Command::List {
            root: text_of(alloc, matches, "ROOT")?,
        }),
        "explain" => Ok(Command::Explain {
            root: text_of(alloc, matches, "ROOT")?,
            from: text_of(alloc, matches, "FROM")?,
            authority: text_of(alloc, matches, "AUTHORITY")?,
            to: text_of(alloc, matches, "TO")?,
        }),
        "replay" => Ok(Command::Replay {
            cdl: text_of(alloc, matches, "CDL")?,
            policy: text_of(alloc, matches, "POLICY")?,
            steps: text_of(alloc, matches, "STEPS")?,
        }),
        "generate" => Ok(Command::Generate {
            count: count_of(matches, "N")?,
        }),
        "audit" => Ok(Command::Audit {
            cdl: text_of(alloc, matches, "CDL")?,
            policy: text_of(alloc, matches, "POLICY")?,
        }),
        "certify" => Ok(Command::Certify {
            cdl: text_of(alloc, matches, "CDL")?,
            policy: text_of(alloc, matches, "POLICY")?,
        }),
        "sections" => Ok(Command::Sections {
            elf: text_of(alloc, matches, "ELF")?,
        }),
        "plan" => Ok(Command::Plan {
            cdl: text_of(alloc, matches, "CDL")?,
            untypeds: text_of(alloc, matches, "UNTYPEDS")?,
        }),
        _ => Err(WordsError::Usage),
    }
}

/// The command that the words behind the program's name ask for, or `Usage` where they ask for none:
/// `specs/Words.antt`. Only want of memory may come in place of either.
pub fn read_words(alloc: Global, words: &[String]) -> Result<Command, WordsError>
    ensures read { MatchResult result (λ command. read_words (map string_bytes words.now) ≡ Some command)
        (λ e. e ≡ WordsError.Usage → read_words (map string_bytes words.now) ≡ None) }
    ensures utf8 { IfOk result AreUtf8 }
{
    let reader = program(alloc)?;
    match reader.try_get_matches_from(words) {
        Ok(matches) => match matches.subcommand() {
            Some((name, inner)) => command_from(alloc, name, inner),
            None => Err(WordsError::Usage),
        },
        Err(error) => match error.kind() {
            ErrorKind::OutOfMemory => Err(WordsError::NoMemory),
            _ => Err(WordsError::Usage),
        },
    }
}
