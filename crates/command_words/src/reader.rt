ghost use Rattle.clap.specs.Words.{app_of, with_subcommand};
ghost use Rattle.clap.specs.declared.builder.command.Command.TheViews.{out-Command as fields_of};
ghost use Rattle.command_words.specs.Clap.{bare, leaf, reader};
ghost use Rattle.std.specs.Prelude.{◌≡◌, false, IfOk, map, []};

use clap::{Arg, Command as ClapCommand};
use std::alloc::{AllocError, Global};

/// The program without its commands, and without words for help and version.
fn bare<'a>(alloc: Global) -> ClapCommand<'a>
    ensures { app_of result ≡ bare }
{
    ClapCommand::new(alloc, "camkes")
        .no_binary_name(true)
        .disable_help_flag(true)
        .disable_help_subcommand(true)
        .disable_version_flag(true)
        .subcommand_required(true)
}

/// One command, of which each slot takes one word.
fn subcommand<'a>(
    alloc: Global,
    name: &'a str,
    slots: &[&'a str],
) -> Result<ClapCommand<'a>, AllocError>
    ensures app { IfOk result (λ c. app_of c ≡ record { top = leaf name.entry.now (map (λ s. s.now) slots.now); subs = [] }) }
    ensures local { IfOk result (λ c. (fields_of c).has_globals ≡ false) }
{
    let mut command = ClapCommand::new(alloc, name);
    for slot in slots {
        command = command.arg(Arg::new(alloc, *slot).required(true))?;
    }
    Ok(command)
}

/// The program with one more command.
fn with<'a>(
    alloc: Global,
    program: ClapCommand<'a>,
    name: &'a str,
    slots: &[&'a str],
) -> Result<ClapCommand<'a>, AllocError>
    ensures { IfOk result (λ c. app_of c ≡ with_subcommand (app_of program.entry)
        (leaf name.entry.now (map (λ s. s.now) slots.now))) }
{
    let command = subcommand(alloc, name, slots)?;
    program.subcommand(command)
}

/// The program with its commands.
pub fn program<'a>(alloc: Global) -> Result<ClapCommand<'a>, AllocError>
    ensures { IfOk result (λ c. app_of c ≡ reader) }
{
    let program = bare(alloc);
    let program = with(alloc, program, "compile", ["ROOT", "BASE"].as_slice())?;
    let program = with(
        alloc,
        program,
        "check",
        ["CDL", "POLICY", "CERT"].as_slice(),
    )?;
    let program = with(alloc, program, "list", ["ROOT"].as_slice())?;
    let program = with(
        alloc,
        program,
        "explain",
        ["ROOT", "FROM", "AUTHORITY", "TO"].as_slice(),
    )?;
    let program = with(
        alloc,
        program,
        "replay",
        ["CDL", "POLICY", "STEPS"].as_slice(),
    )?;
    let program = with(alloc, program, "generate", ["N"].as_slice())?;
    let program = with(alloc, program, "audit", ["CDL", "POLICY"].as_slice())?;
    let program = with(alloc, program, "certify", ["CDL", "POLICY"].as_slice())?;
    let program = with(alloc, program, "sections", ["ELF"].as_slice())?;
    with(alloc, program, "plan", ["CDL", "UNTYPEDS"].as_slice())
}
