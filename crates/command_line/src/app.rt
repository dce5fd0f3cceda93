//! The definition of the program's commands, words and options for clap. clap's own help is off, since the program prints only what its contract says.

ghost use Rattle.std.specs.Prelude.{◌≡◌, IfOk, false, map};
ghost use Rattle.clap.specs.Words.{app_of, with_rule, with_subcommand};
ghost use Rattle.clap.specs.declared.builder.Command.TheViews.{out-Command as fields_of};
ghost use Rattle.command_line.specs.App.{argument, with_all, command_app, bare_app, peep_app};

use clap::{Arg, Command};
use std::alloc::{AllocError, Global};

/// The command with one more argument: an option, `--id`, or else a positional word.
fn with_argument<'a>(
    alloc: Global,
    command: Command<'a>,
    id: &'a str,
    is_option: bool,
) -> Result<Command<'a>, AllocError>
    requires { (fields_of command).has_globals ≡ false }
    ensures app { IfOk result (λ c. app_of c ≡ with_rule (app_of command.entry) (argument is_option id.entry.now)) }
    ensures own { IfOk result (λ c. (fields_of c).has_globals ≡ false) }
{
    let arg = Arg::new(alloc, id);
    if is_option {
        command.arg(arg.long(id))
    } else {
        command.arg(arg.required(true))
    }
}

/// The command with these further arguments: all options, or else all positional words.
fn with_arguments<'a>(
    alloc: Global,
    mut command: Command<'a>,
    ids: &[&'a str],
    are_options: bool,
) -> Result<Command<'a>, AllocError>
    requires { (fields_of command).has_globals ≡ false }
    ensures app { IfOk result (λ c. app_of c ≡ with_all (argument are_options) (app_of command.entry) (map (λ s. s.now) ids.entry.now)) }
    ensures own { IfOk result (λ c. (fields_of c).has_globals ≡ false) }
{
    for id in ids {
        command = with_argument(alloc, command, id, are_options)?;
    }
    Ok(command)
}

/// The program with one more command, of this name and with these positional words and options.
fn with_command<'a>(
    alloc: Global,
    program: Command<'a>,
    name: &'a str,
    words: &[&'a str],
    options: &[&'a str],
) -> Result<Command<'a>, AllocError>
    ensures { IfOk result (λ c. app_of c ≡ with_subcommand (app_of program.entry) (command_app name.entry.now (map (λ s. s.now) words.entry.now) (map (λ s. s.now) options.entry.now)).top) }
{
    let command = with_arguments(alloc, Command::new(alloc, name), words, false)?;
    let command = with_arguments(alloc, command, options, true)?;
    program.subcommand(command)
}

/// The program without its commands: one is required, and there is no help.
fn bare<'a>(alloc: Global) -> Command<'a>
    ensures { app_of result ≡ bare_app }
{
    Command::new(alloc, "peep")
        .no_binary_name(true)
        .disable_help_flag(true)
        .disable_help_subcommand(true)
        .subcommand_required(true)
}

/// The program with its commands.
pub fn peep<'a>(alloc: Global) -> Result<Command<'a>, AllocError>
    ensures { IfOk result (λ c. app_of c ≡ peep_app) }
{
    let program = bare(alloc);
    let program = with_command(
        alloc,
        program,
        "rewrite",
        &["table", "listing", "out", "image"],
        &["base"],
    )?;
    let program = with_command(alloc, program, "audit", &["table"], &[])?;
    let program = with_command(
        alloc,
        program,
        "learn",
        &["listing", "out"],
        &["regs", "left", "budget", "seed", "pool", "scratch", "costs"],
    )?;
    let program = with_command(
        alloc,
        program,
        "export",
        &["table", "entry", "cnf", "lrat"],
        &[],
    )?;
    let program = with_command(alloc, program, "trace", &["listing", "label", "steps"], &[])?;
    let program = with_command(alloc, program, "demo", &["windows"], &[])?;
    let program = with_command(alloc, program, "upgrade", &["table", "out"], &[])?;
    let program = with_command(alloc, program, "trim", &["table", "out"], &[])?;
    let program = with_command(alloc, program, "tidy", &["listing", "out"], &["base"])?;
    with_command(
        alloc,
        program,
        "generalise",
        &["table", "entry", "number", "low", "high", "out"],
        &[],
    )
}
