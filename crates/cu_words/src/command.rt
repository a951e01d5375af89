//! The command line as `clap` reads it.
ghost use Rattle.std.specs.Prelude.{◌≡◌, IfOk, false};
ghost use Rattle.clap.specs.Words.{app_of, rule_of, shape_of};
ghost use Rattle.clap.specs.declared.builder.command.Command.TheViews.{out-Command as fields_of};
ghost use Rattle.cu_words.specs.Command.{check, compile, curry, option, session};
ghost use Rattle.cu_words.specs.Command.{solve, trial};

use clap::{Arg, Command};
use std::alloc::{AllocError, Global};

/// The command line: one of five commands, with no words for help or version.
pub fn command_line<'a>(alloc: Global) -> Result<Command<'a>, AllocError>
    ensures { IfOk result (λ made. app_of made ≡ curry) }
{
    let solve = solve_command(alloc)?;
    let compile = compile_command(alloc)?;
    let trial = trial_command(alloc)?;
    let check = check_command(alloc)?;
    Command::new(alloc, "curry")
        .no_binary_name(true)
        .disable_help_flag(true)
        .disable_help_subcommand(true)
        .disable_version_flag(true)
        .subcommand_required(true)
        .subcommand(solve)?
        .subcommand(compile)?
        .subcommand(trial)?
        .subcommand(check)?
        .subcommand(session_command(alloc))
}

fn solve_command<'a>(alloc: Global) -> Result<Command<'a>, AllocError>
    ensures shape { IfOk result (λ made. shape_of made ≡ solve) }
    ensures local { IfOk result (λ made. (fields_of made).has_globals ≡ false) }
{
    Command::new(alloc, "solve")
        .arg(Arg::new(alloc, "MODULE").required(true))?
        .arg(option(alloc, "goal").required(true))?
        .arg(option(alloc, "dir").default_value("."))?
        .arg(option(alloc, "workers"))?
        .arg(option(alloc, "rounds").default_value("100000"))?
        .arg(option(alloc, "answers"))?
        .arg(option(alloc, "nodes").default_value("1000000"))?
        .arg(option(alloc, "width").default_value("65536"))?
        .arg(option(alloc, "stride").default_value("1"))
}

fn compile_command<'a>(alloc: Global) -> Result<Command<'a>, AllocError>
    ensures shape { IfOk result (λ made. shape_of made ≡ compile) }
    ensures local { IfOk result (λ made. (fields_of made).has_globals ≡ false) }
{
    Command::new(alloc, "compile")
        .arg(Arg::new(alloc, "MODULE").required(true))?
        .arg(option(alloc, "dir").default_value("."))
}

fn trial_command<'a>(alloc: Global) -> Result<Command<'a>, AllocError>
    ensures shape { IfOk result (λ made. shape_of made ≡ trial) }
    ensures local { IfOk result (λ made. (fields_of made).has_globals ≡ false) }
{
    Command::new(alloc, "trial")
        .arg(Arg::new(alloc, "N").required(true))?
        .arg(option(alloc, "workers"))?
        .arg(option(alloc, "width").default_value("65536"))?
        .arg(option(alloc, "stride").default_value("1"))
}

fn check_command<'a>(alloc: Global) -> Result<Command<'a>, AllocError>
    ensures shape { IfOk result (λ made. shape_of made ≡ check) }
    ensures local { IfOk result (λ made. (fields_of made).has_globals ≡ false) }
{
    Command::new(alloc, "check")
        .arg(Arg::new(alloc, "MODULE").required(true))?
        .arg(Arg::new(alloc, "FILE").required(true))?
        .arg(option(alloc, "dir").default_value("."))
}

fn session_command<'a>(alloc: Global) -> Command<'a>
    ensures shape { shape_of result ≡ session }
    ensures local { (fields_of result).has_globals ≡ false }
{
    Command::new(alloc, "session")
}

/// An option of this name that has a value.
fn option(alloc: Global, name: &str) -> Arg<'_>
    ensures rule { rule_of result ≡ option name.entry.now }
    ensures local { result.global ≡ false }
{
    Arg::new(alloc, name).long(name)
}
