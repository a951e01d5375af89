//! The words of the command line.
ghost use Rattle.std.specs.Prelude.{◌≡◌, ℕ, List, Option, Some, IfNone, IfOk, IfSome, IsTrue};
ghost use Rattle.std.specs.Prelude.{codes, map, option_map, string_bytes};
ghost use Rattle.clap.specs.Words.{found_of, rows_of, first_of, subcommand_rows_of};
ghost use Rattle.cu_words.specs.Names as names;
ghost use Rattle.cu_words.specs.Words.{Asks, Has, HasDepth, HasItsRanges, HasLimits, HasNumber};
ghost use Rattle.cu_words.specs.Words.{IsCheck, IsCommand, IsCompile, IsMaybeNumber, IsSolve};
ghost use Rattle.cu_words.specs.Words.{IsTrial, ReadsAs, check_of, compile_of};
ghost use Rattle.cu_words.specs.Words.{asked, solve_of, trial_of};
ghost use Rattle.cu_words.specs.Words as spec;
ghost use Rattle.cu_machine.specs.declared.SearchLimits as machine;

use crate::asked::Asked;
use crate::check::Check;
use crate::command::command_line;
use crate::compile::Compile;
use crate::names::is_module_name;
use crate::numbers::read_number;
use crate::solve::Solve;
use crate::trial::Trial;
use clap::ArgMatches;
use clap::error::ErrorKind;
use cu_machine::{Limits, SearchLimits};
use std::alloc::{AllocError, Global};

/// What the words after the program's name ask for, or nothing where they
/// aren't in the grammar. The one error is an allocation failure.
pub fn read_words(alloc: Global, words: &[String]) -> Result<Option<Asked<'_>>, AllocError>
    ensures read { IfOk result (λ found. IfSome found (λ command.
        ReadsAs (map string_bytes words.now) (asked command))) }
    ensures refused { IfOk result (λ found. IfNone found
        (IsCommand (map string_bytes words.now) → ⊥)) }
    ensures ranges { IfOk result (λ found. IfSome found (λ command. HasItsRanges (asked command))) }
{
    match command_line(alloc)?.try_get_matches_from(words) {
        Ok(matches) => Ok(read_command(&matches)),
        Err(error) if error.kind() == ErrorKind::OutOfMemory => Err(AllocError),
        Err(_) => Ok(None),
    }
}

/// What the command that was met asks for.
fn read_command<'a>(matches: &ArgMatches<'a>) -> Option<Asked<'a>>
    ensures read { IfSome result
        (λ command. Asks (subcommand_rows_of matches.now) (asked command)) }
    ensures refused { IfNone result ((command : spec.Command) →
        Asks (subcommand_rows_of matches.now) command → ⊥) }
{
    match matches.subcommand()? {
        ("solve", found) => asked_solve(found),
        ("compile", found) => asked_compile(found),
        ("trial", found) => asked_trial(found),
        ("check", found) => asked_check(found),
        ("session", _) => Some(Asked::Session),
        _ => None,
    }
}

/// What the words after `solve` ask for, as a command.
fn asked_solve<'a>(found: &ArgMatches<'a>) -> Option<Asked<'a>>
    ensures read { IfSome result (λ command.
        Asks (Some (codes "solve", rows_of (found_of found.now))) (asked command)) }
    ensures refused { IfNone result ((command : spec.Command) →
        Asks (Some (codes "solve", rows_of (found_of found.now))) command → ⊥) }
{
    Some(Asked::Solve(read_solve(found)?))
}

/// What the words after `compile` ask for, as a command.
fn asked_compile<'a>(found: &ArgMatches<'a>) -> Option<Asked<'a>>
    ensures read { IfSome result (λ command.
        Asks (Some (codes "compile", rows_of (found_of found.now))) (asked command)) }
    ensures refused { IfNone result ((command : spec.Command) →
        Asks (Some (codes "compile", rows_of (found_of found.now))) command → ⊥) }
{
    Some(Asked::Compile(read_compile(found)?))
}

/// What the words after `trial` ask for, as a command.
fn asked_trial<'a>(found: &ArgMatches<'a>) -> Option<Asked<'a>>
    ensures read { IfSome result (λ command.
        Asks (Some (codes "trial", rows_of (found_of found.now))) (asked command)) }
    ensures refused { IfNone result ((command : spec.Command) →
        Asks (Some (codes "trial", rows_of (found_of found.now))) command → ⊥) }
{
    Some(Asked::Trial(read_trial(found)?))
}

/// What the words after `check` ask for, as a command.
fn asked_check<'a>(found: &ArgMatches<'a>) -> Option<Asked<'a>>
    ensures read { IfSome result (λ command.
        Asks (Some (codes "check", rows_of (found_of found.now))) (asked command)) }
    ensures refused { IfNone result ((command : spec.Command) →
        Asks (Some (codes "check", rows_of (found_of found.now))) command → ⊥) }
{
    Some(Asked::Check(read_check(found)?))
}

/// What the words after `solve` ask for: its module, goal, folder, workers and
/// limits.
fn read_solve<'a>(found: &ArgMatches<'a>) -> Option<Solve<'a>>
    ensures read { IfSome result (λ solve.
        IsSolve (rows_of (found_of found.now)) (solve_of solve)) }
    ensures refused { IfNone result ((solve : spec.Solve) →
        IsSolve (rows_of (found_of found.now)) solve → ⊥) }
{
    let module = read_module(found)?;
    let goal = text(found, "goal")?;
    let folder = text(found, "dir")?;
    let workers = read_workers(found)?;
    let limits = read_limits(found)?;
    Some(Solve {
        module,
        goal,
        folder,
        workers,
        limits,
    })
}

/// What the words after `compile` ask for: its module and folder.
fn read_compile<'a>(found: &ArgMatches<'a>) -> Option<Compile<'a>>
    ensures read { IfSome result (λ compile.
        IsCompile (rows_of (found_of found.now)) (compile_of compile)) }
    ensures refused { IfNone result ((compile : spec.Compile) →
        IsCompile (rows_of (found_of found.now)) compile → ⊥) }
{
    let module = read_module(found)?;
    let folder = text(found, "dir")?;
    Some(Compile { module, folder })
}

/// What the words after `check` ask for: its module, the path of its file, and
/// its folder.
fn read_check<'a>(found: &ArgMatches<'a>) -> Option<Check<'a>>
    ensures read { IfSome result (λ check.
        IsCheck (rows_of (found_of found.now)) (check_of check)) }
    ensures refused { IfNone result ((check : spec.Check) →
        IsCheck (rows_of (found_of found.now)) check → ⊥) }
{
    let module = read_module(found)?;
    let path = text(found, "FILE")?;
    let folder = text(found, "dir")?;
    Some(Check {
        module,
        path,
        folder,
    })
}

/// What the words after `trial` ask for: its numbers.
fn read_trial(found: &ArgMatches<'_>) -> Option<Trial>
    ensures read { IfSome result (λ trial.
        IsTrial (rows_of (found_of found.now)) (trial_of trial)) }
    ensures refused { IfNone result ((trial : spec.Trial) →
        IsTrial (rows_of (found_of found.now)) trial → ⊥) }
{
    let depth = read_depth(found)?;
    let workers = read_workers(found)?;
    let width = read_width(found)?;
    let stride = read_stride(found)?;
    Some(Trial {
        depth,
        workers,
        width,
        stride,
    })
}

/// The depth of a trial.
fn read_depth(found: &ArgMatches<'_>) -> Option<u32>
    ensures read { IfSome result (λ n. HasDepth (rows_of (found_of found.now)) n) }
    ensures refused { IfNone result ((n : ℕ) →
        HasDepth (rows_of (found_of found.now)) n → ⊥) }
{
    let depth = read_number(text(found, "N")?, 0, 14)?;
    Some(depth as u32)
}

fn read_module<'a>(found: &ArgMatches<'a>) -> Option<&'a str>
    ensures read { IfSome result (λ name.
        Has (rows_of (found_of found.now)) (codes "MODULE") name.now
        × IsTrue (names.is_module_name name.now)) }
    ensures refused { IfNone result ((name : List ℕ)
        → Has (rows_of (found_of found.now)) (codes "MODULE") name
        → IsTrue (names.is_module_name name) → ⊥) }
{
    let name = text(found, "MODULE")?;
    if is_module_name(name) {
        Some(name)
    } else {
        None
    }
}

/// The limits of the search that the words ask for.
fn read_limits(found: &ArgMatches<'_>) -> Option<SearchLimits>
    ensures read { IfSome result (λ limits. HasLimits (rows_of (found_of found.now)) limits) }
    ensures refused { IfNone result ((limits : machine.SearchLimits)
        → HasLimits (rows_of (found_of found.now)) limits → ⊥) }
{
    let rounds = number(found, "rounds", 1_000_000_000)?;
    let answers = read_answers(found)?;
    let nodes = small_number(found, "nodes", 16_777_216)?;
    let width = read_width(found)?;
    let stride = read_stride(found)?;
    Some(SearchLimits {
        rounds,
        answers,
        stride,
        step: Limits { nodes, width },
    })
}

/// The limit on answers, where the words have one.
fn read_answers(found: &ArgMatches<'_>) -> Option<Option<u64>>
    ensures read { IfSome result (λ answers. IsMaybeNumber 1000000000
        (first_of (codes "answers") (rows_of (found_of found.now))) answers) }
    ensures refused { IfNone result ((answers : Option ℕ) → IsMaybeNumber 1000000000
        (first_of (codes "answers") (rows_of (found_of found.now))) answers → ⊥) }
{
    match text(found, "answers") {
        Some(text) => Some(Some(read_number(text, 1, 1_000_000_000)?)),
        None => Some(None),
    }
}

/// How many workers the words ask for, where they name a number.
fn read_workers(found: &ArgMatches<'_>) -> Option<Option<u32>>
    ensures read { IfSome result (λ workers. IsMaybeNumber 64
        (first_of (codes "workers") (rows_of (found_of found.now))) workers) }
    ensures refused { IfNone result ((workers : Option ℕ) → IsMaybeNumber 64
        (first_of (codes "workers") (rows_of (found_of found.now))) workers → ⊥) }
{
    match text(found, "workers") {
        Some(text) => Some(Some(read_number(text, 1, 64)? as u32)),
        None => Some(None),
    }
}

/// How many branches a level may have, by the words.
fn read_width(found: &ArgMatches<'_>) -> Option<u32>
    ensures read { IfSome result (λ n.
        HasNumber (rows_of (found_of found.now)) (codes "width") 1048576 n) }
    ensures refused { IfNone result ((n : ℕ) →
        HasNumber (rows_of (found_of found.now)) (codes "width") 1048576 n → ⊥) }
{
    small_number(found, "width", 1_048_576)
}

/// How many steps a round takes a branch on, by the words.
fn read_stride(found: &ArgMatches<'_>) -> Option<u64>
    ensures read { IfSome result (λ n.
        HasNumber (rows_of (found_of found.now)) (codes "stride") 1000000 n) }
    ensures refused { IfNone result ((n : ℕ) →
        HasNumber (rows_of (found_of found.now)) (codes "stride") 1000000 n → ⊥) }
{
    number(found, "stride", 1_000_000)
}

/// The number that stands in the words under this name, where it is from 1 to
/// `high`.
fn number(found: &ArgMatches<'_>, name: &str, high: u64) -> Option<u64>
    ensures read { IfSome result (λ n.
        HasNumber (rows_of (found_of found.now)) name.now high n) }
    ensures refused { IfNone result ((n : ℕ) →
        HasNumber (rows_of (found_of found.now)) name.now high n → ⊥) }
{
    read_number(text(found, name)?, 1, high)
}

/// The number that stands in the words under this name, where it is from 1 to
/// `high`, in 32 bits.
fn small_number(found: &ArgMatches<'_>, name: &str, high: u32) -> Option<u32>
    ensures read { IfSome result (λ n.
        HasNumber (rows_of (found_of found.now)) name.now high n) }
    ensures refused { IfNone result ((n : ℕ) →
        HasNumber (rows_of (found_of found.now)) name.now high n → ⊥) }
{
    let number = number(found, name, u64::from(high))?;
    Some(number as u32)
}

/// What stands in the words under this name, or else by default.
fn text<'a>(found: &ArgMatches<'a>, name: &str) -> Option<&'a str>
    ensures { option_map (λ text. text.now) result
        ≡ first_of name.now (rows_of (found_of found.now)) }
{
    found.get_str(name)
}
