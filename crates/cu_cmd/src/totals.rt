//! What the lines of a listing come to.
ghost use Rattle.std.specs.Prelude.{◌≡◌, ◌≤◌, IfOk, OnErr, OnOk, Some, string_bytes};
ghost use Rattle.std.specs.List.{concat};
ghost use Rattle.cu_calculus.specs.FlatProgram as flats;
ghost use Rattle.cu_cmd.specs.Report as report;
ghost use Rattle.cu_cmd.specs.Inside.Runs.{HasWriteCause, IsCompleted};
ghost use Rattle.cu_cmd.specs.Trials as trials;
ghost use Rattle.cu_cmd.specs.Trials.{totals_pieces, totals_text};
ghost use Rattle.cu_flat.specs.Layout.{laid_out};
ghost use Rattle.cu_front.specs.CompileAnswers.{HasGoal};
ghost use Rattle.cu_kernel.specs.Kernel.{Goal};
ghost use Rattle.cu_search.specs.Rounds.{IsWorkerCount};
ghost use Rattle.cu_search.specs.Standing.{widest};
ghost use Rattle.cu_search.specs.Written.{Adds, AddsPrefix};
ghost use Rattle.cu_theorem.specs.Listed.{listing_of};

use crate::fault::RunFault;
use crate::pieces::write_piece;
use crate::problem::Problem;
use crate::search::{Workers, status_of};
use crate::status::Status;
use cu_frozen::FrozenStore;
use cu_io::Sink;
use cu_machine::End;
use cu_pile::Gate;
use cu_search::{Search, Totals, write_last_line};
use std::alloc::{AllocError, Global};
use std::thread::Threads;

/// Writes what the listing of a goal comes to and how it ends, and answers how
/// the run ends.
pub(crate) fn total<R: Threads + Sync, G: Gate + Sync, S: Sink>(
    alloc: Global,
    workers: &Workers<'_, R, G>,
    problem: &Problem<'_>,
    output: &mut S,
) -> Result<Status, RunFault>
    requires goal { HasGoal problem.now.names.now problem.now.compiled.now.program
        problem.now.compiled.now.flat }
    requires layout { problem.now.compiled.now.flat
        ≡ laid_out (flats.program_of problem.now.compiled.now.flat) }
    requires workers { IsWorkerCount workers.now.count }
    requires width { problem.now.limits.step.width ≤ widest }
    ensures status { (goal : Goal) → problem.now.compiled.now.program.goal ≡ Some goal
        → IfOk result (λ status. status ≡ report.status_of (listing_of problem.now.limits
        (flats.program_of problem.now.compiled.now.flat) goal).end) }
    ensures solved { IfOk result IsCompleted }
    ensures whole { (goal : Goal) → problem.now.compiled.now.program.goal ≡ Some goal
        → OnOk result (Adds (S.written output.old) (S.written output.new) (totals_text
        (listing_of problem.now.limits (flats.program_of problem.now.compiled.now.flat) goal))) }
    ensures prefix { (goal : Goal) → problem.now.compiled.now.program.goal ≡ Some goal
        → OnErr result (AddsPrefix (S.written output.old) (S.written output.new) (totals_text
        (listing_of problem.now.limits (flats.program_of problem.now.compiled.now.flat) goal))) }
    ensures cause { HasWriteCause result (S.fault_count output.old) (S.fault_count output.new) }
{
    let compiled = problem.compiled;
    let Some(goal) = compiled.program.goal() else {
        return Err(RunFault::NoMemory);
    };
    let mut search = Search::<FrozenStore>::open(
        alloc,
        &compiled.flat,
        &compiled.program,
        problem.names,
        goal,
        problem.limits,
    )?;
    let found = search.tally(workers.rt, workers.count, workers.gate)?;
    write_totals(alloc, found.1, found.0, output)?;
    Ok(status_of(found.0))
}

/// Writes what lines come to, and how their listing ends, in three lines.
fn write_totals<S: Sink>(
    alloc: Global,
    totals: Totals,
    end: End,
    output: &mut S,
) -> Result<(), RunFault>
    ensures whole { OnOk result
        (Adds (S.written output.old) (S.written output.new)
        (concat (totals_pieces totals end))) }
    ensures prefix { OnErr result
        (AddsPrefix (S.written output.old) (S.written output.new)
        (concat (totals_pieces totals end))) }
    ensures cause { HasWriteCause result (S.fault_count output.old) (S.fault_count output.new) }
{
    let answers = answers_line(alloc, totals.lines)?;
    let sum = sum_line(alloc, totals.sum)?;
    write_piece(output, answers.as_str())?;
    write_piece(output, sum.as_str())?;
    write_last_line(alloc, end, output)?;
    Ok(())
}

fn answers_line(alloc: Global, lines: u64) -> Result<String, AllocError>
    ensures { IfOk result (λ line. string_bytes line ≡ trials.answers_line lines) }
{
    format!(in alloc; "answers {lines}\n")
}

fn sum_line(alloc: Global, sum: i128) -> Result<String, AllocError>
    ensures { IfOk result (λ line. string_bytes line ≡ trials.sum_line sum) }
{
    format!(in alloc; "sum {sum}\n")
}
