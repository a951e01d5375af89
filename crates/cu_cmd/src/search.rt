//! Listings of goals.
ghost use Rattle.std.specs.Prelude.{◌≡◌, ◌≤◌, IfOk, OnErr, OnOk, Some};
ghost use Rattle.cu_calculus.specs.FlatProgram as flats;
ghost use Rattle.cu_cmd.specs.Report as report;
ghost use Rattle.cu_cmd.specs.Inside.Runs.{HasWriteCause, IsCompleted};
ghost use Rattle.cu_cmd.specs.Listings.{listing_text};
ghost use Rattle.cu_flat.specs.Layout.{laid_out};
ghost use Rattle.cu_front.specs.CompileAnswers.{HasGoal};
ghost use Rattle.cu_kernel.specs.Kernel.{Goal};
ghost use Rattle.cu_search.specs.Rounds.{IsWorkerCount};
ghost use Rattle.cu_search.specs.Standing.{widest};
ghost use Rattle.cu_search.specs.Written.{Adds, AddsPrefix};
ghost use Rattle.cu_theorem.specs.Listed.{listing_of};

use crate::fault::RunFault;
use crate::problem::Problem;
use crate::status::Status;
use cu_frozen::FrozenStore;
use cu_io::Sink;
use cu_machine::End;
use cu_pile::Gate;
use cu_search::Search;
use std::alloc::Global;
use std::thread::Threads;

/// What runs the branches of a round side by side.
#[derive(Drop)]
pub(crate) struct Workers<'a, R, G> {
    pub(crate) rt: &'a R,
    pub(crate) gate: &'a G,
    /// How many workers there are to be, 1 to 64, where a number is named.
    pub(crate) count: Option<u32>,
}

/// Writes the listing of a goal, and answers how the run ends.
pub(crate) fn list<R: Threads + Sync, G: Gate + Sync, S: Sink>(
    alloc: Global,
    workers: &Workers<'_, R, G>,
    problem: &Problem<'_>,
    output: &mut S,
) -> Result<Status, RunFault>
    requires goal { HasGoal problem.now.names.now problem.now.compiled.now.program
        problem.now.compiled.now.flat }
    requires layout { problem.now.compiled.now.flat
        ≡ laid_out (flats.program_of problem.now.compiled.now.flat) }
    requires workers { IsWorkerCount workers.now.count }
    requires width { problem.now.limits.step.width ≤ widest }
    ensures status { (goal : Goal) → problem.now.compiled.now.program.goal ≡ Some goal
        → IfOk result (λ status. status ≡ report.status_of (listing_of problem.now.limits
        (flats.program_of problem.now.compiled.now.flat) goal).end) }
    ensures solved { IfOk result IsCompleted }
    ensures whole { (goal : Goal) → problem.now.compiled.now.program.goal ≡ Some goal
        → OnOk result (Adds (S.written output.old) (S.written output.new)
        (listing_text problem.now.names.now problem.now.compiled.now.program goal
        (listing_of problem.now.limits (flats.program_of problem.now.compiled.now.flat) goal))) }
    ensures prefix { (goal : Goal) → problem.now.compiled.now.program.goal ≡ Some goal
        → OnErr result (AddsPrefix (S.written output.old) (S.written output.new)
        (listing_text problem.now.names.now problem.now.compiled.now.program goal
        (listing_of problem.now.limits (flats.program_of problem.now.compiled.now.flat) goal))) }
    ensures cause { HasWriteCause result (S.fault_count output.old) (S.fault_count output.new) }
{
    let compiled = problem.compiled;
    let Some(goal) = compiled.program.goal() else {
        return Err(RunFault::NoMemory);
    };
    let mut search = Search::<FrozenStore>::open(
        alloc,
        &compiled.flat,
        &compiled.program,
        problem.names,
        goal,
        problem.limits,
    )?;
    let end = search.list(workers.rt, workers.count, workers.gate, output)?;
    Ok(status_of(end))
}

/// The status of a run whose listing has this end.
pub(crate) fn status_of(end: End) -> Status
    ensures status { result ≡ report.status_of end }
    ensures solved { IsCompleted result }
{
    match end {
        End::NoMore(0) => Status::Done,
        End::NoMore(_) => Status::Floundered,
        End::Rounds(_, _) => Status::Limit,
        End::Answers(_) => Status::Limit,
        End::Stopped(_, _) => Status::Stopped,
    }
}
