//! The command `solve`.
ghost use Rattle.std.specs.Prelude.{◌≡◌, ◌≤◌, IfOk, IfSome, OnErr, OnOk};
ghost use Rattle.cu_cmd.specs.Report.{SolveReport};
ghost use Rattle.cu_cmd.specs.Inside.Runs.{Ends, EndsWhole, HasRunCause, HasWriteCause, IsCompleted};
ghost use Rattle.cu_cmd.specs.declared.status.Status.TheVariants.{Refused};
ghost use Rattle.cu_front.specs.RefusalLine.{refusal_line};
ghost use Rattle.cu_front.specs.RefusalMeaning.{RefusalIsKnown, refusal_meaning};
ghost use Rattle.cu_search.specs.Rounds.{IsWorkerCount};
ghost use Rattle.cu_search.specs.Standing.{widest};
ghost use Rattle.cu_search.specs.Written.{Adds, AddsPrefix};
ghost use Rattle.cu_words.specs.Words.{Solving, solve_of};

use crate::fault::RunFault;
use crate::pieces::write_piece;
use crate::problem::Problem;
use crate::search::{Workers, list};
use crate::status::Status;
use cu_front::{Asked, CompileFault, Refusal, compile};
use cu_io::{Library, Sink};
use cu_names::Names;
use cu_pile::Gate;
use cu_words::Solve;
use std::alloc::Global;
use std::thread::Threads;

/// Writes what is due for a solve, the line of the refusal or the listing, and
/// answers how the run ends.
pub(crate) fn solve<R: Threads + Sync, G: Gate + Sync, L: Library, S: Sink>(
    alloc: Global,
    workers: &Workers<'_, R, G>,
    solve: Solve<'_>,
    library: &mut L,
    output: &mut S,
) -> Result<Status, RunFault>
    requires workers { IsWorkerCount workers.now.count }
    requires width { solve.limits.step.width ≤ widest }
    ensures ends { IfSome (L.holdings library.old) (λ held.
        Ends result (SolveReport held (solve_of solve.entry))
        (S.written output.old) (S.written output.new)) }
    ensures whole { EndsWhole result (Solving (solve_of solve.entry))
        (S.written output.old) (S.written output.new) }
    ensures solved { IfOk result IsCompleted }
    ensures cause { HasRunCause result
        (record { library = L.fault_count library.old; output = S.fault_count output.old })
        (record { library = L.fault_count library.new; output = S.fault_count output.new }) }
{
    let mut names = Names::new(alloc);
    let asked = Asked {
        root: solve.module,
        folder: solve.folder,
        goal: solve.goal,
    };
    match compile(alloc, &mut names, asked, library) {
        Ok(compiled) => {
            let problem = Problem {
                names: &names,
                compiled: &compiled,
                limits: solve.limits,
            };
            list(alloc, workers, &problem, output)
        }
        Err(CompileFault::Refused(refusal)) => refuse(alloc, &names, &refusal, output),
        Err(CompileFault::Fetch) => Err(RunFault::Read),
        Err(CompileFault::NoMemory) => Err(RunFault::NoMemory),
    }
}

/// Writes the line of a refusal, and answers how the run ends.
pub(crate) fn refuse<S: Sink>(
    alloc: Global,
    names: &Names,
    refusal: &Refusal,
    output: &mut S,
) -> Result<Status, RunFault>
    requires known { RefusalIsKnown names.now refusal.now }
    ensures status { IfOk result (λ status. status ≡ Refused) }
    ensures whole { OnOk result (Adds (S.written output.old) (S.written output.new)
        (refusal_line (refusal_meaning names.now refusal.now))) }
    ensures prefix { OnErr result (AddsPrefix (S.written output.old) (S.written output.new)
        (refusal_line (refusal_meaning names.now refusal.now))) }
    ensures cause { HasWriteCause result (S.fault_count output.old) (S.fault_count output.new) }
{
    let line = refusal.line(alloc, names)?;
    write_piece(output, line.as_str())?;
    Ok(Status::Refused)
}
