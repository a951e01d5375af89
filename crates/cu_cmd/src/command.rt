//! The commands of the line.
ghost use Rattle.std.specs.Prelude.{◌≡◌, IfOk, IfSome, List, Some, ℕ};
ghost use Rattle.cu_cmd.specs.Report.{AsksNothing, CommandReport};
ghost use Rattle.cu_cmd.specs.Inside.Runs.{Ends, EndsWhole, HasCommandCause, IsCompleted};
ghost use Rattle.cu_cmd.specs.declared.status.Status.TheVariants.{Done};
ghost use Rattle.cu_search.specs.Rounds.{IsWorkerCount};
ghost use Rattle.cu_words.specs.Words.{HasItsRanges, Serving, asked, workers_asked};

use crate::checking::check;
use crate::compiling::compile;
use crate::fault::RunFault;
use crate::search::Workers;
use crate::session::session;
use crate::solving::solve;
use crate::status::Status;
use crate::trying::run_trial;
use cu_io::{Library, Sink, Source};
use cu_pile::Gate;
use cu_words::Asked;
use std::alloc::Global;
use std::thread::Threads;

/// How many workers the words of a command ask for, where they name a number.
pub(crate) fn workers_of(command: &Asked<'_>) -> Option<u32>
    requires ranges { HasItsRanges (asked command.now) }
    ensures asked { result ≡ workers_asked (asked command.now) }
    ensures range { IsWorkerCount result }
{
    match command {
        Asked::Solve(solve) => solve.workers,
        Asked::Compile(_) => None,
        Asked::Check(_) => None,
        Asked::Session => None,
        Asked::Trial(trial) => trial.workers,
    }
}

/// Writes what is due for a command, and answers how the run ends.
pub(crate) fn run<R: Threads + Sync, G: Gate + Sync, L: Library, O: Source, S: Sink>(
    alloc: Global,
    workers: &Workers<'_, R, G>,
    command: Asked<'_>,
    library: &mut L,
    input: &mut O,
    output: &mut S,
) -> Result<Status, RunFault>
    requires workers { IsWorkerCount workers.now.count }
    requires ranges { HasItsRanges (asked command) }
    ensures ends { IfSome (L.holdings library.old) (λ held. (text : List ℕ)
        → (asked command.entry ≡ Serving → O.remaining input.old ≡ Some text)
        → Ends result (CommandReport held text (asked command.entry))
        (S.written output.old) (S.written output.new)) }
    ensures whole { EndsWhole result (asked command.entry)
        (S.written output.old) (S.written output.new) }
    ensures solved { IfOk result IsCompleted }
    ensures served { asked command.entry ≡ Serving → IfOk result (λ status. status ≡ Done) }
    ensures cause { HasCommandCause result
        (record {
          library = L.fault_count library.old;
          input = O.fault_count input.old;
          output = S.fault_count output.old;
        })
        (record {
          library = L.fault_count library.new;
          input = O.fault_count input.new;
          output = S.fault_count output.new;
        }) }
    ensures library { AsksNothing (asked command.entry) → library.new ≡ library.old }
    ensures input { (asked command.entry ≡ Serving → ⊥) → input.new ≡ input.old }
{
    match command {
        Asked::Solve(asked) => solve(alloc, workers, asked, library, output),
        Asked::Compile(asked) => compile(alloc, asked, library, output),
        Asked::Check(asked) => check(alloc, asked, library, output),
        Asked::Session => session(alloc, workers, library, input, output),
        Asked::Trial(trial) => run_trial(alloc, workers, trial, output),
    }
}
