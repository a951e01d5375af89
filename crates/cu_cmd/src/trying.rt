//! The command `trial`.
ghost use Rattle.std.specs.Prelude.{◌≡◌, ◌≤◌, IfOk, string_bytes};
ghost use Rattle.cu_cmd.specs.Report.{TrialReport};
ghost use Rattle.cu_cmd.specs.Inside.Runs.{Ends, EndsWhole, HasWriteCause, IsCompleted};
ghost use Rattle.cu_cmd.specs.Trials as trials;
ghost use Rattle.cu_search.specs.Rounds.{IsWorkerCount};
ghost use Rattle.cu_search.specs.Standing.{widest};
ghost use Rattle.cu_words.specs.Words.{Trying, trial_of};

use crate::fault::RunFault;
use crate::problem::Problem;
use crate::search::Workers;
use crate::solving::refuse;
use crate::status::Status;
use crate::totals::total;
use cu_front::{Asked, CompileFault, compile};
use cu_io::{ShelfLibrary, Sink};
use cu_machine::{Limits, SearchLimits};
use cu_names::Names;
use cu_pile::Gate;
use cu_words::Trial;
use std::alloc::{AllocError, Global};
use std::thread::Threads;

/// Writes what the listing of a trial comes to, and answers how the run ends.
/// The module of trials is held in memory, and no other library is asked.
pub(crate) fn run_trial<R: Threads + Sync, G: Gate + Sync, S: Sink>(
    alloc: Global,
    workers: &Workers<'_, R, G>,
    trial: Trial,
    output: &mut S,
) -> Result<Status, RunFault>
    requires workers { IsWorkerCount workers.now.count }
    requires width { trial.width ≤ widest }
    ensures ends { Ends result (TrialReport (trial_of trial))
        (S.written output.old) (S.written output.new) }
    ensures whole { EndsWhole result (Trying (trial_of trial))
        (S.written output.old) (S.written output.new) }
    ensures solved { IfOk result IsCompleted }
    ensures cause { HasWriteCause result (S.fault_count output.old) (S.fault_count output.new) }
{
    let mut library = trial_library(alloc)?;
    let goal = trial_goal(alloc, trial.depth)?;
    let mut names = Names::new(alloc);
    let asked = Asked {
        root: "Trial",
        folder: "",
        goal: goal.as_str(),
    };
    match compile(alloc, &mut names, asked, &mut library) {
        Ok(compiled) => {
            let problem = Problem {
                names: &names,
                compiled: &compiled,
                limits: limits(&trial),
            };
            total(alloc, workers, &problem, output)
        }
        Err(CompileFault::Refused(refusal)) => refuse(alloc, &names, &refusal, output),
        // The library of trials is in memory, and none of its calls fails.
        Err(CompileFault::Fetch) => Err(RunFault::NoMemory),
        Err(CompileFault::NoMemory) => Err(RunFault::NoMemory),
    }
}

/// A library that holds the module of trials.
fn trial_library(alloc: Global) -> Result<ShelfLibrary, AllocError>
    ensures { IfOk result (λ library. library ≡ trials.trial_library) }
{
    let text = "bit = 0\nbit = 1\ngrow n x = if n == 0 then x else grow (n - 1) (x + x + bit)\n";
    let mut library = ShelfLibrary::new(alloc, Vec::new(alloc));
    library.add_module("", "Trial", text.as_bytes())?;
    Ok(library)
}

/// The goal of a trial.
fn trial_goal(alloc: Global, depth: u32) -> Result<String, AllocError>
    ensures { IfOk result (λ goal. string_bytes goal ≡ trials.trial_goal depth) }
{
    format!(in alloc; "grow {depth} 0")
}

/// The limits of a trial.
fn limits(trial: &Trial) -> SearchLimits
    ensures { result ≡ trials.trial_limits (trial_of trial.now) }
{
    SearchLimits {
        rounds: 100_000,
        answers: None,
        stride: trial.stride,
        step: Limits {
            nodes: 1_000_000,
            width: trial.width,
        },
    }
}
