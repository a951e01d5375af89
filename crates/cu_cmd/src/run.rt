//! The call that runs a command: `top`.
ghost use Rattle.std.specs.Prelude.{◌≡◌, IfOk, IfSome, List, OnErr, OnOk, Some, codes, map, string_bytes, ℕ};
ghost use Rattle.cu_cmd.specs.Causes.{HasCause, IsNotUsage, IsOfSession, IsUsage};
ghost use Rattle.cu_cmd.specs.Depths.{ListsByDepth};
ghost use Rattle.cu_cmd.specs.Report.{AsksNothing, Report, usage_line};
ghost use Rattle.cu_cmd.specs.Sessions.{ListsQuestion};
ghost use Rattle.cu_cmd.specs.Inside.Runs.{HasWriteCause};
ghost use Rattle.cu_cmd.specs.Written.{Writes, WritesWhole};
ghost use Rattle.cu_cmd.specs.declared.status.Status.TheVariants.{Usage};
ghost use Rattle.cu_io.specs.Holdings.{Holdings};
ghost use Rattle.cu_machine.specs.declared.SearchLimits.{SearchLimits};
ghost use Rattle.cu_search.specs.Written.{Adds, AddsPrefix};
ghost use Rattle.cu_theorem.specs.Listed.{ListsSolutions};
ghost use Rattle.cu_words.specs.Words.{Command, IsCommand, ReadsAs, Serving, Solve, Solving};

use crate::command::{run, workers_of};
use crate::depths::answers_are_listed_by_depth;
use crate::fault::{RunFault, status_after};
use crate::pieces::write_piece;
use crate::questions::questions_are_listed;
use crate::search::Workers;
use crate::status::Status;
use cu_io::{Library, Sink, Source};
use cu_pile::Gate;
use cu_theorem::solutions_are_listed;
use cu_words::{one_reading, read_words};
use std::alloc::{AllocError, Global};
use std::thread::Threads;

/// Runs the command that the words say, and answers how it ended. A session
/// alone reads the input.
///
/// Over a library that doesn't tell what it holds, as the one over files, the
/// clause `report` says nothing: it speaks of a library that does. Nor does it
/// of a session over an input that doesn't tell what is left of it. What is
/// said of listings, in `solutions`, `depth`, `listed` and `session_solutions`,
/// is said of whatever may be held.
pub fn top<R: Threads + Sync, L: Library, O: Source, S: Sink, G: Gate + Sync>(
    rt: &R,
    alloc: Global,
    words: &[String],
    library: &mut L,
    input: &mut O,
    output: &mut S,
    gate: &G,
) -> Status
    // What is written, and the status, are the report's, as far as the library tells what it
    // holds, the sink what it took and, for a session, the input what is left.
    ensures report { IfSome (L.holdings library.old) (λ held. (text : List ℕ)
        → (ReadsAs (map string_bytes words.now) Serving → O.remaining input.old ≡ Some text)
        → Writes result (Report (map string_bytes words.now) held text)
        (S.written output.old) (S.written output.new)) }
    // What a solve lists are the solutions of its goal by the rules of the modules: each answer has
    // a derivation with call-time choice, in which set calls stand for all their values, and where
    // the listing ends with no more, and no branch waits, it covers each ground solution.
    ensures solutions { (held : Holdings) (solve : Solve)
        → ReadsAs (map string_bytes words.now) (Solving solve)
        → ListsSolutions (held.module_at solve.folder) solve.name solve.goal solve.limits }
    // An answer at depth d of the goal's search tree is listed in round d, so with `[d]`, where the
    // limits allow that many rounds and answers and the listing hasn't ended before it; by a stride
    // of more steps than one it is due in round d or an earlier one. No other answer is listed.
    ensures depth { (held : Holdings) (solve : Solve)
        → ReadsAs (map string_bytes words.now) (Solving solve)
        → ListsByDepth (held.module_at solve.folder) solve.name solve.goal solve.limits }
    // What a session lists of a question, without the dots, is the beginning of the listing that a
    // solve of its goal writes.
    ensures listed { (held : Holdings) (name text : List ℕ) (limits : SearchLimits)
        → ReadsAs (map string_bytes words.now) Serving
        → ListsQuestion (held.module_at (codes ".")) name text limits }
    // So what it lists are solutions, as those of a solve are.
    ensures session_solutions { (held : Holdings) (name text : List ℕ) (limits : SearchLimits)
        → ReadsAs (map string_bytes words.now) Serving
        → ListsSolutions (held.module_at (codes ".")) name text limits }
    // A session ends Done, or it broke off.
    ensures session_status { ReadsAs (map string_bytes words.now) Serving → IsOfSession result }
    // What a run wrote, by its status, also where the library doesn't tell what
    // it holds: the line for a wrong command line, the line of a refusal, or
    // the whole result of the command.
    ensures whole { WritesWhole (map string_bytes words.now) result
        (S.written output.old) (S.written output.new) }
    // Each status has its cause: counts of faults rise only where the status
    // says so.
    ensures cause { HasCause result
        (record {
          library = L.fault_count library.old;
          input = O.fault_count input.old;
          output = S.fault_count output.old;
        })
        (record {
          library = L.fault_count library.new;
          input = O.fault_count input.new;
          output = S.fault_count output.new;
        }) }
    ensures input { (ReadsAs (map string_bytes words.now) Serving → ⊥) → input.new ≡ input.old }
    // Words outside the command grammar, and no others, give the status Usage
    // and its line, unless the output fails or memory runs out, whatever the
    // library holds, and whether it tells that or not.
    ensures usage { (IsCommand (map string_bytes words.now) → ⊥) → IsUsage result }
    ensures usage_library { (IsCommand (map string_bytes words.now) → ⊥)
        → library.new ≡ library.old }
    ensures no_usage { IsCommand (map string_bytes words.now) → IsNotUsage result }
    ensures usage_report { (IsCommand (map string_bytes words.now) → ⊥) → (held : Holdings)
        (text : List ℕ) → Writes result (Report (map string_bytes words.now) held text)
        (S.written output.old) (S.written output.new) }
    // A trial asks nothing of the library.
    ensures own_library { (asked : Command) → ReadsAs (map string_bytes words.now) asked
        → AsksNothing asked → library.new ≡ library.old }
{
    solutions_are_listed();
    answers_are_listed_by_depth();
    questions_are_listed();
    match read_words(alloc, words) {
        Ok(Some(command)) => {
            one_reading();
            let workers = Workers {
                rt,
                gate,
                count: workers_of(&command),
            };
            status_after(run(alloc, &workers, command, library, input, output))
        }
        Ok(None) => status_after(write_usage(output)),
        Err(AllocError) => Status::NoMemory,
    }
}

/// Answers words outside the command grammar.
fn write_usage<S: Sink>(output: &mut S) -> Result<Status, RunFault>
    ensures status { IfOk result (λ status. status ≡ Usage) }
    ensures whole { OnOk result (Adds (S.written output.old) (S.written output.new) usage_line) }
    ensures prefix { OnErr result
        (AddsPrefix (S.written output.old) (S.written output.new) usage_line) }
    ensures cause { HasWriteCause result (S.fault_count output.old) (S.fault_count output.new) }
{
    write_piece(output, "bad command line\n")?;
    Ok(Status::Usage)
}
