//! The command `session`.
ghost use Rattle.std.specs.Prelude.{◌≡◌, ◌↔◌, List, IfOk, IfSome, IsTrue, Option, Some, ℕ};
ghost use Rattle.std.specs.Thread.{IsSync};
ghost use Rattle.cu_cmd.specs.Causes.{Counts};
ghost use Rattle.cu_cmd.specs.Inside.Conversations.{GoesOn, IsBegun, IsOpen, session_folder};
ghost use Rattle.cu_cmd.specs.Inside.Runs.{Ends, HasCommandCause};
ghost use Rattle.cu_cmd.specs.Inside.Served.{HasCounts, Served};
ghost use Rattle.cu_cmd.specs.Sessions.{SessionReport};
ghost use Rattle.cu_cmd.specs.declared.status.Status.TheVariants.{Done};
ghost use Rattle.cu_front.specs.Compiling.{Folder};
ghost use Rattle.cu_io.specs.Rose.{Rose};

use crate::asking::Replier;
use crate::conversation::Conversation;
use crate::fault::RunFault;
use crate::pieces::write_piece;
use crate::question::{Listed, Pending, go_on};
use crate::search::Workers;
use crate::status::Status;
use cu_frozen::FrozenStore;
use cu_io::{Library, Sink, Source};
use cu_pile::Gate;
use cu_session::{SessionEnd, serve};
use std::alloc::{AllocError, Global};
use std::thread::Threads;

/// Replies to the lines of the input, and answers how the run ends.
pub(crate) fn session<R: Threads + Sync, G: Gate + Sync, L: Library, O: Source, S: Sink>(
    alloc: Global,
    workers: &Workers<'_, R, G>,
    library: &mut L,
    input: &mut O,
    output: &mut S,
) -> Result<Status, RunFault>
    ensures ends { IfSome (L.holdings library.old) (λ held. (text : List ℕ)
        → O.remaining input.old ≡ Some text
        → Ends result (SessionReport (session_folder held) text)
        (S.written output.old) (S.written output.new)) }
    ensures status { IfOk result (λ status. status ≡ Done) }
    ensures cause { HasCommandCause result
        (record {
          library = L.fault_count library.old;
          input = O.fault_count input.old;
          output = S.fault_count output.old;
        })
        (record {
          library = L.fault_count library.new;
          input = O.fault_count input.new;
          output = S.fault_count output.new;
        }) }
{
    let before = library.faults();
    let mut conversation = Conversation::<FrozenStore>::new();
    let served = reply_to_lines(alloc, workers, library, &mut conversation, input, output);
    let failed = rose(before, library.faults());
    close(served, failed, output)
}

/// Replies to the lines of the input, and says how the session ends.
fn reply_to_lines<R: Threads + Sync, G: Gate + Sync, L: Library, O: Source, S: Sink>(
    alloc: Global,
    workers: &Workers<'_, R, G>,
    library: &mut L,
    conversation: &mut Conversation<FrozenStore>,
    input: &mut O,
    output: &mut S,
) -> Result<SessionEnd, AllocError>
    requires { IsBegun (λ graph. graph) conversation.old }
    ensures replies { IfSome (L.holdings library.old) (λ held. (text : List ℕ)
        → O.remaining input.old ≡ Some text
        → Served result (session_folder held) text
        (L.fault_count library.old) (L.fault_count library.new)
        (S.written output.old) (S.written output.new)) }
    ensures counts { HasCounts result
        (record {
          library = L.fault_count library.old;
          input = O.fault_count input.old;
          output = S.fault_count output.old;
        })
        (record {
          library = L.fault_count library.new;
          input = O.fault_count input.new;
          output = S.fault_count output.new;
        }) }
{
    let next = move |pending: Pending<FrozenStore>| -> Result<Listed<FrozenStore>, AllocError>
        requires { IsSync R.row × IsSync G.row × IsOpen (λ graph. graph) pending.question }
        ensures { IfOk result (GoesOn (λ graph. graph) pending) }
    { go_on(alloc, workers, pending) };
    let mut replier = Replier {
        go_on: next,
        library,
        conversation,
    };
    serve(alloc, input, output, &mut replier)
}

/// Answers how a run ends whose session ended so, and where a line is too long
/// writes the line that says it. It is told whether the library failed.
fn close<S: Sink>(
    served: Result<SessionEnd, AllocError>,
    failed: bool,
    output: &mut S,
) -> Result<Status, RunFault>
    ensures ends { (folder : Folder) (text : List ℕ) (earlier later : ℕ) (before : Option (List ℕ))
        → Served served folder text earlier later before (S.written output.old)
        → (IsTrue failed ↔ Rose earlier later)
        → Ends result (SessionReport folder text) before (S.written output.new) }
    ensures status { IfOk result (λ status. status ≡ Done) }
    ensures cause { (begun ended : Counts) → HasCounts served begun ended
        → ended.output ≡ S.fault_count output.old
        → (IsTrue failed ↔ Rose begun.library ended.library)
        → HasCommandCause result begun (record ended { output = S.fault_count output.new }) }
{
    let end = served?;
    match end {
        SessionEnd::EndOfInput => Ok(Status::Done),
        SessionEnd::Quit => {
            // Where a module couldn't be fetched, the session quit without a reply.
            if failed {
                return Err(RunFault::Read);
            }
            Ok(Status::Done)
        }
        SessionEnd::ReadFault => Err(RunFault::Read),
        SessionEnd::WriteFault => Err(RunFault::Write),
        SessionEnd::LineTooLong => {
            write_piece(output, "line too long\n")?;
            Ok(Status::Done)
        }
    }
}

/// Whether a count of faults rose, or stands at the last number that it can
/// show.
fn rose(before: u64, after: u64) -> bool
    ensures { IsTrue result ↔ Rose before after }
{
    after > before || after == u64::MAX
}
