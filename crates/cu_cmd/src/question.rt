//! Questions of a session.
ghost use Rattle.std.specs.Prelude.{◌≡◌, ◌≤◌, IfOk, Some};
ghost use Rattle.cu_calculus.specs.FlatProgram as flats;
ghost use Rattle.cu_cmd.specs.Replies.{asked_for};
ghost use Rattle.cu_cmd.specs.Inside.Conversations.{GoesOn, IsOpen, ListsOn, place_of};
ghost use Rattle.cu_flat.specs.Layout.{laid_out};
ghost use Rattle.cu_front.specs.CompileAnswers.{HasGoal};
ghost use Rattle.cu_kernel.specs.Kernel.{Goal};
ghost use Rattle.cu_search.specs.Rounds.{IsWorkerCount};
ghost use Rattle.cu_search.specs.Standing.{IsGoing, widest};

use crate::reply::Reply;
use crate::search::Workers;
use cu_front::Compiled;
use cu_graph::Store;
use cu_machine::SearchLimits;
use cu_names::Names;
use cu_pile::Gate;
use cu_search::{Paused, Round, Search};
use std::alloc::{AllocError, Global};
use std::mem;
use std::thread::Threads;

/// A question that is open: a goal and how far its listing has been replied.
#[derive(Drop)]
pub(crate) struct Question<S: Store> {
    /// The names of the program. No other module's or goal's are added.
    pub(crate) names: Names,
    pub(crate) compiled: Compiled,
    pub(crate) paused: Paused<S>,
    /// How many workers the search has, 1 to 64, where a number is named.
    pub(crate) workers: Option<u32>,
}

/// The search for the values of a compiled goal, before its first round.
pub(crate) fn begin<S: Store>(
    alloc: Global,
    names: &Names,
    compiled: &Compiled,
    limits: SearchLimits,
) -> Result<Paused<S>, AllocError>
    requires goal { HasGoal names.now compiled.now.program compiled.now.flat }
    requires layout { compiled.now.flat ≡ laid_out (flats.program_of compiled.now.flat) }
    requires width { limits.step.width ≤ widest }
    ensures begun { IfOk result (λ paused. (goal : Goal) → compiled.now.program.goal ≡ Some goal
        → place_of S.content names.now compiled.now paused
        ≡ asked_for limits names.now compiled.now.program
        (flats.program_of compiled.now.flat) goal) }
    ensures going { IfOk result (λ paused.
        IsGoing (place_of S.content names.now compiled.now paused)) }
{
    // A compiled goal always has one, which is tested here once more.
    let Some(goal) = compiled.program.goal() else {
        return Err(AllocError);
    };
    let search = Search::<S>::open(
        alloc,
        &compiled.flat,
        &compiled.program,
        names,
        goal,
        limits,
    )?;
    Ok(search.pause())
}

/// Writes the next lines of a question at the end of a reply, and answers the
/// search after them, unless the listing ended.
pub(crate) fn list_on<S: Store + Send + Sync, R: Threads + Sync, G: Gate + Sync>(
    alloc: Global,
    workers: &Workers<'_, R, G>,
    names: &Names,
    compiled: &Compiled,
    paused: Paused<S>,
    reply: &mut Vec<u8>,
) -> Result<Option<Paused<S>>, AllocError>
    requires workers { IsWorkerCount workers.now.count }
    requires goal { HasGoal names.now compiled.now.program compiled.now.flat }
    requires going { IsGoing (place_of S.content names.now compiled.now paused) }
    ensures { IfOk result (ListsOn S.content names.now compiled.now paused
        reply.old.items reply.new.items) }
{
    // A compiled goal always has one, which is tested here once more.
    let Some(goal) = compiled.program.goal() else {
        return Err(AllocError);
    };
    let mut search = Search::resume(&compiled.flat, &compiled.program, names, goal, paused);
    let mut sink = Reply::new(mem::replace(reply, Vec::new(alloc)));
    let Ok(round) = search.next_lines(workers.rt, workers.count, workers.gate, &mut sink) else {
        return Err(AllocError);
    };
    *reply = sink.bytes;
    match round {
        Round::Going => Ok(Some(search.pause())),
        Round::Ended(_) => Ok(None),
    }
}

/// A question, and the reply to which its next lines are added.
#[derive(Drop)]
pub(crate) struct Pending<S: Store> {
    pub(crate) question: Question<S>,
    pub(crate) reply: Vec<u8>,
}

/// A question after its next lines, unless its listing ended, and the reply
/// that has them.
#[derive(Drop)]
pub(crate) struct Listed<S: Store> {
    pub(crate) question: Option<Question<S>>,
    pub(crate) reply: Vec<u8>,
}

/// Adds the next lines of a question to a reply.
pub(crate) fn go_on<S: Store + Send + Sync, R: Threads + Sync, G: Gate + Sync>(
    alloc: Global,
    workers: &Workers<'_, R, G>,
    pending: Pending<S>,
) -> Result<Listed<S>, AllocError>
    requires { IsOpen S.content pending.question }
    ensures { IfOk result (GoesOn S.content pending) }
{
    let Pending {
        question,
        mut reply,
    } = pending;
    let Question {
        names,
        compiled,
        paused,
        workers: count,
    } = question;
    let workers = Workers {
        rt: workers.rt,
        gate: workers.gate,
        count,
    };
    let left = list_on(alloc, &workers, &names, &compiled, paused, &mut reply)?;
    match left {
        Some(paused) => Ok(Listed {
            question: Some(Question {
                names,
                compiled,
                paused,
                workers: count,
            }),
            reply,
        }),
        None => Ok(Listed {
            question: None,
            reply,
        }),
    }
}
