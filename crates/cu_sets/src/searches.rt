//! One step of a branch in every state.
ghost use Rattle.std.specs.Prelude.{◌≡◌, ◌<◌, IfOk, IsFalse, IsTrue, length};
ghost use Rattle.std.specs.List.{All};
ghost use Rattle.cu_calculus.specs.Code.{Code};
ghost use Rattle.cu_calculus.specs.WellFormed.{is_well_formed};
ghost use Rattle.cu_machine.specs.Next.{next};
ghost use Rattle.cu_machine.specs.Validity.{IsValid};
ghost use Rattle.cu_sets.specs.Inside.Frames.{FrameIsValid, TurnIsValid, frame_size, resumed, turn_next, turn_size};
ghost use Rattle.cu_sets.specs.Inside.Sizes.{size};
ghost use Rattle.cu_step.specs.Outcome.{branches_of, is_inner, next_of, running_state, state_of};

use crate::ending::{delivered, ends, goes_on, is_too_large, too_large};
use crate::level::Level;
use cu_flat::{FlatProgram, Special};
use cu_graph::Store;
use cu_machine::Limits;
use cu_step::{Branch, Outcome, Running, Workspace, step_with};
use std::alloc::{AllocError, Global};
use std::{mem, vec};

/// A search whose level is being stepped.
#[derive(Drop)]
struct Frame<S: Store> {
    /// The branch in which the search runs. Its level was taken out.
    running: Running<S>,
    /// The branches that come after the one at hand.
    left: vec::IntoIter<Branch<S>>,
    /// What became of the branches before it.
    after: Level<S>,
}

/// How the step of a branch goes on.
#[derive(Drop)]
enum Turn<S: Store> {
    /// With a branch of the level of a search that runs in it.
    Into(Frame<S>, Branch<S>),
    /// No more: this becomes of it.
    Done(Outcome<S>),
}

/// One step of a branch in every state. Where a search for all values of a
/// function runs in it, the level of the search takes one step, and so do the
/// searches in that level. An `Err` says that memory ran out, or that a graph
/// has 4,294,967,295 nodes and needs one more.
pub fn advance<S: Store>(
    alloc: Global,
    program: &FlatProgram,
    branch: Branch<S>,
    limits: &Limits,
) -> Result<Outcome<S>, AllocError>
    requires valid { IsValid program.now (state_of S.content branch) }
    ensures next { IfOk result (λ outcome. next_of S.content outcome
        ≡ next program.now limits.now (state_of S.content branch)) }
    ensures inner { IfOk result (λ outcome. IsFalse (is_inner outcome)) }
    ensures valid { IfOk result
        (λ outcome. All (λ branch. IsValid program.now (state_of S.content branch))
        (branches_of outcome)) }
{
    let mut workspace = Workspace::new(alloc);
    advance_with(alloc, program, &mut workspace, branch, limits)
}

/// One step as by [`advance`], with the lists of a workspace, which may have
/// been used by other steps before.
pub(crate) fn advance_with<S: Store>(
    alloc: Global,
    program: &FlatProgram,
    workspace: &mut Workspace,
    branch: Branch<S>,
    limits: &Limits,
) -> Result<Outcome<S>, AllocError>
    requires valid { IsValid program.now (state_of S.content branch) }
    ensures next { IfOk result (λ outcome. next_of S.content outcome
        ≡ next program.now limits.now (state_of S.content branch)) }
    ensures inner { IfOk result (λ outcome. IsFalse (is_inner outcome)) }
    ensures valid { IfOk result
        (λ outcome. All (λ branch. IsValid program.now (state_of S.content branch))
        (branches_of outcome)) }
{
    if branch.is_running() {
        return advance_level(alloc, program, workspace, branch, limits);
    }
    step_with(alloc, program, workspace, branch, limits)
}

/// One step of a branch, where a search may run in it: the levels of the
/// searches that are being stepped stand in a list.
#[inline(never)]
fn advance_level<S: Store>(
    alloc: Global,
    program: &FlatProgram,
    workspace: &mut Workspace,
    branch: Branch<S>,
    limits: &Limits,
) -> Result<Outcome<S>, AllocError>
    requires valid { IsValid program.now (state_of S.content branch) }
    ensures next { IfOk result (λ outcome. next_of S.content outcome
        ≡ next program.now limits.now (state_of S.content branch)) }
    ensures inner { IfOk result (λ outcome. IsFalse (is_inner outcome)) }
    ensures valid { IfOk result
        (λ outcome. All (λ branch. IsValid program.now (state_of S.content branch))
        (branches_of outcome)) }
{
    let mut frames = Vec::new(alloc);
    let mut turn = begin(alloc, program, workspace, branch, limits)?;
    'turns: loop {
        match turn {
            Turn::Into(frame, branch) => {
                frames.push(frame)?;
                turn = begin(alloc, program, workspace, branch, limits)?;
            }
            Turn::Done(outcome) => {
                let Some(frame) = frames.pop() else {
                    return Ok(outcome);
                };
                turn = give(frame, outcome, limits)?;
            }
        }
    }
}

/// How the step of a branch begins.
fn begin<S: Store>(
    alloc: Global,
    program: &FlatProgram,
    workspace: &mut Workspace,
    branch: Branch<S>,
    limits: &Limits,
) -> Result<Turn<S>, AllocError>
    requires valid { IsValid program.now (state_of S.content branch) }
    ensures next { IfOk result (λ turn. turn_next S.content program.now limits.now turn
        ≡ next program.now limits.now (state_of S.content branch)) }
    ensures valid { IfOk result (λ turn. TurnIsValid S.content program.now turn) }
    ensures falls { IfOk result
        (λ turn. turn_size S.content turn < size (state_of S.content branch)) }
    ensures well_formed { IsTrue (is_well_formed program.now) }
{
    let special = program.special();
    match step_with(alloc, program, workspace, branch, limits)? {
        Outcome::Inner(branch) => enter(alloc, special, branch.opened(), limits),
        outcome => Ok(Turn::Done(outcome)),
    }
}

/// How the step of a branch begins in which a search runs.
fn enter<S: Store>(
    alloc: Global,
    special: &Special,
    running: Running<S>,
    limits: &Limits,
) -> Result<Turn<S>, AllocError>
    requires call { running.call < length (S.content running.store) }
    ensures next { IfOk result (λ turn. (program : Code) → program.special ≡ special.now
        → turn_next S.content program limits.now turn
        ≡ next program limits.now (running_state S.content running)) }
    ensures valid { IfOk result (λ turn. (program : Code)
        → IsValid program (running_state S.content running) → TurnIsValid S.content program turn) }
    ensures falls { IfOk result
        (λ turn. turn_size S.content turn < size (running_state S.content running)) }
{
    if is_too_large(&running.store, limits) {
        return Ok(Turn::Done(Outcome::Stop(too_large(limits))));
    }
    let mut running = running;
    let level = mem::replace(&mut running.level, Vec::new(alloc));
    let mut left = level.into_iter();
    let Some(branch) = left.next() else {
        let outcome = delivered(alloc, special, running, limits)?;
        return Ok(Turn::Done(outcome));
    };
    let after = Level::new(alloc);
    let frame = Frame {
        running,
        left,
        after,
    };
    Ok(Turn::Into(frame, branch))
}

/// How the step of a branch goes on in which a search runs, once this became
/// of the branch at hand of its level.
fn give<S: Store>(
    frame: Frame<S>,
    outcome: Outcome<S>,
    limits: &Limits,
) -> Result<Turn<S>, AllocError>
    requires call { frame.running.call < length (S.content frame.running.store) }
    requires inner { IsFalse (is_inner outcome) }
    ensures next { IfOk result (λ turn. (program : Code)
        → turn_next S.content program limits.now turn
        ≡ resumed S.content program limits.now frame (next_of S.content outcome)) }
    ensures valid { IfOk result (λ turn. (program : Code) → FrameIsValid S.content program frame
        → TurnIsValid S.content program turn) }
    ensures falls { IfOk result (λ turn. turn_size S.content turn < frame_size S.content frame) }
{
    let Frame {
        running,
        mut left,
        mut after,
    } = frame;
    if let Some(ending) = after.add(outcome)? {
        let outcome = ends(running, ending)?;
        return Ok(Turn::Done(outcome));
    }
    let Some(branch) = left.next() else {
        let outcome = goes_on(running, after, limits)?;
        return Ok(Turn::Done(outcome));
    };
    let frame = Frame {
        running,
        left,
        after,
    };
    Ok(Turn::Into(frame, branch))
}
