//! Stepping the branches of a level, side by side.
ghost use Rattle.std.specs.Prelude.{◌≡◌, ◌≤◌, ◌++◌, IfOk, OnOk, flat_map, length, map};
ghost use Rattle.std.specs.List.{All};
ghost use Rattle.std.specs.Thread.{IsSync};
ghost use Rattle.cu_machine.specs.Run.{run};
ghost use Rattle.cu_machine.specs.Validity.{IsValid};
ghost use Rattle.cu_pile.specs.Outcomes.{EachBelow};
ghost use Rattle.cu_search.specs.Standing.{widest};
ghost use Rattle.cu_step.specs.Outcome.{branches_of, next_of, state_of};

use crate::calls::Calls;
use cu_flat::FlatProgram;
use cu_graph::Store;
use cu_machine::SearchLimits;
use cu_pile::Gate;
use cu_step::{Branch, Outcome};
use std::alloc::{AllocError, Global};
use std::marker::PhantomData;
use std::thread::Threads;

/// How far and within what limits a round takes each branch on.
#[derive(Clone, Copy)]
pub(crate) struct Steps<'p> {
    pub(crate) alloc: Global,
    pub(crate) program: &'p FlatProgram,
    pub(crate) limits: SearchLimits,
}

/// What becomes of each branch of a level in a round. The items that workers
/// draw are the branches of the level, in order.
pub(crate) fn step_level<S: Store + Send + Sync, R: Threads + Sync, G: Gate + Sync>(
    rt: &R,
    workers: u32,
    gate: &G,
    steps: &Steps,
    level: Vec<Branch<S>>,
) -> Result<Vec<Outcome<S>>, AllocError>
    requires workers { (1 ≤ workers) × (workers ≤ 64) }
    requires width { length level.items ≤ widest }
    requires valid { All (λ branch. IsValid steps.now.program.now (state_of S.content branch))
        level.items }
    ensures next { IfOk result (λ outcomes. map (next_of S.content) outcomes.items
        ≡ map (run steps.now.limits.stride steps.now.program.now steps.now.limits.step)
        (map (state_of S.content) level.items)) }
    ensures valid { IfOk result (λ outcomes. All (λ outcome.
        All (λ branch. IsValid steps.now.program.now (state_of S.content branch))
        (branches_of outcome)) outcomes.items) }
    ensures told { 2 ≤ length level.items
        → IfOk result (λ _. EachBelow (length level.items) (G.told gate.now)) }
{
    let alloc = steps.alloc;
    let program = steps.program;
    let limits = steps.limits;
    let job = Calls {
        call: move |branch: Branch<S>| -> Result<Outcome<S>, AllocError>
            requires { IsSync S.row × IsValid program.now (state_of S.content branch) }
            ensures next { IfOk result (λ outcome. next_of S.content outcome
                ≡ run limits.stride program.entry.now limits.step (state_of S.content branch)) }
            ensures valid { IfOk result (λ outcome.
                All (λ branch. IsValid program.entry.now (state_of S.content branch))
                (branches_of outcome)) }
        { cu_sets::run(alloc, program, branch, &limits.step, limits.stride) },
        items: PhantomData,
        outcomes: PhantomData,
    };
    cu_pile::round(rt, alloc, level, workers, gate, &job)
}

/// The branches that follow the outcomes of a level.
pub(crate) fn next_level<S: Store>(
    alloc: Global,
    outcomes: Vec<Outcome<S>>,
) -> Result<Vec<Branch<S>>, AllocError>
    ensures { IfOk result (λ level. level.items ≡ flat_map branches_of outcomes.items) }
{
    let mut level = Vec::with_capacity(alloc, outcomes.len())?;
    for outcome in outcomes {
        add_following(&mut level, outcome)?;
    }
    Ok(level)
}

/// Adds the branches that follow one outcome.
fn add_following<S: Store>(
    level: &mut Vec<Branch<S>>,
    outcome: Outcome<S>,
) -> Result<(), AllocError>
    ensures { OnOk result (level.new.items ≡ level.old.items ++ branches_of outcome) }
{
    match outcome {
        Outcome::On(branch) => {
            level.push(branch)?;
            Ok(())
        }
        Outcome::Go(mut branches) => level.append(&mut branches),
        Outcome::Answer(_) => Ok(()),
        Outcome::Fail => Ok(()),
        Outcome::Wait(_) => Ok(()),
        Outcome::Stop(_) => Ok(()),
        Outcome::Inner(branch) => {
            level.push(branch)?;
            Ok(())
        }
    }
}
