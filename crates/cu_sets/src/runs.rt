//! Several steps of a branch at once.
ghost use Rattle.std.specs.Prelude.{◌≡◌, IfOk, IsFalse};
ghost use Rattle.std.specs.List.{All};
ghost use Rattle.cu_machine.specs.Run.{run};
ghost use Rattle.cu_machine.specs.Validity.{IsValid};
ghost use Rattle.cu_sets.specs.Inside.Onward.{GoesOnward};
ghost use Rattle.cu_step.specs.Outcome.{branches_of, is_inner, next_of, state_of};
ghost use Rattle.cu_step.specs.declared.Outcome.TheVariants.{Go};

use crate::searches::advance_with;
use cu_flat::FlatProgram;
use cu_graph::Store;
use cu_machine::Limits;
use cu_step::{Branch, Outcome, Workspace};
use std::alloc::{AllocError, Global};

/// What becomes of a branch, by whether exactly one follows.
#[derive(Drop)]
enum Onward<S: Store> {
    /// Exactly this branch follows.
    Only(Branch<S>),
    /// Anything else becomes of the branch.
    Other(Outcome<S>),
}

/// Whether exactly one branch follows.
fn only_branch_of<S: Store>(outcome: Outcome<S>) -> Onward<S>
    requires { IsFalse (is_inner outcome) }
    ensures { GoesOnward S.content outcome result }
{
    match outcome {
        Outcome::On(branch) => Onward::Only(branch),
        Outcome::Go(branches) => only(branches),
        outcome => Onward::Other(outcome),
    }
}

/// Whether there is exactly one branch.
#[inline(never)]
fn only<S: Store>(branches: Vec<Branch<S>>) -> Onward<S>
    ensures { GoesOnward S.content (Go branches) result }
{
    if branches.len() != 1 {
        return Onward::Other(Outcome::Go(branches));
    }
    let mut branches = branches;
    let Some(branch) = branches.pop() else {
        unreachable!()
    };
    Onward::Only(branch)
}

/// Takes a branch on for up to so many steps, one or more, while exactly one
/// branch follows, and answers what becomes of it then. An `Err` says what it
/// says of [`crate::advance`].
pub fn run<S: Store>(
    alloc: Global,
    program: &FlatProgram,
    branch: Branch<S>,
    limits: &Limits,
    stride: u64,
) -> Result<Outcome<S>, AllocError>
    requires valid { IsValid program.now (state_of S.content branch) }
    ensures run { IfOk result (λ outcome. next_of S.content outcome
        ≡ run stride program.now limits.now (state_of S.content branch)) }
    ensures inner { IfOk result (λ outcome. IsFalse (is_inner outcome)) }
    ensures valid { IfOk result
        (λ outcome. All (λ branch. IsValid program.now (state_of S.content branch))
        (branches_of outcome)) }
{
    let mut workspace = Workspace::new(alloc);
    let mut branch = branch;
    let mut more = stride.saturating_sub(1);
    'steps: while more > 0 {
        let outcome = advance_with(alloc, program, &mut workspace, branch, limits)?;
        match only_branch_of(outcome) {
            Onward::Only(next) => branch = next,
            Onward::Other(outcome) => return Ok(outcome),
        }
        more -= 1;
    }
    advance_with(alloc, program, &mut workspace, branch, limits)
}
