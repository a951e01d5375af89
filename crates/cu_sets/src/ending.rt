//! What becomes of a branch in which a search runs, once its level was stepped.
ghost use Rattle.std.specs.Prelude.{◌≡◌, ◌<◌, [], ◌∷◌, IfOk, IsFalse, length, map};
ghost use Rattle.cu_machine.specs.declared.Limits.{Limits};
ghost use Rattle.cu_machine.specs.Next.{On, Stops, after_level, is_above, too_large, unless_one_is_large};
ghost use Rattle.cu_machine.specs.State as state;
ghost use Rattle.cu_machine.specs.State.{Idle};
ghost use Rattle.cu_sets.specs.Inside.Delivered.{delivered_by};
ghost use Rattle.cu_sets.specs.Inside.Levels.{ended};
ghost use Rattle.cu_step.specs.Outcome.{is_inner, next_of, state_of};

use crate::found::deliver;
use crate::level::{Ending, Level};
use cu_flat::Special;
use cu_graph::{Kind, Store};
use cu_machine::{Limits, Stop};
use cu_step::{Branch, Outcome, Running};
use std::alloc::{AllocError, Global};
use std::mem;

/// Whether a graph has more nodes than the limit.
pub(crate) fn is_too_large<S: Store>(store: &S, limits: &Limits) -> bool
    ensures { result ≡ is_above limits.now (length (S.content store.now)) }
{
    limits.nodes < store.len()
}

/// The stop for too many nodes, whose count ends at one more than the limit.
pub(crate) fn too_large(limits: &Limits) -> Stop
    ensures { Stops result ≡ too_large limits.now }
{
    Stop::TooLarge(u64::from(limits.nodes) + 1)
}

/// What becomes of a branch whose search is over: the values that were found
/// stand in place of the call, unless the graph is too large then.
pub(crate) fn delivered<S: Store>(
    alloc: Global,
    special: &Special,
    running: Running<S>,
    limits: &Limits,
) -> Result<Outcome<S>, AllocError>
    requires { running.call < length (S.content running.store) }
    ensures next { IfOk result (λ outcome. next_of S.content outcome
        ≡ unless_one_is_large limits.now
        (state.Branch (delivered_by special.now
        (S.content running.store) running.call running.found.items)
        running.root running.goals.items Idle ∷ [])) }
    ensures inner { IfOk result (λ outcome. IsFalse (is_inner outcome)) }
{
    let mut running = running;
    let found = mem::replace(&mut running.found, Vec::new(alloc));
    deliver(alloc, special, &mut running.store, running.call, found)?;
    if is_too_large(&running.store, limits) {
        return Ok(Outcome::Stop(too_large(limits)));
    }
    Ok(Outcome::On(running.ended()))
}

/// What becomes of a branch whose search goes on with this level.
pub(crate) fn goes_on<S: Store>(
    running: Running<S>,
    level: Level<S>,
    limits: &Limits,
) -> Result<Outcome<S>, AllocError>
    ensures next { IfOk result (λ outcome. next_of S.content outcome ≡ after_level limits.now
        (S.content running.store) running.root running.goals.items running.call running.found.items
        (On level.values.items (map (state_of S.content) level.branches.items))) }
    ensures inner { IfOk result (λ outcome. IsFalse (is_inner outcome)) }
{
    let Level { values, branches } = level;
    if (limits.width as usize) < branches.len() {
        return Ok(Outcome::Stop(Stop::TooWide(branches.len() as u64)));
    }
    let mut running = running;
    let mut values = values;
    running.found.append(&mut values)?;
    running.level = branches;
    Ok(Outcome::On(running.going_on()))
}

/// What becomes of a branch whose search ends before its level is empty.
pub(crate) fn ends<S: Store>(running: Running<S>, ending: Ending) -> Result<Outcome<S>, AllocError>
    requires { running.call < length (S.content running.store) }
    ensures next { IfOk result (λ outcome. (limits : Limits)
        → next_of S.content outcome ≡ after_level limits
        (S.content running.store) running.root running.goals.items running.call running.found.items
        (ended ending)) }
    ensures inner { IfOk result (λ outcome. IsFalse (is_inner outcome)) }
{
    match ending {
        Ending::Halted(stop) => Ok(Outcome::Stop(stop)),
        Ending::Blocked => {
            let mut running = running;
            running.store.put(running.call, Kind::Stuck, &[])?;
            Ok(Outcome::On(running.ended()))
        }
    }
}
