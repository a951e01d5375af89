//! Calls of set functions: where searches for all values of a function begin.
ghost use Rattle.std.specs.Prelude.{◌≡◌, ◌<◌, [], ◌∷◌, IfOk, IsFalse, None, Some, if◌then◌else◌, length, map, nat_lt, option_map, true};
ghost use Rattle.cu_calculus.specs.Value.{values_of};
ghost use Rattle.cu_machine.specs.declared.Kind.TheVariants as kind;
ghost use Rattle.cu_machine.specs.Graph.{node_at};
ghost use Rattle.cu_machine.specs.Next.{moved};
ghost use Rattle.cu_machine.specs.Rewrite.{move};
ghost use Rattle.cu_machine.specs.Spell.{cells_of_all, ordinal, renumbered, spelled, variables_of_all};
ghost use Rattle.cu_machine.specs.State.{call_on};
ghost use Rattle.cu_machine.specs.Validity.{ArgumentsThere, IsAcyclic, are_places};
ghost use Rattle.cu_step.specs.Outcome.{is_inner, next_of, state_of};

use crate::aim::Aim;
use crate::branch::{Branch, BranchOver, Running, Search};
use crate::focus::Focus;
use crate::occurs::Sought;
use crate::push::push_value;
use crate::redex::Redex;
use crate::{Outcome, build, following, is_too_large, node, occurs, read, too_large};
use cu_flat::{FlatProgram, FunId};
use cu_graph::Store;
use cu_machine::Limits;
use cu_values::Value;
use std::alloc::{AllocError, Global};

/// A node that calls a set function.
#[derive(Clone, Copy)]
pub(crate) struct SetCall {
    /// The index of the node.
    pub(crate) id: u32,
    pub(crate) function: FunId,
}

/// The values of arguments, unless they have more cells together than the
/// limit. The variables in them are numbered from 1.
fn arguments<S: Store>(
    alloc: Global,
    store: &S,
    args: &[u32],
    limit: u32,
) -> Result<Option<Vec<Value>>, AllocError>
    requires args { are_places (length (S.content store.now)) args.now ≡ true }
    requires arguments { ArgumentsThere (S.content store.now) }
    requires acyclic { IsAcyclic (S.content store.now) }
    ensures { IfOk result (λ values. option_map (λ values. values.items) values
        ≡ (if nat_lt limit (cells_of_all (map (spelled (S.content store.now)) args.now)) then None
        else Some
        (map
        (renumbered
        (ordinal (variables_of_all (map (spelled (S.content store.now)) args.now))))
        (map (spelled (S.content store.now)) args.now)))) }
{
    let Some((last, others)) = args.split_last() else {
        return Ok(Some(Vec::new(alloc)));
    };
    let Some(reading) = read::read(alloc, store, *last, others, limit)? else {
        return Ok(None);
    };
    let mut values = reading.bindings;
    values.push(reading.value)?;
    Ok(Some(values))
}

/// The branch in which an inner search begins: the nodes of the arguments, and
/// the call of the function on them.
fn call_on<S: Store>(
    alloc: Global,
    program: &FlatProgram,
    f: FunId,
    arguments: &[Value],
) -> Result<Branch<S>, AllocError>
    ensures { IfOk result (λ branch. state_of S.content branch
        ≡ call_on program.now f (values_of arguments.now)) }
{
    let mut store = S::empty(alloc)?;
    let mut ids = Vec::with_capacity(alloc, arguments.len())?;
    for argument in arguments {
        ids.push(push_value(alloc, &mut store, argument)?)?;
    }
    let kind = build::kind_of_call(program, f);
    let root = node::push(&mut store, kind, ids.as_slice())?;
    Ok(BranchOver {
        focus: Focus::new(store, root),
        goals: Vec::new(alloc),
        search: Search::Idle,
    })
}

/// What becomes of a branch where the call of a set function is rewritten: the
/// search for all values of the function begins. A partial application in an
/// argument leaves the call stuck.
pub(crate) fn begin<S: Store>(
    alloc: Global,
    program: &FlatProgram,
    store: S,
    aim: Aim,
    call: SetCall,
    limits: &Limits,
) -> Result<Outcome<S>, AllocError>
    requires id { call.id < length (S.content store) }
    requires call { (node_at (S.content store) call.id).kind ≡ kind.SetCall call.function }
    requires arguments { ArgumentsThere (S.content store) }
    requires acyclic { IsAcyclic (S.content store) }
    ensures next { IfOk result (λ outcome. next_of S.content outcome
        ≡ moved program.now limits.now aim.root aim.goals.items (S.content store) call.id
        (move program.now (S.content store) call.id)) }
    ensures inner { IfOk result (λ outcome. IsFalse (is_inner outcome)) }
{
    let Aim {
        root,
        goals,
        walk: _,
    } = aim;
    let args = node::args(alloc, &store, call.id)?;
    if occurs::are_reached(alloc, &store, Sought::Part, args.as_slice())? {
        let redex = Redex {
            alloc,
            store,
            id: call.id,
        };
        let graphs = redex.stuck_step()?;
        let aim = Aim {
            root,
            goals,
            walk: None,
        };
        return following(alloc, graphs, aim, limits);
    }
    let Some(values) = arguments(alloc, &store, args.as_slice(), limits.nodes)? else {
        return Ok(Outcome::Stop(too_large(limits)));
    };
    let inner = call_on(alloc, program, call.function, values.as_slice())?;
    if is_too_large(&inner.focus.store, limits) {
        return Ok(Outcome::Stop(too_large(limits)));
    }
    let mut level = Vec::with_capacity(alloc, 1)?;
    level.push(inner)?;
    let running = Running {
        store,
        root,
        goals,
        call: call.id,
        found: Vec::new(alloc),
        level,
    };
    Ok(Outcome::On(running.going_on()))
}
