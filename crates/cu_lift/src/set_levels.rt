//! Set levels: how deep set calls stand on one another.
ghost use Rattle.std.specs.Prelude.{◌≡◌, ◌+◌, ◌<◌, ◌≤◌, ◌^◌, ℕ, Some, IfOk, IfErr, IfSome, IfNone, IsFalse, IsTrue, length, slice_get, true};
ghost use Rattle.cu_calculus.specs.Claims.{AreLeastLevels};
ghost use Rattle.cu_kernel.specs.Kernel.{program_of};
ghost use Rattle.cu_cycles.specs.Components.{AreRanks};
ghost use Rattle.cu_cycles.specs.Graph.{IsWhole, Reach, rows_in};
ghost use Rattle.cu_lift.specs.Inside.Levelling.{AreBelow, AreCalls, AreDemands, AreRaised, Collects, IsCalm, IsCycleOf, IsDemand, IsFirstCall, LevelsTo, demand};
ghost use Rattle.cu_lift.specs.Inside.MentionsOf.{targets_in};
ghost use Rattle.cu_lift.specs.Inside.Outcome.{AreLevelsOrCycle};
ghost use Rattle.cu_lift.specs.SetCycles.{IsLevelFault};

use crate::components::members;
use crate::mentions::{Mention, edges, graph, row_of};
use crate::walks::walk;
use cu_cycles::{Components, find_components};
use cu_kernel::{FunId, Program};
use std::alloc::{AllocError, Global};
use thiserror::Error;

/// Why a program has no set levels.
#[derive(Debug, Drop, Error)]
pub enum LevelFault {
    /// A function collects itself: these functions are a cycle, in which each
    /// mentions the next one and the last the first, one of them in a set
    /// call. It begins with the first function, in program order, that stands
    /// on such a cycle.
    #[error("recursion through a set function")]
    SetRecursion(Vec<FunId>),
    /// There is no memory left.
    #[error("no memory left")]
    NoMemory,
}

/// What a mention demands of the level of the function that has it.
fn demand_of(levels: &[usize], mention: Mention) -> usize
    requires within { mention.function.0 < length levels.now }
    requires fits { AreBelow (length levels.now) levels.now }
    ensures { result ≡ demand levels.now mention }
{
    let level = levels[mention.function.0];
    if mention.collected { level + 1 } else { level }
}

/// The greatest of what a row's mentions demand, and of a level.
fn row_demand(levels: &[usize], row: &[Mention], least: usize) -> usize
    requires within { (k : ℕ) (m : Mention) → slice_get row.now k ≡ Some m
        → m.function.0 < length levels.now }
    requires fits { AreBelow (length levels.now) levels.now }
    ensures { IsDemand levels.now row.now least result }
{
    let mut level = least;
    for mention in row {
        let demanded = demand_of(levels, *mention);
        level = level.max(demanded);
    }
    level
}

/// The greatest of what the mentions of these functions demand.
fn demands(graph: &[Vec<Mention>], levels: &[usize], members: &[FunId]) -> usize
    requires whole { IsWhole (targets_in graph.now) }
    requires sized { length levels.now ≡ length graph.now }
    requires within { (k : ℕ) (f : FunId) → slice_get members.now k ≡ Some f
        → f.0 < length graph.now }
    requires fits { AreBelow (length levels.now) levels.now }
    ensures { AreDemands graph.now levels.now members.now result }
{
    let mut level = 0;
    for function in members {
        let row = row_of(graph, function.0);
        level = row_demand(levels, row, level);
    }
    level
}

/// Gives functions a level.
fn raise(levels: &mut Vec<usize>, members: &[FunId], level: usize)
    requires { (k : ℕ) (f : FunId) → slice_get members.now k ≡ Some f
        → f.0 < length levels.old.items }
    ensures { AreRaised members.now level levels.old.items levels.new.items }
{
    for function in members {
        levels[function.0] = level;
    }
}

/// The least levels of a graph without recursion through set calls.
fn least_levels(
    alloc: Global,
    graph: &[Vec<Mention>],
    found: &Components,
) -> Result<Vec<usize>, AllocError>
    requires whole { IsWhole (targets_in graph.now) }
    requires ranks { AreRanks (targets_in graph.now) found.now.ranks.items found.now.count }
    requires calm { IsCalm graph.now found.now.ranks.items }
    ensures { IfOk result
        (λ levels. LevelsTo graph.now found.now.ranks.items found.now.count levels.items) }
{
    let rows = members(alloc, found)?;
    let groups = rows.as_slice();
    let mut levels = vec![in alloc; 0; graph.len()]?;
    for group in groups {
        let functions = group.as_slice();
        let level = demands(graph, levels.as_slice(), functions);
        raise(&mut levels, functions, level);
    }
    Ok(levels)
}

/// A set call that stays in its component.
#[derive(Clone, Copy)]
struct Call {
    /// The function whose rules have the call.
    caller: usize,
    /// The function that is collected.
    collected: usize,
}

/// Whether a mention collects a function of a rank.
fn collects(ranks: &[usize], mention: Mention, rank: usize) -> bool
    requires { mention.function.0 < length ranks.now }
    ensures holds { IsTrue result → (mention.collected ≡ true)
        × (slice_get ranks.now mention.function.0 ≡ Some rank) }
    ensures fails { IsFalse result → mention.collected ≡ true
        → slice_get ranks.now mention.function.0 ≡ Some rank → ⊥ }
{
    if mention.collected {
        return ranks[mention.function.0] == rank;
    }
    false
}

/// The first function of a rank that a row collects.
fn collected_in(ranks: &[usize], row: &[Mention], rank: usize) -> Option<usize>
    requires { (k : ℕ) (m : Mention) → slice_get row.now k ≡ Some m
        → m.function.0 < length ranks.now }
    ensures some { IfSome result (Collects ranks.now row.now rank) }
    ensures none { IfNone result ((f : ℕ) → Collects ranks.now row.now rank f → ⊥) }
{
    for mention in row {
        if collects(ranks, *mention, rank) {
            return Some(mention.function.0);
        }
    }
    None
}

/// For each component a set call that stays in it, where it has one.
fn calls(
    alloc: Global,
    graph: &[Vec<Mention>],
    found: &Components,
) -> Result<Vec<Option<Call>>, AllocError>
    requires whole { IsWhole (targets_in graph.now) }
    requires ranks { AreRanks (targets_in graph.now) found.now.ranks.items found.now.count }
    ensures { IfOk result (λ calls. AreCalls graph.now found.now.ranks.items found.now.count
        (length graph.now) calls.items) }
{
    let mut calls = vec![in alloc; None; found.count]?;
    let ranks = found.ranks.as_slice();
    for (caller, rank) in ranks.iter().enumerate() {
        let row = row_of(graph, caller);
        let Some(collected) = collected_in(ranks, row, *rank) else {
            continue;
        };
        calls[*rank] = Some(Call { caller, collected });
    }
    Ok(calls)
}

/// The first function whose component has a set call that stays in it.
fn first_recursion(ranks: &[usize], calls: &[Option<Call>]) -> Option<(usize, Call)>
    requires { (f r : ℕ) → slice_get ranks.now f ≡ Some r → r < length calls.now }
    ensures some { IfSome result (λ found. IsFirstCall ranks.now calls.now found.0 found.1) }
    ensures none { IfNone result ((f r : ℕ) → slice_get ranks.now f ≡ Some r
        → slice_get calls.now r ≡ Some None) }
{
    for (function, rank) in ranks.iter().enumerate() {
        if let Some(call) = calls[*rank] {
            return Some((function, call));
        }
    }
    None
}

/// A closed walk from a function through a set call.
fn cycle(
    alloc: Global,
    graph: &[Vec<usize>],
    first: usize,
    call: Call,
) -> Result<Vec<FunId>, AllocError>
    requires whole { IsWhole (rows_in graph.now) }
    requires first { first < length graph.now }
    requires collected { call.collected < length graph.now }
    requires to { Reach (rows_in graph.now) first call.caller }
    requires to_first { Reach (rows_in graph.now) call.collected first }
    ensures { IfOk result
        (λ cycle. IsCycleOf (rows_in graph.now) first call.caller call.collected cycle.items) }
{
    let mut cycle = walk(alloc, graph, first, call.caller)?;
    cycle.push(FunId(call.caller))?;
    let suffix = walk(alloc, graph, call.collected, first)?;
    cycle.extend_from_slice(suffix.as_slice())?;
    Ok(cycle)
}

/// The least levels of a program, or a cycle through a set call.
fn levels_or_cycle(
    alloc: Global,
    program: &Program,
) -> Result<Result<Vec<usize>, Vec<FunId>>, AllocError>
    ensures { IfOk result (λ found. AreLevelsOrCycle (program_of program.now) found) }
{
    let mentions = graph(alloc, program)?;
    let rows = mentions.as_slice();
    let edges = edges(alloc, rows)?;
    let graph = edges.as_slice();
    let found = find_components(alloc, graph)?;
    let calls = calls(alloc, rows, &found)?;
    match first_recursion(found.ranks.as_slice(), calls.as_slice()) {
        Some((first, call)) => Ok(Err(cycle(alloc, graph, first, call)?)),
        None => Ok(Ok(least_levels(alloc, rows, &found)?)),
    }
}

/// The set level of each function of a program: at least that of each
/// function that its rules mention, and above that of each function that they
/// collect. Takes time about proportional to the program's size.
pub fn levels(alloc: Global, program: &Program) -> Result<Vec<usize>, LevelFault>
    ensures levels { IfOk result (λ levels. AreLeastLevels (program_of program.now) levels.items) }
    ensures fault { IfErr result (IsLevelFault (program_of program.now)) }
{
    match levels_or_cycle(alloc, program) {
        Ok(Ok(levels)) => Ok(levels),
        Ok(Err(cycle)) => Err(LevelFault::SetRecursion(cycle)),
        Err(_) => Err(LevelFault::NoMemory),
    }
}
