//! Unification of types of a table: their classes are closed under the
//! equations, and then put in order (Huet, 1976; Baader and Snyder, 2001).
ghost use Rattle.std.specs.Prelude.{◌≡◌, ◌<◌, ℕ, IfOk, List, length, map};
ghost use Rattle.cu_types.specs.Inside.Closing.{Each, IsWithin, PairIsEqual};
ghost use Rattle.cu_types.specs.Inside.Ordering.{AreWithin, class_of};
ghost use Rattle.cu_types.specs.Inside.Solving.{ArrangesOr, SolvesOr};
ghost use Rattle.cu_types.specs.Table.{IsTable, shape_of, trees};
ghost use Rattle.cu_types.specs.Unification.{Equation};

use crate::Node;
use crate::closing::{Outcome, close};
use crate::cycle::unfold;
use crate::order::Walk;
use crate::pair::Pair;
use std::alloc::{AllocError, Global};

/// What equations between types of a table come to.
#[derive(Drop)]
pub(crate) enum Solved {
    /// A most general solution: for each type the place of what it becomes, in
    /// a table of its own.
    Solution(Vec<usize>, Vec<Node>),
    /// Two types that the equations make equal and that no substitution makes
    /// the same. The table has the given types, and maybe more after them.
    Clash(Vec<Node>, Pair),
}

/// Puts classes in an order in which each stands after the classes of its
/// arguments.
fn arrange(alloc: Global, mut nodes: Vec<Node>, classes: &[usize]) -> Result<Solved, AllocError>
    requires table { IsTable (map shape_of nodes.items) }
    requires classes { AreWithin (map shape_of nodes.items) classes.now }
    requires fixed { (k : ℕ) → k < length (map shape_of nodes.items)
        → class_of classes.now (class_of classes.now k) ≡ class_of classes.now k }
    ensures { IfOk result (ArrangesOr (map shape_of nodes.items) classes.now) }
{
    let mut walk = Walk::start(alloc, classes)?;
    let Some(first) = walk.run(alloc, nodes.as_slice(), classes)? else {
        let places = walk.places_of(alloc, classes, classes)?;
        return Ok(Solved::Solution(places, walk.into_solved()));
    };
    let place = unfold(alloc, &mut nodes, classes, &mut walk.tasks, first)?;
    Ok(Solved::Clash(
        nodes,
        Pair {
            left: first,
            right: place,
        },
    ))
}

/// Solves equations between types of a table.
pub(crate) fn solve(alloc: Global, nodes: Vec<Node>, pairs: Vec<Pair>) -> Result<Solved, AllocError>
    requires table { IsTable (map shape_of nodes.items) }
    requires pairs { Each (IsWithin (length nodes.items)) pairs.items }
    ensures { IfOk result (λ solved. (equations : List Equation)
        → Each (PairIsEqual equations (trees (map shape_of nodes.items))) pairs.items
        → SolvesOr equations (map shape_of nodes.items) pairs.items solved) }
{
    match close(alloc, nodes.as_slice(), pairs)? {
        Outcome::Apart(pair) => Ok(Solved::Clash(nodes, pair)),
        Outcome::Closed(mut classes) => {
            let representatives = classes.representatives(alloc)?;
            arrange(alloc, nodes, representatives.as_slice())
        }
    }
}
