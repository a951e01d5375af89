//! Classes of the types of a table that equations make equal.
ghost use Rattle.std.specs.Prelude.{◌≡◌, ◌≢◌, ◌<◌, ◌++◌, ℕ, IfOk, List, OnOk, length, map, true};
ghost use Rattle.cu_types.specs.Inside.Classes.{IsForest, Represents, is_root};
ghost use Rattle.cu_types.specs.Inside.Closing.{ClosesOr, Each, IsOriented, IsWithin, Joined, PairIsEqual, Unites, paired};
ghost use Rattle.cu_types.specs.Table.{IsTable, shape_of, trees};
ghost use Rattle.cu_types.specs.Unification.{Equation};

use crate::Node;
use crate::classes::Classes;
use crate::pair::Pair;
use std::alloc::{AllocError, Global};

/// What joining classes comes to.
#[derive(Drop)]
pub(crate) enum Outcome {
    /// The classes, which agree with all equations.
    Closed(Classes),
    /// Two types that the equations make equal, with different heads or
    /// numbers of arguments.
    Apart(Pair),
}

/// Adds the pairs of arguments to the pairs that shall be joined.
fn push_arguments(
    pending: &mut Vec<Pair>,
    left: &[usize],
    right: &[usize],
) -> Result<(), AllocError>
    ensures { OnOk result (pending.new.items ≡ pending.old.items ++ paired left.now right.now) }
{
    for place in 0..left.len().min(right.len()) {
        pending.push(Pair {
            left: left[place],
            right: right[place],
        })?;
    }
    Ok(())
}

impl Classes {
    /// Two representatives, in the order in which the first is put under the
    /// second: a variable is put under what is none, and else the one of no
    /// greater rank under the other.
    fn oriented(&self, pair: Pair, left: &Node, right: &Node) -> Pair
        requires left { pair.left < length self.now.ranks.items }
        requires right { pair.right < length self.now.ranks.items }
        ensures { IsOriented pair (shape_of left.now) (shape_of right.now) result }
    {
        let under = if left.is_variable() == right.is_variable() {
            self.ranks[pair.left] <= self.ranks[pair.right]
        } else {
            left.is_variable()
        };
        if under {
            pair
        } else {
            Pair {
                left: pair.right,
                right: pair.left,
            }
        }
    }

    /// The representatives of two places.
    fn find_both(&mut self, pair: Pair) -> Pair
        requires within { IsWithin (length self.old.parents.items) pair }
        requires forest { IsForest self.old.parents.items self.old.ranks.items }
        ensures sized { length self.new.parents.items ≡ length self.old.parents.items }
        ensures within { IsWithin (length self.old.parents.items) result }
        ensures forest { IsForest self.new.parents.items self.new.ranks.items }
        ensures roots { (k : ℕ) → is_root self.new.parents.items k
            ≡ is_root self.old.parents.items k }
        ensures left { is_root self.new.parents.items result.left ≡ true }
        ensures right { is_root self.new.parents.items result.right ≡ true }
        ensures class { (class : ℕ → ℕ) → Represents self.old.parents.items class
            → Represents self.new.parents.items class × (result.left ≡ class pair.left)
            × (result.right ≡ class pair.right) }
    {
        let left = self.find(pair.left);
        let right = self.find(pair.right);
        Pair { left, right }
    }

    /// Puts one representative under another, and adds the pairs of their
    /// arguments to those that shall be joined.
    fn unite(
        &mut self,
        pending: &mut Vec<Pair>,
        pair: Pair,
        child: &Node,
        root: &Node,
    ) -> Result<(), AllocError>
        requires within { IsWithin (length self.old.parents.items) pair }
        requires apart { pair.left ≢ pair.right }
        requires child_root { is_root self.old.parents.items pair.left ≡ true }
        requires root_root { is_root self.old.parents.items pair.right ≡ true }
        requires forest { IsForest self.old.parents.items self.old.ranks.items }
        ensures sized { OnOk result (length self.new.parents.items
            ≡ length self.old.parents.items) }
        ensures forest { OnOk result (IsForest self.new.parents.items self.new.ranks.items) }
        ensures united { OnOk result (Unites (shape_of child.now) (shape_of root.now) pair
            pending.old.items self.old.parents.items pending.new.items self.new.parents.items) }
    {
        push_arguments(pending, child.arguments(), root.arguments())?;
        self.put_under(pair.left, pair.right)
    }

    /// Joins the classes of two places, and leaves the pairs of their arguments
    /// to be joined. Answers the representatives where their heads or numbers
    /// of arguments differ.
    fn join(
        &mut self,
        nodes: &[Node],
        pending: &mut Vec<Pair>,
        pair: Pair,
    ) -> Result<Option<Pair>, AllocError>
        requires table { IsTable (map shape_of nodes.now) }
        requires sized { length self.old.parents.items ≡ length nodes.now }
        requires forest { IsForest self.old.parents.items self.old.ranks.items }
        requires pair { IsWithin (length nodes.now) pair }
        requires pending { Each (IsWithin (length nodes.now)) pending.old.items }
        ensures sized { OnOk result (length self.new.parents.items ≡ length nodes.now) }
        ensures forest { OnOk result (IsForest self.new.parents.items self.new.ranks.items) }
        ensures joined { IfOk result (Joined (map shape_of nodes.now) pair pending.old.items
            self.old.parents.items pending.new.items self.new.parents.items) }
    {
        let found = self.find_both(pair);
        if found.left == found.right {
            return Ok(None);
        }
        if !nodes[found.left].meets(&nodes[found.right]) {
            return Ok(Some(found));
        }
        let under = self.oriented(found, &nodes[found.left], &nodes[found.right]);
        self.unite(pending, under, &nodes[under.left], &nodes[under.right])?;
        Ok(None)
    }
}

/// Joins classes until they agree with all pairs of places.
pub(crate) fn close(
    alloc: Global,
    nodes: &[Node],
    mut pending: Vec<Pair>,
) -> Result<Outcome, AllocError>
    requires table { IsTable (map shape_of nodes.now) }
    requires pending { Each (IsWithin (length nodes.now)) pending.items }
    ensures { IfOk result (λ outcome. (equations : List Equation)
        → Each (PairIsEqual equations (trees (map shape_of nodes.now))) pending.items
        → ClosesOr equations (map shape_of nodes.now) pending.items outcome) }
{
    let mut classes = Classes::new(alloc, nodes.len())?;
    while let Some(pair) = pending.pop() {
        if let Some(apart) = classes.join(nodes, &mut pending, pair)? {
            return Ok(Outcome::Apart(apart));
        }
    }
    Ok(Outcome::Closed(classes))
}
