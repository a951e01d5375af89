//! Classes of numbers, told by a representative of each: a forest in which
//! each number points towards the root that represents its class (Tarjan,
//! Efficiency of a good but not linear set union algorithm, 1975).
ghost use Rattle.std.specs.Prelude.{◌≡◌, ◌≢◌, ◌<◌, ℕ, IfOk, List, OnOk, cond, false, length, nat_eq, slice_index, true};
ghost use Rattle.cu_types.specs.Inside.Classes.{IsForest, Represents, is_root, joined};

use std::alloc::{AllocError, Global};

/// Disjoint classes of the numbers below a bound.
#[derive(Drop)]
pub(crate) struct Classes {
    /// The parent of each number. The parent of a root is the root itself.
    pub(crate) parents: Vec<usize>,
    /// A bound on the height of the tree under each number. A number of rank r
    /// has nearly 2^r others under it.
    pub(crate) ranks: Vec<u8>,
}

impl Classes {
    /// The classes in which each number below a bound is alone.
    pub(crate) fn new(alloc: Global, count: usize) -> Result<Classes, AllocError>
        ensures sized { IfOk result (λ classes. length classes.parents.items ≡ count) }
        ensures forest { IfOk result
            (λ classes. IsForest classes.parents.items classes.ranks.items) }
        ensures alone { IfOk result (λ classes. Represents classes.parents.items (λ k. k)) }
    {
        let mut parents = Vec::with_capacity(alloc, count)?;
        let mut ranks = Vec::with_capacity(alloc, count)?;
        for node in 0..count {
            parents.push(node)?;
            ranks.push(0)?;
        }
        Ok(Classes { parents, ranks })
    }

    /// The representative of a number's class. Each second number on the way
    /// is put under its parent's parent.
    pub(crate) fn find(&mut self, node: usize) -> usize
        requires within { node < length self.old.parents.items }
        requires forest { IsForest self.old.parents.items self.old.ranks.items }
        ensures sized { length self.new.parents.items ≡ length self.old.parents.items }
        ensures within { result < length self.old.parents.items }
        ensures forest { IsForest self.new.parents.items self.new.ranks.items }
        ensures roots { (k : ℕ) → is_root self.new.parents.items k
            ≡ is_root self.old.parents.items k }
        ensures is_root { is_root self.new.parents.items result ≡ true }
        ensures class { (class : ℕ → ℕ) → Represents self.old.parents.items class
            → Represents self.new.parents.items class × (result ≡ class node) }
    {
        let mut at = node;
        while self.parents[at] != at {
            let parent = self.parents[at];
            let beyond = self.parents[parent];
            self.parents[at] = beyond;
            at = beyond;
        }
        at
    }

    /// Joins a class to another, whose representative is then that of both.
    pub(crate) fn put_under(&mut self, child: usize, root: usize) -> Result<(), AllocError>
        requires child { child < length self.old.parents.items }
        requires root { root < length self.old.parents.items }
        requires apart { child ≢ root }
        requires child_root { is_root self.old.parents.items child ≡ true }
        requires root_root { is_root self.old.parents.items root ≡ true }
        requires forest { IsForest self.old.parents.items self.old.ranks.items }
        ensures sized { OnOk result (length self.new.parents.items
            ≡ length self.old.parents.items) }
        ensures forest { OnOk result (IsForest self.new.parents.items self.new.ranks.items) }
        ensures roots { OnOk result ((k : ℕ) → is_root self.new.parents.items k
            ≡ cond (nat_eq k child) false (is_root self.old.parents.items k)) }
        ensures class { OnOk result ((class : ℕ → ℕ) → Represents self.old.parents.items class
            → Represents self.new.parents.items (joined child root class)) }
    {
        let rank = self.ranks[child];
        if self.ranks[root] <= rank {
            self.ranks[root] = rank.checked_add(1).ok_or(AllocError)?;
        }
        self.parents[child] = root;
        Ok(())
    }

    /// The representative of each number.
    pub(crate) fn representatives(&mut self, alloc: Global) -> Result<Vec<usize>, AllocError>
        requires forest { IsForest self.old.parents.items self.old.ranks.items }
        ensures sized { IfOk result (λ found. length found.items ≡ length self.old.parents.items) }
        ensures class { IfOk result (λ found. (class : ℕ → ℕ)
            → Represents self.old.parents.items class
            → (k : ℕ) → k < length self.old.parents.items → slice_index found.items k ≡ class k) }
    {
        let count = self.parents.len();
        let mut found = Vec::with_capacity(alloc, count)?;
        for node in 0..count {
            let root = self.find(node);
            found.push(root)?;
        }
        Ok(found)
    }
}
