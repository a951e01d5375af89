//! Relations between numbers, and what is reached along them.
ghost use Rattle.std.specs.Prelude.{◌≡◌, ◌↔◌, [], ◌∷◌, IfOk, List, OnOk, length, map, true, ℕ};
ghost use Rattle.cu_sites.specs.Depending.{is_in, relates, row};
ghost use Rattle.cu_sites.specs.Inside.Relating.{Gains, Holds, IsBegun, IsReached, Meets, Reaches, pair, pair_to};

use indexmap::IndexSet;
use std::alloc::{AllocError, Global};

/// A relation between numbers: for each of the first numbers, those to which it
/// is related.
#[derive(Drop)]
pub(crate) struct Relation {
    rows: Vec<IndexSet<usize>>,
}

impl Relation {
    /// The relation in which none of the first numbers is related to any.
    pub(crate) fn new(alloc: Global, count: usize) -> Result<Relation, AllocError>
        ensures { IfOk result (Holds count []) }
    {
        let mut rows = Vec::new(alloc);
        let mut number = 0;
        while number < count {
            let row = IndexSet::new(alloc);
            rows.push(row)?;
            number += 1;
        }
        Ok(Relation { rows })
    }

    /// Relates one of the numbers to another number.
    pub(crate) fn add(&mut self, from: usize, to: usize) -> Result<(), AllocError>
        ensures { OnOk result (Gains (pair from to ∷ []) self.old self.new) }
    {
        if from < self.rows.len() {
            self.rows[from].insert(to)?;
        }
        Ok(())
    }

    /// Relates one of the numbers to these.
    pub(crate) fn add_row(&mut self, from: usize, row: &[usize]) -> Result<(), AllocError>
        ensures { OnOk result (Gains (map (pair from) row.now) self.old self.new) }
    {
        for to in row {
            self.add(from, *to)?;
        }
        Ok(())
    }

    /// Relates these of the numbers to another number.
    pub(crate) fn add_to_all(&mut self, froms: &[usize], to: usize) -> Result<(), AllocError>
        ensures { OnOk result (Gains (map (pair_to to) froms.now) self.old self.new) }
    {
        for from in froms {
            self.add(*from, to)?;
        }
        Ok(())
    }

    /// How many numbers have a row in the relation.
    pub(crate) fn count(&self) -> usize
        ensures { result ≡ length self.now.rows.items }
    {
        self.rows.len()
    }

    /// The numbers to which a number is related.
    pub(crate) fn row(&self, from: usize) -> &[usize]
        ensures { result.now ≡ row self.now from }
    {
        match self.rows.get(from) {
            Some(row) => row.as_slice(),
            None => &[],
        }
    }

    /// Whether a number is related to another.
    pub(crate) fn has(&self, from: usize, to: usize) -> bool
        ensures { result ≡ relates self.now from to }
    {
        match self.rows.get(from) {
            Some(row) => row.contains(&to),
            None => false,
        }
    }
}

/// A walk along a relation.
#[derive(Drop)]
struct Walk {
    /// The numbers that are reached.
    found: IndexSet<usize>,
    /// The numbers that aren't to be reached.
    shut: IndexSet<usize>,
}

impl Walk {
    /// The walk that has reached these numbers alone, except those that are
    /// shut.
    fn begun(alloc: Global, seeds: &[usize], shut: &[usize]) -> Result<Walk, AllocError>
        ensures { IfOk result (IsBegun seeds.now shut.now) }
    {
        let shut = set_of(alloc, shut)?;
        let mut walk = Walk {
            found: IndexSet::new(alloc),
            shut,
        };
        walk.meet_all(seeds)?;
        Ok(walk)
    }

    /// Reaches a number, unless it is shut.
    fn meet(&mut self, number: usize) -> Result<(), AllocError>
        ensures { OnOk result (Meets (number ∷ []) self.old self.new) }
    {
        if !self.shut.contains(&number) {
            self.found.insert(number)?;
        }
        Ok(())
    }

    /// Reaches those of these numbers that aren't shut.
    fn meet_all(&mut self, numbers: &[usize]) -> Result<(), AllocError>
        ensures { OnOk result (Meets numbers.now self.old self.new) }
    {
        for number in numbers {
            self.meet(*number)?;
        }
        Ok(())
    }

    /// Follows the relation from each number that was reached, until nothing is
    /// new.
    fn run(&mut self, relation: &Relation) -> Result<(), AllocError>
        ensures { (seeds shut : List ℕ) → IsBegun seeds shut self.old
            → OnOk result (IsReached relation.now seeds shut self.new) }
    {
        let mut next = 0;
        while next < self.found.len() {
            let number = self.found.as_slice()[next];
            self.meet_all(relation.row(number))?;
            next += 1;
        }
        Ok(())
    }
}

/// The set of these numbers.
fn set_of(alloc: Global, numbers: &[usize]) -> Result<IndexSet<usize>, AllocError>
    ensures { IfOk result (λ set. (k : ℕ) → is_in set.keys k ≡ is_in numbers.now k) }
{
    let mut set = IndexSet::new(alloc);
    for number in numbers {
        set.insert(*number)?;
    }
    Ok(set)
}

/// What is reached from these numbers along a relation, by way of no number
/// that is shut. Takes time in proportion to the rows of what is reached.
pub(crate) fn reached(
    alloc: Global,
    relation: &Relation,
    seeds: &[usize],
    shut: &[usize],
) -> Result<IndexSet<usize>, AllocError>
    ensures { IfOk result (λ found. (k : ℕ)
        → (is_in found.keys k ≡ true) ↔ Reaches relation.now seeds.now shut.now k) }
{
    let mut walk = Walk::begun(alloc, seeds, shut)?;
    walk.run(relation)?;
    let Walk { found, shut: _ } = walk;
    Ok(found)
}
