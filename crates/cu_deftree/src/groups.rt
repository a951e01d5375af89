//! The rows of a clause matrix, grouped by what they demand.
ghost use Rattle.std.specs.Prelude.{◌≡◌, ◌++◌, ◌∷◌, [], IfOk, OnOk, cond};
ghost use Rattle.cu_deftree.specs.Inside.Groups.{choice_demand, found_indices, indices, indices_of};
ghost use Rattle.cu_deftree.specs.Inside.RowsOf.{all_rows, demands_choice};
ghost use Rattle.cu_deftree.specs.Rows.{demand_at};
ghost use Rattle.cu_deftree.specs.declared.patterns.Choice.{Choice};
ghost use Rattle.cu_matrix.specs.Meaning.{demand_meaning};

use crate::patterns::{Choice, Key};
use crate::rows::Row;
use cu_matrix::Demand;
use indexmap::IndexMap;
use std::alloc::{AllocError, Global};

/// The indices of the rows that demand something at one position, grouped by
/// what they demand.
#[derive(Drop)]
pub(crate) struct Groups {
    indices: IndexMap<Key, Vec<usize>>,
}

/// The indices that a map held under a key, or none where it held nothing.
fn or_none(alloc: Global, found: Option<Vec<usize>>) -> Vec<usize>
    ensures { result.items ≡ found_indices found }
{
    match found {
        Some(indices) => indices,
        None => Vec::new(alloc),
    }
}

impl Groups {
    /// Groups rows by what they demand at a position. Rows that demand
    /// nothing there are in no group.
    pub(crate) fn new(alloc: Global, rows: &[Row], position: usize) -> Result<Groups, AllocError>
        ensures { (c : Choice) → IfOk result (λ groups. indices groups c
            ≡ indices_of (λ row. demands_choice c (demand_at position row)) 0 (all_rows rows.now)) }
    {
        let mut groups = Groups {
            indices: IndexMap::new(alloc),
        };
        let count = rows.len();
        for index in 0..count {
            groups.add(alloc, rows[index].demand_at(position), index)?;
        }
        Ok(groups)
    }

    /// Adds the index of a row to the group of its demand, if the row demands
    /// something.
    fn add(&mut self, alloc: Global, demand: Demand, index: usize) -> Result<(), AllocError>
        ensures { (c : Choice) → OnOk result (indices self.new c ≡ indices self.old c
            ++ cond (demands_choice c (demand_meaning demand)) (index ∷ []) []) }
    {
        match Choice::of(demand) {
            Some(choice) => self.put(alloc, choice, index),
            None => Ok(()),
        }
    }

    /// Adds the index of a row to the group of a choice.
    fn put(&mut self, alloc: Global, choice: Choice, index: usize) -> Result<(), AllocError>
        ensures { (c : Choice) → OnOk result (indices self.new c ≡ indices self.old c
            ++ cond (demands_choice c (choice_demand choice)) (index ∷ []) []) }
    {
        let key = choice.key();
        let before = self.indices.insert(key, Vec::new(alloc))?;
        let mut indices = or_none(alloc, before);
        indices.push(index)?;
        self.indices.insert(key, indices)?;
        Ok(())
    }

    /// The indices of the rows that demand this choice, in ascending order.
    pub(crate) fn of(&self, choice: Choice) -> &[usize]
        ensures { result.now ≡ indices self.now choice }
    {
        let key = choice.key();
        match self.indices.get(&key) {
            Some(indices) => indices.as_slice(),
            None => &[],
        }
    }
}
