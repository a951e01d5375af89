//! The numbers of variables.
ghost use Rattle.std.specs.Prelude.{◌≡◌, IfOk, OnOk};
ghost use Rattle.cu_flattext.specs.ExpressionTexts.{numbered};
ghost use Rattle.cu_flattext.specs.Inside.Stands.{numbers_of};

use std::alloc::{AllocError, Global};
use std::collections::BTreeMap;

/// The number of each variable that is bound; others have the number 0.
#[derive(Drop)]
pub(crate) struct VariableNumbers {
    given: BTreeMap<u32, u64>,
}

impl VariableNumbers {
    ghost use Rattle.std.specs.Prelude.{◌≡◌, IfOk, OnOk};
    ghost use Rattle.cu_flattext.specs.ExpressionTexts.{no_numbers, numbered};
    ghost use Rattle.cu_flattext.specs.Inside.Stands.{numbers_of};

    /// The numbers before any variable is bound.
    pub(crate) fn new(alloc: Global) -> VariableNumbers
        ensures { numbers_of result ≡ no_numbers }
    {
        VariableNumbers {
            given: BTreeMap::new(alloc),
        }
    }

    /// The number of a variable.
    pub(crate) fn number(&self, x: u32) -> u64
        ensures { result ≡ numbers_of self.now x }
    {
        match self.given.get(&x) {
            Some(number) => *number,
            None => 0,
        }
    }

    /// Gives a variable a number, and answers the number that it had.
    pub(crate) fn set(&mut self, x: u32, number: u64) -> Result<u64, AllocError>
        ensures before { IfOk result (λ before. before ≡ numbers_of self.old x) }
        ensures after { OnOk result (numbers_of self.new
            ≡ numbered x number (numbers_of self.old)) }
    {
        let before = self.given.insert(x, number)?;
        Ok(before.unwrap_or(0))
    }
}
