//! What the lines of a listing come to.
ghost use Rattle.std.specs.Prelude.{◌≡◌, OnOk};
ghost use Rattle.cu_search.specs.Totals as spec;
ghost use Rattle.cu_search.specs.Totals.{and_answer, and_wait, no_lines};
ghost use Rattle.cu_step.specs.Outcome.{reading_of};

use cu_calculus::Lit;
use cu_int::Int;
use cu_step::Reading;
use cu_values::{Cell, Value};
use std::alloc::AllocError;

/// How many lines a listing has before its last one, and the sum of the numbers
/// of one to ten digits that stand alone after the round in such a line.
#[derive(Clone, Copy, Debug, PartialEq, Eq)]
pub struct Totals {
    pub lines: u64,
    pub sum: i128,
}

impl Totals {
    /// What no lines come to.
    pub(crate) fn new() -> Totals
        ensures { result ≡ no_lines }
    {
        Totals { lines: 0, sum: 0 }
    }

    /// Counts the line of an answer. A sum that left 128 bits would count as
    /// an allocation failure; so many lines don't fit into any memory.
    pub(crate) fn add_answer(&mut self, reading: &Reading) -> Result<(), AllocError>
        ensures { OnOk result (self.new ≡ and_answer self.old (reading_of reading.now)) }
    {
        self.lines = self.lines.checked_add(1).ok_or(AllocError)?;
        self.sum = self.sum.checked_add(addend(reading)).ok_or(AllocError)?;
        Ok(())
    }

    /// Counts the line of a branch that waits.
    pub(crate) fn add_wait(&mut self) -> Result<(), AllocError>
        ensures { OnOk result (self.new ≡ and_wait self.old) }
    {
        self.lines = self.lines.checked_add(1).ok_or(AllocError)?;
        Ok(())
    }
}

/// What an answer adds to the sum.
fn addend(reading: &Reading) -> i128
    ensures { result ≡ spec.addend (reading_of reading.now) }
{
    if reading.bindings.is_empty() {
        value_addend(&reading.value)
    } else {
        0
    }
}

/// What a value that stands alone in its line adds to the sum.
fn value_addend(value: &Value) -> i128
    ensures { result ≡ spec.value_addend value.now }
{
    match value.head() {
        Cell::Lit(Lit::Int(number)) => number_addend(number),
        _ => 0,
    }
}

/// What a number adds to the sum.
fn number_addend(number: Int) -> i128
    ensures { result ≡ spec.number_addend number }
{
    if is_short(number) { number } else { 0 }
}

/// Whether a number has one to ten digits and no sign.
fn is_short(number: Int) -> bool
    ensures { result ≡ spec.is_short number }
{
    0 <= number && number < 10_000_000_000
}
