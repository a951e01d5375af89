//! The least set of numbers that is closed under conditions.
ghost use Rattle.std.specs.Prelude.{◌≡◌, ◌<◌, Bool, length, IfNone, IfOk, IfSome, slice_index_or, false, vec_len};
ghost use Rattle.cu_peg.specs.Inside.Closure.{holds, Derived, IsSaturated, MayJoin};

use crate::RowNumbers;
use std::alloc::{AllocError, Global};

/// How many of its numbers a condition asks for.
#[derive(Clone, Copy, Debug)]
pub enum Quantifier {
    All,
    Any,
}

/// When a number joins a set: where all or any of these numbers are in it.
#[derive(Debug, Drop)]
pub struct Condition {
    pub quantifier: Quantifier,
    pub numbers: RowNumbers,
}

/// A set of numbers, and the order in which they joined it.
#[derive(Debug, Drop)]
pub struct Closure {
    /// Whether each number is in the set.
    pub marks: Vec<bool>,
    pub order: Vec<usize>,
}

/// Whether a number is in a set.
pub fn is_marked(marks: &[bool], number: usize) -> bool
    ensures { result ≡ slice_index_or marks.now number false }
{
    match marks.get(number) {
        Some(mark) => *mark,
        None => false,
    }
}

impl Condition {
    /// A condition that asks for all or any of these numbers.
    pub fn new(
        alloc: Global,
        quantifier: Quantifier,
        numbers: &[u32],
    ) -> Result<Condition, AllocError>
        ensures { IfOk result (λ condition. condition
            ≡ record { quantifier = quantifier; numbers = numbers.now }) }
    {
        let numbers = RowNumbers::new(Vec::from_slice(alloc, numbers)?);
        Ok(Condition {
            quantifier,
            numbers,
        })
    }

    /// Whether the condition holds of a set.
    pub fn holds(&self, marks: &[bool]) -> bool
        ensures { result ≡ holds marks.now self.now }
    {
        let numbers = self.numbers.as_slice();
        match self.quantifier {
            Quantifier::All => numbers.iter().all(|n| is_marked(marks, *n as usize)),
            Quantifier::Any => numbers.iter().any(|n| is_marked(marks, *n as usize)),
        }
    }
}

/// The least set that has all numbers of a set and each number whose condition
/// holds.
pub fn saturate(
    alloc: Global,
    conditions: &[Condition],
    marks: Vec<bool>,
) -> Result<Closure, AllocError>
    requires { vec_len marks ≡ length conditions.now }
    ensures derived { IfOk result
        (λ found. Derived conditions.now marks.items found.marks.items found.order.items) }
    ensures saturated { IfOk result (λ found. IsSaturated conditions.now found.marks.items) }
{
    let mut marks = marks;
    let mut order = Vec::new(alloc);
    while let Some(number) = next(conditions, marks.as_slice()) {
        order.push(number)?;
        marks[number] = true;
    }
    Ok(Closure { marks, order })
}

/// The first number that isn't in the set and whose condition holds.
fn next(conditions: &[Condition], marks: &[bool]) -> Option<usize>
    ensures none { IfNone result (IsSaturated conditions.now marks.now) }
    ensures some { IfSome result (MayJoin conditions.now marks.now) }
{
    for (number, condition) in conditions.iter().enumerate() {
        if !is_marked(marks, number) && condition.holds(marks) {
            return Some(number);
        }
    }
    None
}
