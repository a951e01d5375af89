//! The operations that are built in, and the entities that they speak of.
use crate::{ConId, FunId};

/// The operations that are built in.
#[derive(Clone, Copy, Debug, PartialEq, Eq)]
pub enum Primitive {
    /// The sum of two integers.
    Add,
    /// The difference of two integers.
    Sub,
    /// The product of two integers.
    Mul,
    /// The quotient of two integers, rounded towards minus infinity.
    Div,
    /// The rest of the division that rounds towards minus infinity.
    Mod,
    /// Whether the first integer is below the second.
    Less,
    /// Whether the first integer is at most the second.
    AtMost,
    /// Whether the first integer is above the second.
    Greater,
    /// Whether the first integer is at least the second.
    AtLeast,
    /// Whether two data terms are the same, `==`.
    Equal,
    /// The equation of two data terms, `=:=`.
    Unify,
    /// The concurrent conjunction, `&`.
    And,
    /// A character's number.
    Ord,
    /// The character of a number.
    Chr,
    /// The operation that has no value.
    Failed,
}

/// The entities of a program that the built-in operations and set functions
/// speak of.
#[derive(Clone, Copy, Debug, PartialEq, Eq)]
pub struct Special {
    /// The constructor `False`.
    pub falsity: ConId,
    /// The constructor `True`.
    pub truth: ConId,
    /// The empty list.
    pub nil: ConId,
    /// The list constructor `:`.
    pub cons: ConId,
    /// The operation `&&`.
    pub both: FunId,
    /// The constructor of the values of set functions, where the program has
    /// set functions.
    pub values: Option<ConId>,
}
