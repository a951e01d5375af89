//! Pieces of an expression.
use crate::Fixity;

/// A piece of an expression: an operand, or an operator with its fixity.
#[derive(Clone, Copy, Debug, PartialEq, Eq)]
pub enum Piece {
    /// What stands between operators.
    Operand,
    /// A minus that stands before its only operand.
    Minus,
    /// An operator between two operands.
    Operator(Fixity),
}
