//! Parts of expressions and patterns with operators.
use cu_names::Place;
use cu_syntax::Name;

/// An operand of type `T`, or an operator.
#[derive(Clone, Copy, Debug)]
pub enum Part<T> {
    Operand(T),
    /// A minus that stands before its only operand.
    Minus(Place),
    Operator(Name),
}
