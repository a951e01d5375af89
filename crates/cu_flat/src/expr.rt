//! Expressions of flat code.
use crate::{ConId, Head, Lit, Mode};

/// The index of an expression among a program's expressions.
pub use cu_calculus::ExprId;

/// The pattern of a branch.
#[derive(Debug, Drop)]
pub enum Pattern {
    /// A literal.
    Lit(Lit),
    /// A constructor over variables, one for each argument.
    Con(ConId, Vec<u32>),
}

/// An expression of flat code. It names its parts by their indices.
#[derive(Drop)]
pub enum Expr {
    /// A variable.
    Var(u32),
    /// A literal.
    Lit(Lit),
    /// A head with all its arguments.
    Whole(Head, Vec<ExprId>),
    /// A head with fewer arguments than it takes.
    Part(Head, Vec<ExprId>),
    /// The application of the first expression's value, a function, to the
    /// second.
    Apply(ExprId, ExprId),
    /// The second expression, where the variable stands for the first.
    Let(u32, ExprId, ExprId),
    /// The expression, in which the variable is free: a logic variable.
    Free(u32, ExprId),
    /// A choice between two expressions.
    Or(ExprId, ExprId),
    /// A case distinction: a scrutinee, and a branch for each pattern. No two
    /// patterns have the same literal or constructor.
    Case(Mode, ExprId, Vec<(Pattern, ExprId)>),
}

/// The body of a function: its rule, or the operation that is built in.
#[derive(Drop)]
pub enum FlatBody {
    /// The rule of the function: parameters, which are different variables, and
    /// a right side.
    Rule(Vec<u32>, ExprId),
    /// The operation that is built in.
    External(crate::Prim),
}

/// A function of flat code.
#[derive(Drop)]
pub struct FlatFunction {
    /// How many parameters the function has.
    pub arity: u32,
    /// The function's rule, or the operation that is built in.
    pub body: FlatBody,
}

/// A constructor of flat code.
#[derive(Clone, Copy, Debug, PartialEq, Eq)]
pub struct FlatConstructor {
    /// The index of the constructor's type among the program's types.
    pub of_type: usize,
    /// How many arguments the constructor takes.
    pub arity: u32,
}
