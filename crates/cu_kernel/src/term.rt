//! Patterns, terms and functions.
use crate::{ConId, Head, Lit, Mode, Prim};
use cu_names::NameId;

/// What a value is matched against.
#[derive(Drop)]
pub enum Pattern {
    /// A variable, which every value matches.
    Var(u32),
    /// A literal.
    Lit(Lit),
    /// A constructor with all its arguments.
    Con(ConId, Vec<Pattern>),
    /// A variable for the whole value, and a pattern that it matches.
    Alias(u32, Box<Pattern>),
}

/// A term: what a rule's right side is made of. A term is as deep as it was
/// written, and is walked by recursion.
#[derive(Drop)]
pub enum Term {
    /// A variable.
    Var(u32),
    /// A literal.
    Lit(Lit),
    /// A head with all its arguments.
    Whole(Head, Vec<Term>),
    /// A head with fewer arguments than it takes.
    Part(Head, Vec<Term>),
    /// The application of the first term's value, a function, to the second.
    Apply(Box<Term>, Box<Term>),
    /// The second term, where the variable stands for the first.
    Let(u32, Box<Term>, Box<Term>),
    /// The term, in which the variable is free: a logic variable.
    Free(u32, Box<Term>),
    /// A choice between two terms.
    Or(Box<Term>, Box<Term>),
    /// A case distinction: a scrutinee, and alternatives in order.
    Case(Mode, Box<Term>, Vec<(Pattern, Term)>),
}

/// A rule of a function.
#[derive(Drop)]
pub struct Rule {
    /// A pattern for each parameter.
    pub params: Vec<Pattern>,
    /// The right side of the rule.
    pub body: Term,
}

/// What a function computes.
#[derive(Drop)]
pub enum Body {
    /// The rules of the function, in order.
    Rules(Vec<Rule>),
    /// An operation that is built in.
    External(Prim),
}

/// A function of a program.
#[derive(Drop)]
pub struct Function {
    /// The function's name, without its module's.
    pub name: NameId,
    /// How many parameters the function has, below 2^32 - 1.
    pub arity: u32,
    /// What the function computes.
    pub body: Body,
}
