//! Terms whose local functions aren't lifted yet.
use crate::{Head, Lit, Mode, Pattern, Prim, TypeTerm};
use cu_names::{NameId, Place};

/// What stands at the head of an application before lifting.
#[derive(Clone, Copy, Debug, PartialEq, Eq)]
pub enum LocalHead {
    /// A head of the program. A function's number is its index among the
    /// top-level functions of all modules.
    Global(Head),
    /// A local function of the same top-level function, by its index among
    /// these.
    Local(u32),
}

/// A term before lifting.
///
/// A variable has one number within a top-level function, so the variables
/// that a local function captures are found by their numbers. These are given
/// in the order of their declaration in the text, those of the function's own
/// parameters and those of its local functions and blocks alike: a variable of
/// a pattern is declared where it stands in the pattern, and the fresh one
/// that stands for the whole value of a pattern binding comes before the
/// pattern's. A goal's own variables come last. Lifting puts the variables
/// that a local function captures before its parameters in the order of their
/// numbers: of `f = let { g y = (w + y) + z; z = 1; w = 2 } in g 3` the
/// function `g` becomes `f#1`, which takes z, w and y.
#[derive(Drop)]
pub enum LocalTerm {
    /// A variable.
    Var(u32),
    /// A literal.
    Lit(Lit),
    /// A head with all its arguments. Those of a local function are its own
    /// arguments, without the variables that it captures.
    Whole(LocalHead, Vec<LocalTerm>),
    /// A head with fewer arguments than it takes.
    Part(LocalHead, Vec<LocalTerm>),
    /// The application of the first term's value, a function, to the second.
    Apply(Box<LocalTerm>, Box<LocalTerm>),
    /// The second term, where the variable stands for the first.
    Let(u32, Box<LocalTerm>, Box<LocalTerm>),
    /// The term, in which the variable is free: a logic variable.
    Free(u32, Box<LocalTerm>),
    /// A choice between two terms.
    Or(Box<LocalTerm>, Box<LocalTerm>),
    /// A case distinction: a scrutinee, and alternatives in order.
    Case(Mode, Box<LocalTerm>, Vec<(Pattern, LocalTerm)>),
}

/// A rule before lifting.
#[derive(Drop)]
pub struct LocalRule {
    /// A pattern for each parameter.
    pub params: Vec<Pattern>,
    /// The right side.
    pub body: LocalTerm,
}

/// What a top-level function computes, before lifting.
#[derive(Drop)]
pub enum LocalBody {
    /// The rules of the function, in order.
    Rules(Vec<LocalRule>),
    /// An operation that is built in.
    External(Prim),
}

/// A local function. It has no name yet: lifting names the local functions
/// of a top-level function in the order of their indices.
#[derive(Drop)]
pub struct LocalFunction {
    /// The place of the local function's first token.
    pub place: Place,
    /// The local function's declared type, if it has one.
    pub declared: Option<TypeTerm>,
    /// How many parameters the local function has, without captured variables.
    pub arity: u32,
    /// The rules of the local function, in order.
    pub rules: Vec<LocalRule>,
}

/// A top-level function with its local functions, however deep these are
/// nested.
#[derive(Drop)]
pub struct TopFunction {
    /// The function's name, without its module's.
    pub name: NameId,
    /// How many parameters the function has.
    pub arity: u32,
    /// What the function computes.
    pub body: LocalBody,
    /// The local functions; a term names one by its index here.
    pub locals: Vec<LocalFunction>,
}
