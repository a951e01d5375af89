//! The machine by definition: graphs, states, needs, steps, runs, levels and
//! listings. The crate has the plain types that the definitions name, and in
//! `specs/` the definitions themselves; it computes nothing.
#![tactic(auto)]

mod laws;

use cu_calculus::{ConId, FunId, Head, Int, Lit, Mode, Prim};
pub use laws::{
    answers_are_listed, answers_stand_at_their_depth, coins_are_listed, done_has_a_head,
    finds_are_of_the_program, needs_are_joined, rows_are_moves, runs_are_steps, states_stay_valid,
    states_stay_without_sets, tables_hold, visits_suffice,
};

/// What a node of a graph is.
#[derive(Clone, Copy, Debug, PartialEq, Eq)]
pub enum Kind {
    /// A constructor with all its arguments.
    Cons(ConId),
    /// A literal. It has no arguments.
    Lit(Lit),
    /// A head with fewer arguments than it takes.
    Part(Head),
    /// A free variable that isn't bound. It has no arguments.
    Free,
    /// A call of a function that has rules, on its arguments.
    Call(FunId),
    /// A built-in operation other than `failed`, on its arguments.
    Prim(Prim),
    /// The application of its first argument, a function, to its second one.
    Apply,
    /// A case distinction, by the number of its expression. Its arguments are
    /// the scrutinee and then the values of the variables that the expression
    /// keeps.
    Case(Mode, usize),
    /// A choice between its two arguments.
    Or,
    /// Another name of its only argument.
    Ind,
    /// The set function of a function, on its arguments.
    SetCall(FunId),
    /// A node that has no value: the branch that needs it fails.
    Fail,
    /// A node that can't go on: a branch that needs it waits for ever, and for
    /// no variable.
    Stuck,
}

/// What a branch waits for, by the names that a listing gives.
#[derive(Clone, Copy, Debug, PartialEq, Eq)]
pub enum Waited {
    /// A goal variable, by its number among them, counted from 0.
    Named(u32),
    /// Another variable, numbered from 1 in the order in which they are met.
    Other(u32),
}

/// The bounds on one step.
#[derive(Clone, Copy, Debug, PartialEq, Eq)]
pub struct Limits {
    /// The most nodes of one branch, 1 to 16,777,216.
    pub nodes: u32,
    /// The most open branches of one level, 1 to 1,048,576, also of a level of
    /// an inner search.
    pub width: u32,
}

/// The bounds on a whole search.
#[derive(Clone, Copy, Debug, PartialEq, Eq)]
pub struct SearchLimits {
    /// The last round, 1 to 1,000,000,000.
    pub rounds: u64,
    /// The last answer that is listed, 1 to 1,000,000,000, where there is one.
    pub answers: Option<u64>,
    /// The most steps by which a round takes a branch on, 1 to 1,000,000: a
    /// round ends for a branch where it forks or ends, or after so many steps.
    pub stride: u64,
    /// The bounds on each step.
    pub step: Limits,
}

/// Why a search stops before its tree is exhausted or a limit on rounds or
/// answers is reached. The limits hold the number that was counted.
#[derive(Clone, Copy, Debug, PartialEq, Eq)]
pub enum Stop {
    /// An operation on these numbers has a result that is no `Int`.
    Overflow(Prim, Int, Int),
    /// A branch has more nodes than the limit, or an answer more cells; the
    /// count stops at one more.
    TooLarge(u64),
    /// A level, also one of an inner search, has more open branches than the
    /// limit; the count is the whole one.
    TooWide(u64),
}

/// How a listing ends.
#[derive(Clone, Copy, Debug, PartialEq, Eq)]
pub enum End {
    /// The tree is exhausted, and so many of its branches wait for ever.
    NoMore(u64),
    /// The round limit was reached: the round, and how many branches are open.
    Rounds(u64, u64),
    /// The answer limit was reached: how many answers were listed.
    Answers(u64),
    /// The search stopped in this round. A level that is too wide stops the
    /// round that it would be.
    Stopped(Stop, u64),
}
