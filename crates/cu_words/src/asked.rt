//! The commands of the line.
use crate::check::Check;
use crate::compile::Compile;
use crate::solve::Solve;
use crate::trial::Trial;

/// What the words ask for.
#[derive(Clone, Copy, Debug)]
pub enum Asked<'a> {
    /// The listing of a goal.
    Solve(Solve<'a>),
    /// The text of a module as FlatCurry.
    Compile(Compile<'a>),
    /// A trial of the search.
    Trial(Trial),
    /// Whether the proof in a file is right.
    Check(Check<'a>),
    /// A session, whose lines the input has.
    Session,
}
