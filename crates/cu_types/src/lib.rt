//! Types of programs: unification, and inference.
#![tactic(auto)]

mod asking;
mod breadth;
mod builtin;
mod classes;
mod closing;
mod cycle;
mod equation;
mod functional;
mod group;
mod inference;
mod keeping;
mod known;
mod laws;
mod node;
mod numbering;
mod order;
mod pair;
mod reader;
mod reading;
mod replacing;
mod rules;
mod shared;
mod solution;
mod solve;
mod synonyms;
mod unification;
mod variables;
mod walk;

pub use equation::Equation;
pub use inference::{TypeFault, infer};
pub use laws::{
    answers_exclude, clashes_leave_no_solution, clashes_refute, declared_types_hold, faults_agree,
    interfaces_agree, most_general_agree, samples_are_answered, samples_ask, solutions_agree,
};
pub use node::{Node, TypeHead};
pub use shared::{Interface, Opened, SharedType};
pub use unification::{Clash, Subst, UnifyFault, unify};
