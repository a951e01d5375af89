//! What the tests of several crates stand on: gates, and parts of kernel
//! programs.
#![tactic(auto)]

mod gates;
mod lists;
mod programs;
mod types;

pub use gates::{CountingGate, HoldingGate};
pub use lists::{and, boxed, one, pair_of};
pub use programs::{
    CONS, ENTITIES, FALSE, NAME, NIL, TRUE, both, constant, constant_pattern, external, false_rule,
    lowered, mark, marks, modules, number, of_rules, program_of, rule, true_rule,
};
pub use types::{constructor, data_type, plain_types, tuple_type, values_type, variables};
