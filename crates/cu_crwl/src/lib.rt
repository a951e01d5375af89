//! Proofs of what terms are worth, and their checker. A proof is a list of
//! steps: each says what a term is worth in an environment, and cites the
//! earlier steps from which it follows by a row of the calculus.
#![tactic(auto)]

mod answer;
mod apply;
mod check;
mod checker;
mod choose;
mod claim;
mod compare;
mod copy;
mod environment;
mod follow;
mod laws;
mod matching;
mod of_program;
mod same;

pub use check::{checks, conclusion};
pub use claim::{Claim, Claims, Proof, Statement, Step};
pub use laws::following_is_decided;
