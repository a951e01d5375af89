//! Whether a proof proves an answer of a goal.
#![tactic(auto)]

mod answer;
mod laws;
mod terms;
mod values;

pub use answer::{Answer, proved_answer};
pub use laws::proofs_prove_one_answer;
