//! The text of proofs: what is written of a proof and of the claims that it
//! may use, and read again, and files that have a goal before such a text.
#![tactic(auto)]

mod cells;
mod fault;
mod files;
mod heads;
mod laws;
mod lines;
mod lists;
mod numbers;
mod parts;
mod progress;
mod ranges;
mod reading;
mod reading_patterns;
mod reading_terms;
mod term_parts;
mod terms;
mod values;
mod writing;

pub use fault::ProofFault;
pub use files::{File, read_file};
pub use laws::{files_are_of_one_goal, texts_are_of_one_proof};
pub use reading::read_proof;
pub use writing::write_proof;
