//! Tests of the text of proofs, over public calls.
#![tactic(auto)]

#[cfg(test)]
mod files;
#[cfg(test)]
mod reads;
#[cfg(test)]
mod texts;
