//! Tests of reading FlatCurry, over public calls.
#![tactic(auto)]

#[cfg(test)]
mod faults;
#[cfg(test)]
mod reads;
