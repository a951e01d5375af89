//! Proofs written by hand over a sample program, some accepted and some
//! refused. What is right follows from the rows of the calculus alone.

mod calls;
mod choices;
mod comparisons;
mod draft;
mod forms;
mod operations;
mod places;
mod sample;
mod sets;
