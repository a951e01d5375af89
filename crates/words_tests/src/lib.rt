//! Tests of the words of the command line, and of the lines of a session.
#![tactic(auto)]

#[cfg(test)]
mod grammar;
#[cfg(test)]
mod lines;
