//! Tests of sessions: askers, inputs that come in pieces, lines at the limit,
//! and failing reads, writes and askers.
#![tactic(auto)]

#[cfg(test)]
mod counter;
#[cfg(test)]
mod echo;
#[cfg(test)]
mod faults;
#[cfg(test)]
mod sessions;
#[cfg(test)]
mod slow;
#[cfg(test)]
mod tried;
