//! Tests of the machine: stores of graphs, what steps make of them, rounds of
//! workers, and searches.
#![tactic(auto)]

#[cfg(test)]
mod benches;
#[cfg(test)]
mod endings;
#[cfg(test)]
mod equations;
#[cfg(test)]
mod forks;
#[cfg(test)]
mod jobs;
#[cfg(test)]
mod listed;
#[cfg(test)]
mod listings;
#[cfg(test)]
mod operations;
#[cfg(test)]
mod pauses;
#[cfg(test)]
mod programs;
#[cfg(test)]
mod random;
#[cfg(test)]
mod rounds;
#[cfg(test)]
mod rows;
#[cfg(test)]
mod runs;
#[cfg(test)]
mod searched;
#[cfg(test)]
mod searches;
#[cfg(test)]
mod wide;
#[cfg(test)]
mod workers;
