//! Tests of the front end, from the characters of a text to syntax, grouping,
//! modules and the types that they declare.
#![tactic(auto)]

#[cfg(test)]
mod built_in;
#[cfg(test)]
mod declared;
#[cfg(test)]
mod entities;
#[cfg(test)]
mod goals;
#[cfg(test)]
mod grammar;
#[cfg(test)]
mod grouping;
#[cfg(test)]
mod layouts;
#[cfg(test)]
mod modules;
#[cfg(test)]
mod names;
#[cfg(test)]
mod scopes;
#[cfg(test)]
mod tables;
#[cfg(test)]
mod tokens;
#[cfg(test)]
mod views;
