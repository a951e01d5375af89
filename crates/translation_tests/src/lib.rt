//! Tests of translation: forms of the language as texts, and the kernel programs
//! that they stand for; and goals that are asked of loaded modules.
#![tactic(auto)]

#[cfg(test)]
mod forms;
#[cfg(test)]
mod loaded;
#[cfg(test)]
mod programs;
#[cfg(test)]
mod terms;
