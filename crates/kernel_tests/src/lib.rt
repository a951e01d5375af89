//! Tests of kernel programs, of what they are worth, and of what is made of
//! them: values, the checker of proofs, lifting, lowering, types and texts.
#![tactic(auto)]

#[cfg(test)]
mod answers;
#[cfg(test)]
mod captured_variables;
#[cfg(test)]
mod checked_parts;
#[cfg(test)]
mod chooser_programs;
#[cfg(test)]
mod crwl;
#[cfg(test)]
mod dependency_groups;
#[cfg(test)]
mod displays;
#[cfg(test)]
mod doubled_types;
#[cfg(test)]
mod inference;
#[cfg(test)]
mod kernel_build;
#[cfg(test)]
mod kernel_functions;
#[cfg(test)]
mod kernel_joining;
#[cfg(test)]
mod kernel_programs;
#[cfg(test)]
mod kernel_sample;
#[cfg(test)]
mod kernel_terms;
#[cfg(test)]
mod kernel_types;
#[cfg(test)]
mod local_programs;
#[cfg(test)]
mod lowered_programs;
#[cfg(test)]
mod printed_declarations;
#[cfg(test)]
mod printed_functions;
#[cfg(test)]
mod sample_types;
#[cfg(test)]
mod set_levels;
#[cfg(test)]
mod texts;
#[cfg(test)]
mod unification;
#[cfg(test)]
mod values;
#[cfg(test)]
mod written_programs;
