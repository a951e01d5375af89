//! What programs are made of, and the calculus that says what an expression
//! is worth. The crate has the plain types that the definitions name, and in
//! `specs/` the definitions themselves; it computes nothing.
#![tactic(auto)]

mod builtin;
mod flat_laws;
mod laws;

pub use builtin::{Primitive, Special};
pub use cu_int::Int;
pub use flat_laws::{expressions_are_terms, flat_code_is_a_program};
pub use laws::{
    answering_is_a_function, approximation_is_an_order, calls_have_proofs, choices_rise,
    choosing_is_a_function, cited_claims_suffice, claims_extend, coin_is_zero_or_one,
    comparing_is_a_function, derivations_stay_in_the_program, derivations_weaken,
    flat_alternatives_meet, forms_agree, least_levels_are_unique, matches_rise, proofs_join,
    taken_alternatives_match, true_claims_are_exact, true_claims_combine,
    values_have_a_total_order,
};

/// The operations that are built in.
pub type Prim = Primitive;

/// A literal of a program, and the value that it stands for.
#[derive(Clone, Copy, Debug, PartialEq, Eq)]
pub enum Lit {
    /// An integer.
    Int(Int),
    /// A character, a Unicode scalar.
    Char(char),
}

/// An operation of a program, by its index among the program's operations.
#[derive(Clone, Copy, Debug, PartialEq, Eq)]
pub struct FunId(pub usize);

/// A constructor of a program, by its number: those of the first type come
/// first, each in the order of its declaration.
#[derive(Clone, Copy, Debug, PartialEq, Eq)]
pub struct ConId(pub usize);

/// What stands at the head of an application.
#[derive(Clone, Copy, Debug, PartialEq, Eq)]
pub enum Head {
    /// A defined operation.
    Fun(FunId),
    /// A constructor.
    Con(ConId),
    /// The set function of an operation.
    Set(FunId),
}

/// Whether a case distinction waits for a free variable or binds it.
#[derive(Clone, Copy, Debug, PartialEq, Eq)]
pub enum Mode {
    /// The case distinction waits for a free variable (residuation), as `case`
    /// does.
    Rigid,
    /// The case distinction binds a free variable (narrowing), as `fcase` does.
    Flex,
}

/// An expression of flat code, by its index among the program's expressions.
#[derive(Clone, Copy, Debug, PartialEq, Eq)]
pub struct ExprId(pub usize);
