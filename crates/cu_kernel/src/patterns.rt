//! Which patterns are valid, and which variables they bind.
ghost use Rattle.std.specs.Prelude.{◌≡◌, ◌++◌, OnOk};
ghost use Rattle.cu_calculus.specs.Literal.{is_literal};
ghost use Rattle.cu_calculus.specs.Valid.{all_variables, fit_patterns, fits_pattern, is_linear, variables_of};
ghost use Rattle.cu_kernel.specs.Heads.{heads_program};
ghost use Rattle.cu_kernel.specs.TermsOf.{pattern_of, patterns_of};

use crate::heads::Heads;
use crate::{Head, Lit, Pattern};
use std::alloc::AllocError;

/// Whether a literal is one of the language, which its type makes sure of.
pub(crate) fn literal_fits(literal: Lit) -> bool
    ensures { result ≡ is_literal literal }
{
    match literal {
        Lit::Int(_) => true,
        Lit::Char(_) => true,
    }
}

/// Whether the constructors of a pattern are the program's and have all
/// their arguments.
#[cycle(patterns)]
#[tactic(auto, using(crate::specs::TermsOf::patterns_of_variants, crate::proofs::ListCounts::counts))]
pub(crate) fn pattern_fits(heads: &Heads, pattern: &Pattern) -> bool
    ensures { result ≡ fits_pattern (heads_program heads.now) (pattern_of pattern.now) }
{
    match pattern {
        Pattern::Var(_) => true,
        Pattern::Lit(literal) => literal_fits(*literal),
        Pattern::Con(constructor, parts) => {
            heads.takes(Head::Con(*constructor), parts.len()) && patterns_fit(heads, parts)
        }
        Pattern::Alias(_, part) => pattern_fits(heads, part),
    }
}

/// Whether the constructors of all of these patterns are the program's and have
/// all their arguments.
#[cycle(patterns)]
pub(crate) fn patterns_fit(heads: &Heads, patterns: &[Pattern]) -> bool
    ensures { result ≡ fit_patterns (heads_program heads.now) (patterns_of patterns.now) }
{
    for pattern in patterns {
        if !pattern_fits(heads, pattern) {
            return false;
        }
    }
    true
}

/// Pushes the variables that a pattern binds, from left to right.
#[cycle(variables)]
#[tactic(auto, using(crate::specs::TermsOf::patterns_of_variants))]
pub fn push_variables(variables: &mut Vec<u32>, pattern: &Pattern) -> Result<(), AllocError>
    ensures { OnOk result (variables.new.items
        ≡ variables.old.items ++ variables_of (pattern_of pattern.now)) }
{
    match pattern {
        Pattern::Var(x) => {
            variables.push(*x)?;
            Ok(())
        }
        Pattern::Lit(_) => Ok(()),
        Pattern::Con(_, parts) => push_all_variables(variables, parts),
        Pattern::Alias(x, part) => {
            variables.push(*x)?;
            push_variables(variables, part)
        }
    }
}

/// Pushes the variables that these patterns bind, from left to right.
#[cycle(variables)]
pub fn push_all_variables(variables: &mut Vec<u32>, patterns: &[Pattern]) -> Result<(), AllocError>
    ensures { OnOk result (variables.new.items
        ≡ variables.old.items ++ all_variables (patterns_of patterns.now)) }
{
    for pattern in patterns {
        push_variables(variables, pattern)?;
    }
    Ok(())
}

/// Whether no variable stands twice.
pub(crate) fn is_linear(variables: &[u32]) -> bool
    ensures { result ≡ is_linear variables.now }
{
    for (place, x) in variables.iter().enumerate() {
        if variables[place + 1..].contains(x) {
            return false;
        }
    }
    true
}
