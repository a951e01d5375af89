//! Patterns matched with values.
ghost use Rattle.std.specs.Prelude.{◌≡◌, ◌++◌, ◌∷◌, IfOk, OnOk, option_map};
ghost use Rattle.cu_calculus.specs.Match.{all_matched, matched};
ghost use Rattle.cu_calculus.specs.Value.{values_of};
ghost use Rattle.cu_kernel.specs.TermsOf.{pattern_of, patterns_of};
ghost use Rattle.cu_crwl.specs.Table.{is_literal_value};

use crate::environment::one_binding;
use cu_kernel::{Lit, Pattern};
use cu_values::{Cell, Value};
use std::alloc::{AllocError, Global};

/// Whether a value is this literal.
pub(crate) fn literal_is(literal: Lit, value: &Value) -> bool
    ensures { result ≡ is_literal_value literal value.now }
{
    match value.head() {
        Cell::Lit(other) => other == literal,
        _ => false,
    }
}

/// What a pattern's variables stand for where it matches a value.
#[cycle(patterns)]
#[tactic(auto, using(cu_kernel::specs::TermsOf::patterns_of_variants))]
pub(crate) fn match_pattern(
    alloc: Global,
    pattern: &Pattern,
    value: &Value,
) -> Result<Option<Vec<(u32, Value)>>, AllocError>
    ensures { IfOk result (λ found. option_map (λ bindings. bindings.items) found ≡ matched
        (pattern_of pattern.now) value.now) }
{
    match pattern {
        Pattern::Var(variable) => {
            let bindings = one_binding(alloc, *variable, value)?;
            Ok(Some(bindings))
        }
        Pattern::Lit(literal) => {
            if literal_is(*literal, value) {
                Ok(Some(Vec::new(alloc)))
            } else {
                Ok(None)
            }
        }
        Pattern::Con(constructor, patterns) => match value.head() {
            Cell::Con(other, _) => {
                if constructor.0 != other.0 {
                    return Ok(None);
                }
                let arguments = value.arguments()?;
                match_patterns(alloc, patterns, &arguments)
            }
            _ => Ok(None),
        },
        Pattern::Alias(variable, pattern) => {
            let found = match_pattern(alloc, pattern, value)?;
            with_whole(found, *variable, value)
        }
    }
}

/// What the variables of patterns stand for where they match values, one for
/// each.
#[cycle(patterns)]
pub(crate) fn match_patterns(
    alloc: Global,
    patterns: &[Pattern],
    values: &[Value],
) -> Result<Option<Vec<(u32, Value)>>, AllocError>
    ensures { IfOk result (λ found. option_map (λ bindings. bindings.items) found ≡ all_matched
        (patterns_of patterns.now) (values_of values.now)) }
{
    if patterns.len() != values.len() {
        return Ok(None);
    }
    let mut bindings = Vec::new(alloc);
    for i in 0..patterns.len() {
        match match_pattern(alloc, &patterns[i], &values[i])? {
            Some(more) => append(&mut bindings, more)?,
            None => return Ok(None),
        }
    }
    Ok(Some(bindings))
}

/// The bindings that were found, and before them that of a variable to the
/// whole value.
fn with_whole(
    found: Option<Vec<(u32, Value)>>,
    variable: u32,
    value: &Value,
) -> Result<Option<Vec<(u32, Value)>>, AllocError>
    ensures { IfOk result (λ all. option_map (λ bindings. bindings.items) all
        ≡ option_map (λ bindings. (variable, value.now) ∷ bindings)
        (option_map (λ bindings. bindings.items) found)) }
{
    match found {
        Some(mut bindings) => {
            bindings.insert(0, (variable, value.clone()?))?;
            Ok(Some(bindings))
        }
        None => Ok(None),
    }
}

/// Appends bindings to others.
fn append(bindings: &mut Vec<(u32, Value)>, more: Vec<(u32, Value)>) -> Result<(), AllocError>
    ensures { OnOk result (bindings.new.items ≡ bindings.old.items ++ more.items) }
{
    for binding in more {
        bindings.push(binding)?;
    }
    Ok(())
}
