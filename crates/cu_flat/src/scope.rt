//! Scopes: variables in the order of their binding, no variable twice.
ghost use Rattle.std.specs.Prelude.{◌≡◌, ℕ, Bool, ◌||◌, [], ◌∷◌, ◌++◌, IfOk, OnOk, IsTrue, filter, if◌then◌else◌, length, nat_eq, nat_lt};
ghost use Rattle.cu_calculus.specs.Flat.{are_variables};
ghost use Rattle.cu_calculus.specs.Term.{MorePatterns, NoPattern};
ghost use Rattle.cu_calculus.specs.Valid.{all_variables, holds, variables_of};
ghost use Rattle.cu_kernel.specs.TermsOf.{pattern_of, patterns_of};
ghost use Rattle.cu_flat.specs.Inside.Scope.{after};
ghost use Rattle.cu_flat.specs.Layout.{beside, binding};

use cu_kernel::Pattern;
use std::alloc::{AllocError, Global};

/// Whether a variable is one of these.
fn holds(variables: &[u32], x: u32) -> bool
    ensures { result ≡ holds x variables.now }
{
    variables.contains(&x)
}

/// The variable, where it is in scope.
pub(crate) fn in_scope(alloc: Global, scope: &[u32], x: u32) -> Result<Vec<u32>, AllocError>
    ensures { IfOk result (λ found. found.items ≡ filter (λ y. nat_eq x y) scope.now) }
{
    scope.iter().copied().filter(|y| x == *y).collect(alloc)
}

/// The variables of the first list that aren't in the second.
pub(crate) fn beside(
    alloc: Global,
    variables: &[u32],
    bound: &[u32],
) -> Result<Vec<u32>, AllocError>
    ensures { IfOk result (λ found. found.items ≡ filter (beside bound.now) variables.now) }
{
    variables
        .iter()
        .copied()
        .filter(|y| !holds(bound, *y))
        .collect(alloc)
}

/// The scope where these variables are bound, which hide others of their
/// names.
pub(crate) fn binding(alloc: Global, bound: &[u32], scope: &[u32]) -> Result<Vec<u32>, AllocError>
    ensures { IfOk result (λ inner. inner.items ≡ binding bound.now scope.now) }
{
    let mut inner = beside(alloc, scope, bound)?;
    inner.extend_from_slice(bound)?;
    Ok(inner)
}

/// What is left of variables after the first one, where that is x; else all
/// of them.
fn after(x: u32, variables: &[u32]) -> &[u32]
    ensures { result.now ≡ after x variables.now }
{
    match variables.first() {
        Some(first) if *first == x => &variables[1..],
        _ => variables,
    }
}

/// Whether the first list is shorter than the second.
fn are_fewer(some: &[u32], all: &[u32]) -> bool
    ensures { result ≡ nat_lt (length some.now) (length all.now) }
{
    some.len() < all.len()
}

/// Pushes a variable that is among one of two parts.
fn push_among(found: &mut Vec<u32>, x: u32, in_left: bool, in_right: bool) -> Result<(), AllocError>
    ensures { OnOk result (found.new.items
        ≡ found.old.items ++ (if in_left || in_right then x ∷ [] else [])) }
{
    if in_left || in_right {
        found.push(x)?;
    }
    Ok(())
}

/// The variables of a scope that are among either of two parts of it, each in
/// the scope's order.
pub(crate) fn merged(
    alloc: Global,
    scope: &[u32],
    mut left: &[u32],
    mut right: &[u32],
) -> Result<Vec<u32>, AllocError>
    ensures { (p q : ℕ → Bool)
        → left.entry.now ≡ filter p scope.now → right.entry.now ≡ filter q scope.now
        → IfOk result (λ found. found.items ≡ filter (λ x. p x || q x) scope.now) }
{
    let mut found = Vec::new(alloc);
    for x in scope {
        let left_after = after(*x, left);
        let right_after = after(*x, right);
        let in_left = are_fewer(left_after, left);
        let in_right = are_fewer(right_after, right);
        push_among(&mut found, *x, in_left, in_right)?;
        left = left_after;
        right = right_after;
    }
    Ok(found)
}

/// The variable that a pattern is, where it is one.
#[tactic(auto, using(cu_kernel::specs::TermsOf::patterns_of_variants))]
fn variable_of(pattern: &Pattern) -> u32
    requires { IsTrue (are_variables (MorePatterns (pattern_of pattern.now) NoPattern)) }
    ensures { variables_of (pattern_of pattern.now) ≡ result ∷ [] }
{
    match pattern {
        Pattern::Var(x) => *x,
        Pattern::Lit(_) => unreachable!(),
        Pattern::Con(_, _) => unreachable!(),
        Pattern::Alias(_, _) => unreachable!(),
    }
}

/// The variables that patterns are, where all are variables.
pub(crate) fn variables(alloc: Global, patterns: &[Pattern]) -> Result<Vec<u32>, AllocError>
    requires { IsTrue (are_variables (patterns_of patterns.now)) }
    ensures { IfOk result (λ found. found.items ≡ all_variables (patterns_of patterns.now)) }
{
    let mut found = Vec::new(alloc);
    for pattern in patterns {
        found.push(variable_of(pattern))?;
    }
    Ok(found)
}
