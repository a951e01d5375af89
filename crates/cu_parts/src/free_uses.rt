//! Which variables rules use and don't bind.
ghost use Rattle.std.specs.Prelude.{◌≡◌, ◌++◌, IfOk, OnOk, flat_map, map};
ghost use Rattle.cu_calculus.specs.Valid.{also, also_all, variables_of};
ghost use Rattle.cu_kernel.specs.LocalKernelOf.{local_function_meaning, local_rule_meaning, top_function_meaning};
ghost use Rattle.cu_kernel.specs.LocalTermsOf.{local_alternatives_of, local_term_of, local_terms_of};
ghost use Rattle.cu_kernel.specs.TermsOf.{pattern_of};
ghost use Rattle.cu_parts.specs.Inside.FreeUses.{free_in_all, free_in_alternatives, free_in_function, free_in_local, free_in_rule, free_in_rules, free_uses, unless};
ghost use Rattle.cu_parts.specs.Inside.Scope.{bound_in};

use crate::binders::rules_of;
use crate::scope::Scope;
use cu_kernel::{
    LocalFunction, LocalRule, LocalTerm, Pattern, TopFunction, push_all_variables, push_variables,
};
use std::alloc::{AllocError, Global};

/// Pushes the variables of a term that are not bound where they stand.
#[cycle(free)]
#[tactic(auto, using(cu_kernel::specs::LocalTermsOf::local_terms_of_variants, crate::specs::Inside::Scope::bound_variants))]
fn push_term(
    alloc: Global,
    found: &mut Vec<u32>,
    term: &LocalTerm,
    scope: &Scope,
) -> Result<(), AllocError>
    ensures { OnOk result (found.new.items
        ≡ found.old.items ++ free_uses (bound_in scope.now) (local_term_of term.now)) }
{
    match term {
        LocalTerm::Var(x) => push_variable(found, *x, scope),
        LocalTerm::Lit(_) => Ok(()),
        LocalTerm::Whole(_, arguments) => push_terms(alloc, found, arguments, scope),
        LocalTerm::Part(_, arguments) => push_terms(alloc, found, arguments, scope),
        LocalTerm::Apply(function, argument) => push_two(alloc, found, function, argument, scope),
        LocalTerm::Let(x, value, body) => {
            push_term(alloc, found, value, scope)?;
            push_inside(alloc, found, *x, body, scope)
        }
        LocalTerm::Free(x, body) => push_inside(alloc, found, *x, body, scope),
        LocalTerm::Or(left, right) => push_two(alloc, found, left, right, scope),
        LocalTerm::Case(_, scrutinee, alternatives) => {
            push_term(alloc, found, scrutinee, scope)?;
            push_alternatives(alloc, found, alternatives, scope)
        }
    }
}

/// Pushes a variable, unless it is bound.
fn push_variable(found: &mut Vec<u32>, x: u32, scope: &Scope) -> Result<(), AllocError>
    ensures { OnOk result (found.new.items ≡ found.old.items ++ unless (bound_in scope.now x) x) }
{
    if !scope.binds(x) {
        found.push(x)?;
    }
    Ok(())
}

/// Pushes the variables of a term that are not bound where they stand, where
/// one more variable is bound around it.
#[cycle(free)]
#[tactic(auto, using(crate::specs::Inside::Scope::bound_variants))]
fn push_inside(
    alloc: Global,
    found: &mut Vec<u32>,
    x: u32,
    body: &LocalTerm,
    scope: &Scope,
) -> Result<(), AllocError>
    ensures { OnOk result (found.new.items
        ≡ found.old.items ++ free_uses (also x (bound_in scope.now)) (local_term_of body.now)) }
{
    push_term(alloc, found, body, &Scope::With(x, &*scope))
}

/// Pushes the variables of two terms that are not bound where they stand.
#[cycle(free)]
fn push_two(
    alloc: Global,
    found: &mut Vec<u32>,
    first: &LocalTerm,
    second: &LocalTerm,
    scope: &Scope,
) -> Result<(), AllocError>
    ensures { OnOk result (found.new.items ≡ found.old.items
        ++ (free_uses (bound_in scope.now) (local_term_of first.now)
        ++ free_uses (bound_in scope.now) (local_term_of second.now))) }
{
    push_term(alloc, found, first, scope)?;
    push_term(alloc, found, second, scope)
}

/// Pushes the variables of these terms that are not bound where they stand.
#[cycle(free)]
fn push_terms(
    alloc: Global,
    found: &mut Vec<u32>,
    terms: &[LocalTerm],
    scope: &Scope,
) -> Result<(), AllocError>
    ensures { OnOk result (found.new.items
        ≡ found.old.items ++ free_in_all (bound_in scope.now) (local_terms_of terms.now)) }
{
    for term in terms {
        push_term(alloc, found, term, scope)?;
    }
    Ok(())
}

/// Pushes the variables of an alternative that are not bound where they stand.
#[cycle(free)]
#[tactic(auto, using(crate::specs::Inside::Scope::bound_variants))]
fn push_alternative(
    alloc: Global,
    found: &mut Vec<u32>,
    pattern: &Pattern,
    body: &LocalTerm,
    scope: &Scope,
) -> Result<(), AllocError>
    ensures { OnOk result (found.new.items ≡ found.old.items
        ++ free_uses (also_all (variables_of (pattern_of pattern.now)) (bound_in scope.now))
        (local_term_of body.now)) }
{
    let mut variables = Vec::new(alloc);
    push_variables(&mut variables, pattern)?;
    push_term(
        alloc,
        found,
        body,
        &Scope::WithAll(variables.as_slice(), &*scope),
    )
}

/// Pushes the variables of alternatives that are not bound where they stand.
#[cycle(free)]
fn push_alternatives(
    alloc: Global,
    found: &mut Vec<u32>,
    alternatives: &[(Pattern, LocalTerm)],
    scope: &Scope,
) -> Result<(), AllocError>
    ensures { OnOk result (found.new.items
        ≡ found.old.items ++ free_in_alternatives (bound_in scope.now)
        (local_alternatives_of alternatives.now)) }
{
    for (pattern, body) in alternatives {
        push_alternative(alloc, found, pattern, body, scope)?;
    }
    Ok(())
}

/// Pushes the variables that a rule uses and doesn't bind.
#[tactic(auto, using(crate::specs::Inside::Scope::bound_variants))]
fn push_rule(alloc: Global, found: &mut Vec<u32>, rule: &LocalRule) -> Result<(), AllocError>
    ensures { OnOk result (found.new.items
        ≡ found.old.items ++ free_in_rule (local_rule_meaning rule.now)) }
{
    let mut variables = Vec::new(alloc);
    push_all_variables(&mut variables, rule.params.as_slice())?;
    push_term(
        alloc,
        found,
        &rule.body,
        &Scope::Parameters(variables.as_slice()),
    )
}

/// Pushes the variables that rules use and don't bind.
fn push_rules(alloc: Global, found: &mut Vec<u32>, rules: &[LocalRule]) -> Result<(), AllocError>
    ensures { OnOk result (found.new.items
        ≡ found.old.items ++ free_in_rules (map local_rule_meaning rules.now)) }
{
    for rule in rules {
        push_rule(alloc, found, rule)?;
    }
    Ok(())
}

/// Pushes the variables that local functions use and don't bind.
fn push_locals(
    alloc: Global,
    found: &mut Vec<u32>,
    locals: &[LocalFunction],
) -> Result<(), AllocError>
    ensures { OnOk result (found.new.items
        ≡ found.old.items ++ flat_map free_in_local (map local_function_meaning locals.now)) }
{
    for function in locals {
        push_rules(alloc, found, function.rules.as_slice())?;
    }
    Ok(())
}

/// The variables that the rules of a top-level function, and those of its local
/// functions, use and don't bind themselves.
pub(crate) fn free_uses(alloc: Global, function: &TopFunction) -> Result<Vec<u32>, AllocError>
    ensures { IfOk result (λ found. found.items
        ≡ free_in_function (top_function_meaning function.now)) }
{
    let mut found = Vec::new(alloc);
    push_rules(alloc, &mut found, rules_of(&function.body))?;
    push_locals(alloc, &mut found, function.locals.as_slice())?;
    Ok(found)
}
