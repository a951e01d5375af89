//! Which variables terms before lifting bind.
ghost use Rattle.std.specs.Prelude.{◌≡◌, ◌++◌, IfOk, OnOk, flat_map, map};
ghost use Rattle.cu_calculus.specs.Valid.{holds, variables_of};
ghost use Rattle.cu_kernel.specs.LocalKernelOf.{local_body_meaning, local_function_meaning, local_rule_meaning, top_function_meaning};
ghost use Rattle.cu_kernel.specs.LocalTermsOf.{local_alternatives_of, local_term_of, local_terms_of};
ghost use Rattle.cu_kernel.specs.LocalValid.{all_binders, alternative_binders, binders, binders_all, local_binders, rules_binders, rules_of};
ghost use Rattle.cu_kernel.specs.TermsOf.{pattern_of};

use cu_kernel::{
    LocalBody, LocalFunction, LocalRule, LocalTerm, Pattern, TopFunction, push_all_variables,
    push_variables,
};
use std::alloc::{AllocError, Global};

/// Pushes the variables that a term binds, in the order in which they stand.
#[cycle(binders)]
#[tactic(auto, using(cu_kernel::specs::LocalTermsOf::local_terms_of_variants))]
fn push_term(found: &mut Vec<u32>, term: &LocalTerm) -> Result<(), AllocError>
    ensures { OnOk result (found.new.items ≡ found.old.items ++ binders (local_term_of term.now)) }
{
    match term {
        LocalTerm::Var(_) => Ok(()),
        LocalTerm::Lit(_) => Ok(()),
        LocalTerm::Whole(_, arguments) => push_terms(found, arguments),
        LocalTerm::Part(_, arguments) => push_terms(found, arguments),
        LocalTerm::Apply(function, argument) => push_two(found, function, argument),
        LocalTerm::Let(x, value, body) => {
            found.push(*x)?;
            push_two(found, value, body)
        }
        LocalTerm::Free(x, body) => {
            found.push(*x)?;
            push_term(found, body)
        }
        LocalTerm::Or(left, right) => push_two(found, left, right),
        LocalTerm::Case(_, scrutinee, alternatives) => {
            push_term(found, scrutinee)?;
            push_alternatives(found, alternatives)
        }
    }
}

/// Pushes the variables that two terms bind.
#[cycle(binders)]
fn push_two(found: &mut Vec<u32>, first: &LocalTerm, second: &LocalTerm) -> Result<(), AllocError>
    ensures { OnOk result (found.new.items
        ≡ found.old.items ++ (binders (local_term_of first.now)
        ++ binders (local_term_of second.now))) }
{
    push_term(found, first)?;
    push_term(found, second)
}

/// Pushes the variables that these terms bind.
#[cycle(binders)]
fn push_terms(found: &mut Vec<u32>, terms: &[LocalTerm]) -> Result<(), AllocError>
    ensures { OnOk result (found.new.items
        ≡ found.old.items ++ binders_all (local_terms_of terms.now)) }
{
    for term in terms {
        push_term(found, term)?;
    }
    Ok(())
}

/// Pushes the variables that an alternative binds.
#[cycle(binders)]
fn push_alternative(
    found: &mut Vec<u32>,
    pattern: &Pattern,
    body: &LocalTerm,
) -> Result<(), AllocError>
    ensures { OnOk result (found.new.items
        ≡ found.old.items ++ (variables_of (pattern_of pattern.now)
        ++ binders (local_term_of body.now))) }
{
    push_variables(found, pattern)?;
    push_term(found, body)
}

/// Pushes the variables that alternatives bind.
#[cycle(binders)]
fn push_alternatives(
    found: &mut Vec<u32>,
    alternatives: &[(Pattern, LocalTerm)],
) -> Result<(), AllocError>
    ensures { OnOk result (found.new.items
        ≡ found.old.items ++ alternative_binders (local_alternatives_of alternatives.now)) }
{
    for (pattern, body) in alternatives {
        push_alternative(found, pattern, body)?;
    }
    Ok(())
}

/// Pushes the variables that rules bind.
pub(crate) fn push_rules(found: &mut Vec<u32>, rules: &[LocalRule]) -> Result<(), AllocError>
    ensures { OnOk result (found.new.items
        ≡ found.old.items ++ rules_binders (map local_rule_meaning rules.now)) }
{
    for rule in rules {
        push_all_variables(found, rule.params.as_slice())?;
        push_term(found, &rule.body)?;
    }
    Ok(())
}

/// Pushes the variables that local functions bind.
fn push_locals(found: &mut Vec<u32>, locals: &[LocalFunction]) -> Result<(), AllocError>
    ensures { OnOk result (found.new.items
        ≡ found.old.items ++ flat_map local_binders (map local_function_meaning locals.now)) }
{
    for function in locals {
        push_rules(found, function.rules.as_slice())?;
    }
    Ok(())
}

/// The rules of a body, of which a built-in operation has none.
pub(crate) fn rules_of(body: &LocalBody) -> &[LocalRule]
    ensures { map local_rule_meaning result.now ≡ rules_of (local_body_meaning body.now) }
{
    match body {
        LocalBody::Rules(rules) => rules.as_slice(),
        LocalBody::External(_) => &[],
    }
}

/// The variables that a top-level function and its local functions bind.
pub(crate) fn all_binders(alloc: Global, function: &TopFunction) -> Result<Vec<u32>, AllocError>
    ensures { IfOk result (λ found. found.items ≡ all_binders (top_function_meaning function.now)) }
{
    let mut found = Vec::new(alloc);
    push_rules(&mut found, rules_of(&function.body))?;
    push_locals(&mut found, function.locals.as_slice())?;
    Ok(found)
}

/// Whether rules bind a variable.
pub(crate) fn bind(alloc: Global, rules: &[LocalRule], x: u32) -> Result<bool, AllocError>
    ensures { IfOk result (λ bound. bound
        ≡ holds x (rules_binders (map local_rule_meaning rules.now))) }
{
    let mut found = Vec::new(alloc);
    push_rules(&mut found, rules)?;
    Ok(found.contains(&x))
}
