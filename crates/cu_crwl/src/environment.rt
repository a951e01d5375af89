//! Bindings, and statements about terms in an environment.
ghost use Rattle.std.specs.Prelude.{◌≡◌, ◌∷◌, [], IfOk, Option, None, Some, unwrap_or};
ghost use Rattle.std.specs.Option.{option_copied};
ghost use Rattle.std.specs.List.{list_all};
ghost use Rattle.cu_calculus.specs.Answered.{same_value};
ghost use Rattle.cu_calculus.specs.Value as value;
ghost use Rattle.cu_kernel.specs.TermsOf.{term_of, terms_of};
ghost use Rattle.cu_crwl.specs.Environments.{agrees, agrees_at, agrees_on, all_about, is_about, lookup, says};
ghost use Rattle.cu_crwl.specs.Meaning.{statement_of, statements_at};
ghost use Rattle.cu_crwl.specs.Table.{is_bottom};

use crate::Statement;
use crate::same::term_is;
use cu_kernel::Term;
use cu_values::{Cell, Value};
use std::alloc::{AllocError, Global};

/// Whether two values are the same.
#[tactic(auto, using(crate::proofs::Orders::alike))]
pub(crate) fn value_is(left: &Value, right: &Value) -> bool
    ensures { result ≡ same_value left.now right.now }
{
    left.cmp(right).is_eq()
}

/// The binding of a variable to a value.
pub(crate) fn one_binding(
    alloc: Global,
    variable: u32,
    value: &Value,
) -> Result<Vec<(u32, Value)>, AllocError>
    ensures { IfOk result (λ bindings. bindings.items ≡ (variable, value.now) ∷ []) }
{
    let mut bindings = Vec::new(alloc);
    bindings.push((variable, value.clone()?))?;
    Ok(bindings)
}

/// The value of a variable, where it is bound: that of its first binding.
pub(crate) fn bound(bindings: &[(u32, Value)], variable: u32) -> Option<&Value>
    ensures { option_copied result ≡ lookup bindings.now variable }
{
    for binding in bindings {
        if binding.0 == variable {
            return Some(&binding.1);
        }
    }
    None
}

/// Whether values are the same, where a missing value stands for Bottom.
fn both_are(found: Option<&Value>, expected: Option<&Value>) -> bool
    ensures { result ≡ same_value (unwrap_or (option_copied found.entry) value.Bottom)
        (unwrap_or (option_copied expected.entry) value.Bottom) }
{
    match (found, expected) {
        (None, None) => true,
        (Some(value), None) => is_unknown(value),
        (None, Some(value)) => is_unknown(value),
        (Some(value), Some(other)) => value_is(value, other),
    }
}

/// Whether a value is Bottom.
pub(crate) fn is_unknown(value: &Value) -> bool
    ensures { result ≡ is_bottom value.now }
{
    match value.head() {
        Cell::Bottom => true,
        _ => false,
    }
}

/// Whether bindings say of a variable what new bindings over old ones say.
#[tactic(auto, using(crate::proofs::EnvironmentLaws::agrees_at_is))]
fn agree_at(
    bindings: &[(u32, Value)],
    new: &[(u32, Value)],
    old: &[(u32, Value)],
    variable: u32,
) -> bool
    ensures { result ≡ agrees_at bindings.now new.now old.now variable }
{
    let expected = match bound(new, variable) {
        Some(value) => Some(value),
        None => bound(old, variable),
    };
    both_are(bound(bindings, variable), expected)
}

/// Whether bindings say of each of some variables what new bindings over old
/// ones say.
fn agree_on(
    variables: &[(u32, Value)],
    bindings: &[(u32, Value)],
    new: &[(u32, Value)],
    old: &[(u32, Value)],
) -> bool
    ensures { result ≡ agrees_on variables.now bindings.now new.now old.now }
{
    for binding in variables {
        if !agree_at(bindings, new, old, binding.0) {
            return false;
        }
    }
    true
}

/// Whether bindings say of every variable what new bindings over old ones say.
#[tactic(auto, unfolding(crate::specs::Environments::agrees))]
fn agree(bindings: &[(u32, Value)], new: &[(u32, Value)], old: &[(u32, Value)]) -> bool
    ensures { result ≡ agrees bindings.now new.now old.now }
{
    agree_on(bindings, bindings, new, old)
        && agree_on(new, bindings, new, old)
        && agree_on(old, bindings, new, old)
}

/// Whether a statement is about a term, in the environment of new bindings over
/// old ones.
#[tactic(auto, unfolding(crate::specs::Environments::is_about))]
pub(crate) fn concerns(
    statement: &Statement,
    new: &[(u32, Value)],
    old: &[(u32, Value)],
    term: &Term,
) -> bool
    ensures { result ≡ is_about (statement_of statement.now) new.now old.now (term_of term.now) }
{
    agree(&statement.env, new, old) && term_is(&statement.term, term)
}

/// Whether a statement is about a term, in the environment of new bindings over
/// old ones, and gives a value.
#[tactic(auto, unfolding(crate::specs::Environments::says))]
pub(crate) fn states(
    statement: &Statement,
    new: &[(u32, Value)],
    old: &[(u32, Value)],
    term: &Term,
    value: &Value,
) -> bool
    ensures { result ≡ says (statement_of statement.now) new.now old.now
        (term_of term.now) value.now }
{
    concerns(statement, new, old, term) && value_is(&statement.value, value)
}

/// Whether statements are about terms in an environment, one for each.
pub(crate) fn concern_all(statements: &[&Statement], env: &[(u32, Value)], terms: &[Term]) -> bool
    ensures { result ≡ all_about (statements_at statements.now) env.now (terms_of terms.now) }
{
    if statements.len() != terms.len() {
        return false;
    }
    for i in 0..terms.len() {
        if !concerns(statements[i], &[], env, &terms[i]) {
            return false;
        }
    }
    true
}
