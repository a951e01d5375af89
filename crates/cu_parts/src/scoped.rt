//! Whether a top-level function and its local functions are right: arities,
//! calls of local functions, and variables.
ghost use Rattle.std.specs.Prelude.{◌≡◌, ◌↔◌, ℕ, true, IfOk, IsTrue, flat_map, length, map};
ghost use Rattle.std.specs.List.{list_all};
ghost use Rattle.cu_calculus.specs.Valid.{is_linear};
ghost use Rattle.cu_kernel.specs.LocalKernelOf.{local_body_meaning, local_function_meaning, local_rule_meaning, top_function_meaning};
ghost use Rattle.cu_kernel.specs.LocalValid.{IsScoped, all_binders, all_rules, fits_arity, fits_local, has_arity, local_rules, rule_passes};
ghost use Rattle.cu_parts.specs.Inside.KnownHeads.{known_heads};
ghost use Rattle.cu_parts.specs.Inside.Scoping.{AreScoped, Collects, MayCapture, VariableFits, arities_fit, calls_fit, fits_capturing};

use crate::binders::{all_binders, bind, rules_of};
use crate::capturing::{capturing, rules_use};
use crate::free_uses::free_uses;
use crate::heads::{Known, rules_pass};
use crate::linear::{holds, is_linear};
use cu_kernel::{LocalBody, LocalFunction, LocalRule, TopFunction, external_arity};
use std::alloc::{AllocError, Global};
use std::collections::BTreeSet;

/// An arity is below this number.
const ARITY_END: u32 = u32::MAX;

/// Whether a rule has a pattern for each of so many parameters.
#[tactic(auto, using(cu_kernel::proofs::ListCounts::counts))]
fn has_arity(arity: u32, rule: &LocalRule) -> bool
    ensures { result ≡ has_arity arity (local_rule_meaning rule.now) }
{
    rule.params.len() == arity as usize
}

/// Whether each rule has a pattern for each of so many parameters.
fn have_arity(arity: u32, rules: &[LocalRule]) -> bool
    ensures { result ≡ list_all (has_arity arity) (map local_rule_meaning rules.now) }
{
    for rule in rules {
        if !has_arity(arity, rule) {
            return false;
        }
    }
    true
}

/// Whether a body is that of a function with so many parameters.
fn body_fits(arity: u32, body: &LocalBody) -> bool
    ensures { result ≡ fits_arity arity (local_body_meaning body.now) }
{
    match body {
        LocalBody::Rules(rules) => have_arity(arity, rules),
        LocalBody::External(operation) => arity == external_arity(*operation),
    }
}

/// Whether each local function has rules of its arity, and the arity is below
/// `ARITY_END`.
fn locals_fit(locals: &[LocalFunction]) -> bool
    ensures { result ≡ list_all fits_local (map local_function_meaning locals.now) }
{
    for function in locals {
        if function.arity >= ARITY_END || !have_arity(function.arity, function.rules.as_slice()) {
            return false;
        }
    }
    true
}

/// Whether the numbers of parameters of a top-level function and its local
/// functions are right.
fn arities_fit(function: &TopFunction) -> bool
    ensures { result ≡ arities_fit (top_function_meaning function.now) }
{
    function.arity < ARITY_END
        && body_fits(function.arity, &function.body)
        && locals_fit(function.locals.as_slice())
}

/// Whether the heads, literals and patterns of these local functions' rules may
/// stand there.
pub(crate) fn locals_pass(known: Known, locals: &[LocalFunction]) -> bool
    ensures { result ≡ list_all (rule_passes (known_heads known.entry))
        (flat_map local_rules (map local_function_meaning locals.now)) }
{
    for function in locals {
        if !rules_pass(known, function.rules.as_slice()) {
            return false;
        }
    }
    true
}

/// Whether the heads, literals and patterns of all rules of a top-level
/// function and of its local functions may stand there.
pub(crate) fn all_rules_pass(known: Known, function: &TopFunction) -> bool
    ensures { result ≡ list_all (rule_passes (known_heads known.entry))
        (all_rules (top_function_meaning function.now)) }
{
    rules_pass(known, rules_of(&function.body)) && locals_pass(known, function.locals.as_slice())
}

/// Whether local functions are called with as many arguments as they take, or
/// fewer in partial applications.
fn calls_fit(function: &TopFunction) -> bool
    ensures { result ≡ calls_fit (top_function_meaning function.now) }
{
    all_rules_pass(Known::Locals(function.locals.as_slice()), function)
}

/// Whether a local function doesn't capture a variable, or the variable is
/// bound, and not in the function itself.
fn fits_capturing(
    alloc: Global,
    function: &LocalFunction,
    x: u32,
    bound: bool,
    captures: bool,
) -> Result<bool, AllocError>
    ensures { IfOk result (λ fits. fits
        ≡ fits_capturing x bound captures (local_function_meaning function.now)) }
{
    if !captures {
        return Ok(true);
    }
    if !bound {
        return Ok(false);
    }
    Ok(!bind(alloc, function.rules.as_slice(), x)?)
}

/// Whether the local functions that capture a variable stand where it is
/// bound.
fn are_capturing(
    alloc: Global,
    locals: &[LocalFunction],
    x: u32,
    bound: bool,
    met: &[bool],
) -> Result<bool, AllocError>
    requires { length met.now ≡ length locals.now }
    ensures { IfOk result (λ fit. IsTrue fit ↔ MayCapture
        (map local_function_meaning locals.now) x bound met.now) }
{
    for (place, function) in locals.iter().enumerate() {
        if !fits_capturing(alloc, function, x, bound, met[place])? {
            return Ok(false);
        }
    }
    Ok(true)
}

/// Whether a variable that is used and not bound in one of the rules may be
/// used so. `all` are the variables that the function binds.
fn variable_fits(
    alloc: Global,
    function: &TopFunction,
    all: &[u32],
    x: u32,
) -> Result<bool, AllocError>
    requires all { all.now ≡ all_binders (top_function_meaning function.now) }
    requires once { is_linear all.now ≡ true }
    ensures { IfOk result (λ fits. IsTrue fits ↔ VariableFits
        (top_function_meaning function.now) x) }
{
    let locals = function.locals.as_slice();
    let met = capturing(alloc, locals, x)?;
    if rules_use(met.as_slice(), x, rules_of(&function.body)) {
        return Ok(false);
    }
    are_capturing(alloc, locals, x, holds(all, x), met.as_slice())
}

/// The variables of a list, each once.
fn collected(alloc: Global, variables: &[u32]) -> Result<BTreeSet<u32>, AllocError>
    ensures { IfOk result (λ set. Collects variables.now set.keys) }
{
    let mut set = BTreeSet::new(alloc);
    for x in variables {
        set.insert(*x)?;
    }
    Ok(set)
}

/// Whether all variables that are used and not bound in one of the rules may
/// be used so.
fn variables_fit(alloc: Global, function: &TopFunction, all: &[u32]) -> Result<bool, AllocError>
    requires all { all.now ≡ all_binders (top_function_meaning function.now) }
    requires once { is_linear all.now ≡ true }
    ensures { IfOk result (λ fit. IsTrue fit ↔ ((x : ℕ)
        → VariableFits (top_function_meaning function.now) x)) }
{
    let used = free_uses(alloc, function)?;
    let mut left = collected(alloc, used.as_slice())?;
    while let Some(x) = left.pop_first() {
        if !variable_fits(alloc, function, all, x)? {
            return Ok(false);
        }
    }
    Ok(true)
}

/// Whether a top-level function is right by itself.
fn is_scoped(alloc: Global, function: &TopFunction) -> Result<bool, AllocError>
    ensures { IfOk result (λ scoped. IsTrue scoped ↔ IsScoped (top_function_meaning function.now)) }
{
    if !arities_fit(function) || !calls_fit(function) {
        return Ok(false);
    }
    let all = all_binders(alloc, function)?;
    if !is_linear(alloc, all.as_slice())? {
        return Ok(false);
    }
    variables_fit(alloc, function, all.as_slice())
}

/// Whether all of these top-level functions are right by themselves.
pub(crate) fn are_scoped(alloc: Global, functions: &[TopFunction]) -> Result<bool, AllocError>
    ensures { IfOk result (λ scoped. IsTrue scoped ↔ AreScoped
        (map top_function_meaning functions.now)) }
{
    for function in functions {
        if !is_scoped(alloc, function)? {
            return Ok(false);
        }
    }
    Ok(true)
}
