//! Which local functions capture a variable.
ghost use Rattle.std.specs.Prelude.{◌≡◌, ◌<◌, IfOk, length, map};
ghost use Rattle.cu_calculus.specs.Valid.{all_variables, holds, variables_of};
ghost use Rattle.cu_kernel.specs.Captures.{alternatives_use, any_use, rule_uses, rules_use, uses};
ghost use Rattle.cu_kernel.specs.LocalKernelOf.{local_function_meaning, local_rule_meaning};
ghost use Rattle.cu_kernel.specs.LocalTermsOf.{local_alternatives_of, local_term_of, local_terms_of};
ghost use Rattle.cu_kernel.specs.TermsOf.{pattern_of, patterns_of};
ghost use Rattle.cu_parts.specs.Inside.Capturing.{AreCapturing, Meeting, Round, is_met};

use cu_kernel::{LocalFunction, LocalHead, LocalRule, LocalTerm, Pattern};
use std::alloc::{AllocError, Global};

/// Whether a head is a local function that is met.
fn is_met(met: &[bool], head: LocalHead) -> bool
    ensures { result ≡ is_met met.now head }
{
    match head {
        LocalHead::Global(_) => false,
        LocalHead::Local(place) => match met.get(place as usize) {
            Some(met) => *met,
            None => false,
        },
    }
}

/// Whether a pattern binds a variable.
#[cycle(binding)]
#[tactic(auto, using(cu_kernel::specs::TermsOf::patterns_of_variants))]
fn pattern_binds(x: u32, pattern: &Pattern) -> bool
    ensures { result ≡ holds x (variables_of (pattern_of pattern.now)) }
{
    match pattern {
        Pattern::Var(y) => x == *y,
        Pattern::Lit(_) => false,
        Pattern::Con(_, parts) => patterns_bind(x, parts),
        Pattern::Alias(y, part) => x == *y || pattern_binds(x, part),
    }
}

/// Whether one of these patterns binds a variable.
#[cycle(binding)]
fn patterns_bind(x: u32, patterns: &[Pattern]) -> bool
    ensures { result ≡ holds x (all_variables (patterns_of patterns.now)) }
{
    for pattern in patterns {
        if pattern_binds(x, pattern) {
            return true;
        }
    }
    false
}

/// Whether a term uses a variable that nothing around binds in the term: by
/// itself, or by a local function that is met.
#[cycle(uses)]
#[tactic(auto, using(cu_kernel::specs::LocalTermsOf::local_terms_of_variants))]
fn term_uses(met: &[bool], x: u32, term: &LocalTerm) -> bool
    ensures { result ≡ uses (is_met met.now) x (local_term_of term.now) }
{
    match term {
        LocalTerm::Var(y) => *y == x,
        LocalTerm::Lit(_) => false,
        LocalTerm::Whole(head, arguments) => is_met(met, *head) || terms_use(met, x, arguments),
        LocalTerm::Part(head, arguments) => is_met(met, *head) || terms_use(met, x, arguments),
        LocalTerm::Apply(function, argument) => {
            term_uses(met, x, function) || term_uses(met, x, argument)
        }
        LocalTerm::Let(y, value, body) => {
            term_uses(met, x, value) || (*y != x && term_uses(met, x, body))
        }
        LocalTerm::Free(y, body) => *y != x && term_uses(met, x, body),
        LocalTerm::Or(left, right) => term_uses(met, x, left) || term_uses(met, x, right),
        LocalTerm::Case(_, scrutinee, alternatives) => {
            term_uses(met, x, scrutinee) || alternatives_use(met, x, alternatives)
        }
    }
}

/// Whether one of these terms uses a variable that nothing around binds in it,
/// by itself or by a local function that is met.
#[cycle(uses)]
fn terms_use(met: &[bool], x: u32, terms: &[LocalTerm]) -> bool
    ensures { result ≡ any_use (is_met met.now) x (local_terms_of terms.now) }
{
    for term in terms {
        if term_uses(met, x, term) {
            return true;
        }
    }
    false
}

/// Whether one of these alternatives uses a variable that nothing around binds
/// in it, by itself or by a local function that is met.
#[cycle(uses)]
fn alternatives_use(met: &[bool], x: u32, alternatives: &[(Pattern, LocalTerm)]) -> bool
    ensures { result ≡ alternatives_use (is_met met.now) x
        (local_alternatives_of alternatives.now) }
{
    for (pattern, body) in alternatives {
        if !pattern_binds(x, pattern) && term_uses(met, x, body) {
            return true;
        }
    }
    false
}

/// Whether a rule uses a variable that it doesn't bind, by itself or by a local
/// function that is met.
fn rule_uses(met: &[bool], x: u32, rule: &LocalRule) -> bool
    ensures { result ≡ rule_uses (is_met met.now) x (local_rule_meaning rule.now) }
{
    !patterns_bind(x, rule.params.as_slice()) && term_uses(met, x, &rule.body)
}

/// Whether one of these rules uses a variable that it doesn't bind: by
/// itself, or by a local function that is met.
pub(crate) fn rules_use(met: &[bool], x: u32, rules: &[LocalRule]) -> bool
    ensures { result ≡ rules_use (is_met met.now) x (map local_rule_meaning rules.now) }
{
    for rule in rules {
        if rule_uses(met, x, rule) {
            return true;
        }
    }
    false
}

/// Meets the local function at a place where it uses the variable, or a local
/// function that is met. Tells whether it wasn't met before.
fn meet(met: &mut [bool], locals: &[LocalFunction], place: usize, x: u32) -> bool
    requires sized { length met.old ≡ length locals.now }
    requires place { place < length locals.now }
    ensures { Meeting (map local_function_meaning locals.now) x place met.old met.new result }
{
    if met[place] {
        return false;
    }
    if !rules_use(met, x, locals[place].rules.as_slice()) {
        return false;
    }
    met[place] = true;
    true
}

/// Goes once through the local functions, inner ones first, and meets those
/// that use the variable, or a local function that is met. Tells whether one
/// was met for the first time.
fn spread(met: &mut [bool], locals: &[LocalFunction], x: u32) -> bool
    requires { length met.old ≡ length locals.now }
    ensures { Round (map local_function_meaning locals.now) x 0 met.old met.new result }
{
    let mut more = false;
    let mut place = locals.len();
    while place > 0 {
        place -= 1;
        let first = meet(met, locals, place, x);
        more = more || first;
    }
    more
}

/// Which local functions capture a variable. Goes through the rules of all
/// local functions, and again as long as one more is found to capture it.
pub(crate) fn capturing(
    alloc: Global,
    locals: &[LocalFunction],
    x: u32,
) -> Result<Vec<bool>, AllocError>
    ensures sized { IfOk result (λ met. length met.items ≡ length locals.now) }
    ensures capturing { IfOk result
        (λ met. AreCapturing (map local_function_meaning locals.now) x met.items) }
{
    let mut met = vec![in alloc; false; locals.len()]?;
    while spread(met.as_mut_slice(), locals, x) {}
    Ok(met)
}
