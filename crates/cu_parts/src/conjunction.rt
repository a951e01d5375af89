//! Whether the rules of `&&` are those that it has to have.
ghost use Rattle.std.specs.Prelude.{◌≡◌, map};
ghost use Rattle.cu_kernel.specs.LocalKernelOf.{local_body_meaning, local_rule_meaning};
ghost use Rattle.cu_kernel.specs.LocalTermsOf.{local_alternatives_of, local_term_of};
ghost use Rattle.cu_kernel.specs.TermsOf.{patterns_of};
ghost use Rattle.cu_parts.specs.Inside.LocalConjunction.{are_local_branches, are_local_rules, is_local_case, is_local_conjunction, is_local_constant, is_local_distinction, is_local_false, is_local_head, is_local_true, local_variable};

use cu_kernel::{
    ConId, LocalBody, LocalHead, LocalRule, LocalTerm, Pattern, Special, different_variables,
    is_constant_head, is_constant_pattern, is_flex, pattern_variable, same_variable,
};

/// Whether a head is this constructor.
fn is_head(constructor: ConId, head: LocalHead) -> bool
    ensures { result ≡ is_local_head constructor head }
{
    match head {
        LocalHead::Global(head) => is_constant_head(constructor, head),
        LocalHead::Local(_) => false,
    }
}

/// Whether a term is this constructor without arguments.
#[tactic(auto, using(cu_kernel::specs::LocalTermsOf::local_terms_of_variants, crate::proofs::Counts::counts))]
fn is_constant(constructor: ConId, term: &LocalTerm) -> bool
    ensures { result ≡ is_local_constant constructor (local_term_of term.now) }
{
    match term {
        LocalTerm::Whole(head, arguments) => arguments.is_empty() && is_head(constructor, *head),
        _ => false,
    }
}

/// The variable that a term is, if it is one.
#[tactic(auto, using(cu_kernel::specs::LocalTermsOf::local_terms_of_variants))]
fn term_variable(term: &LocalTerm) -> Option<u32>
    ensures { result ≡ local_variable (local_term_of term.now) }
{
    match term {
        LocalTerm::Var(x) => Some(*x),
        _ => None,
    }
}

/// Whether a rule is `True && x = x`.
fn is_true_rule(special: &Special, rule: &LocalRule) -> bool
    ensures { result ≡ is_local_true special.now (local_term_of rule.now.body)
        (patterns_of rule.now.params.items) }
{
    match rule.params.as_slice() {
        [first, second] => {
            is_constant_pattern(special.truth, first)
                && same_variable(pattern_variable(second), term_variable(&rule.body))
        }
        _ => false,
    }
}

/// Whether a rule is `False && _ = False`.
fn is_false_rule(special: &Special, rule: &LocalRule) -> bool
    ensures { result ≡ is_local_false special.now (local_term_of rule.now.body)
        (patterns_of rule.now.params.items) }
{
    match rule.params.as_slice() {
        [first, second] => {
            is_constant_pattern(special.falsity, first)
                && pattern_variable(second).is_some()
                && is_constant(special.falsity, &rule.body)
        }
        _ => false,
    }
}

/// Whether these alternatives are `False -> False` and `True -> y`.
fn are_branches(special: &Special, y: Option<u32>, alternatives: &[(Pattern, LocalTerm)]) -> bool
    ensures { result ≡ are_local_branches special.now y (local_alternatives_of alternatives.now) }
{
    match alternatives {
        [first, second] => {
            is_constant_pattern(special.falsity, &first.0)
                && is_constant(special.falsity, &first.1)
                && is_constant_pattern(special.truth, &second.0)
                && same_variable(y, term_variable(&second.1))
        }
        _ => false,
    }
}

/// Whether a term is `fcase x of { False -> False; True -> y }`.
#[tactic(auto, using(cu_kernel::specs::LocalTermsOf::local_terms_of_variants))]
fn is_distinction(special: &Special, x: Option<u32>, y: Option<u32>, term: &LocalTerm) -> bool
    ensures { result ≡ is_local_distinction special.now x y (local_term_of term.now) }
{
    match term {
        LocalTerm::Case(mode, scrutinee, alternatives) => {
            is_flex(*mode)
                && same_variable(x, term_variable(scrutinee))
                && are_branches(special, y, alternatives)
        }
        _ => false,
    }
}

/// Whether a rule is `x && y` by that case distinction.
fn is_case_rule(special: &Special, rule: &LocalRule) -> bool
    ensures { result ≡ is_local_case special.now (local_term_of rule.now.body)
        (patterns_of rule.now.params.items) }
{
    match rule.params.as_slice() {
        [first, second] => {
            let x = pattern_variable(first);
            let y = pattern_variable(second);
            different_variables(x, y) && is_distinction(special, x, y, &rule.body)
        }
        _ => false,
    }
}

fn are_rules(special: &Special, rules: &[LocalRule]) -> bool
    ensures { result ≡ are_local_rules special.now (map local_rule_meaning rules.now) }
{
    match rules {
        [only] => is_case_rule(special, only),
        [first, second] => is_true_rule(special, first) && is_false_rule(special, second),
        _ => false,
    }
}

/// Whether a body is that of `&&`: its two rules, or its case distinction.
pub(crate) fn is_conjunction(special: &Special, body: &LocalBody) -> bool
    ensures { result ≡ is_local_conjunction special.now (local_body_meaning body.now) }
{
    match body {
        LocalBody::Rules(rules) => are_rules(special, rules),
        LocalBody::External(_) => false,
    }
}
