//! Whether the built-in entities of a program are there, with their arities and
//! rules.
ghost use Rattle.std.specs.Prelude.{◌≡◌, map};
ghost use Rattle.cu_calculus.specs.Program.{function_of};
ghost use Rattle.cu_kernel.specs.Heads.{heads_program};
ghost use Rattle.cu_kernel.specs.Kernel.{plain_function};
ghost use Rattle.cu_kernel.specs.KernelOf.{body_meaning, function_meaning, rule_meaning};
ghost use Rattle.cu_kernel.specs.TermsOf.{alternatives_of, pattern_of, term_of};
ghost use Rattle.cu_kernel.specs.Tests.{are_branches, are_conjunction_rules, different_variables, has_constants, has_special, has_values, is_both, is_case_rule, is_conjunction, is_constant_head, is_constant_pattern, is_constant_term, is_distinction, is_false_rule, is_flex, is_true_rule, pattern_variable, same_variable, term_variable};

use crate::heads::Heads;
use crate::{Body, ConId, Function, Head, Mode, Pattern, Rule, Special, Term};

/// Whether a pattern is this constructor without arguments.
#[tactic(auto, using(crate::specs::TermsOf::patterns_of_variants, crate::proofs::ListCounts::counts))]
pub fn is_constant_pattern(constructor: ConId, pattern: &Pattern) -> bool
    ensures { result ≡ is_constant_pattern constructor (pattern_of pattern.now) }
{
    match pattern {
        Pattern::Var(_) => false,
        Pattern::Lit(_) => false,
        Pattern::Con(other, parts) => parts.is_empty() && constructor == *other,
        Pattern::Alias(_, _) => false,
    }
}

/// Whether a head is this constructor.
pub fn is_constant_head(constructor: ConId, head: Head) -> bool
    ensures { result ≡ is_constant_head constructor head }
{
    match head {
        Head::Fun(_) => false,
        Head::Con(other) => constructor == other,
        Head::Set(_) => false,
    }
}

/// Whether a term is this constructor without arguments.
#[tactic(auto, using(crate::specs::TermsOf::terms_of_variants, crate::proofs::ListCounts::counts))]
fn is_constant_term(constructor: ConId, term: &Term) -> bool
    ensures { result ≡ is_constant_term constructor (term_of term.now) }
{
    match term {
        Term::Whole(head, arguments) => arguments.is_empty()
            && is_constant_head(constructor, *head),
        _ => false,
    }
}

/// The variable that a pattern is, if it is one.
#[tactic(auto, using(crate::specs::TermsOf::patterns_of_variants))]
pub fn pattern_variable(pattern: &Pattern) -> Option<u32>
    ensures { result ≡ pattern_variable (pattern_of pattern.now) }
{
    match pattern {
        Pattern::Var(x) => Some(*x),
        _ => None,
    }
}

/// The variable that a term is, if it is one.
#[tactic(auto, using(crate::specs::TermsOf::terms_of_variants))]
fn term_variable(term: &Term) -> Option<u32>
    ensures { result ≡ term_variable (term_of term.now) }
{
    match term {
        Term::Var(x) => Some(*x),
        _ => None,
    }
}

/// Whether both are variables, and the same one.
pub fn same_variable(first: Option<u32>, second: Option<u32>) -> bool
    ensures { result ≡ same_variable first second }
{
    match (first, second) {
        (Some(x), Some(y)) => x == y,
        _ => false,
    }
}

/// Whether both are variables, and different ones.
pub fn different_variables(first: Option<u32>, second: Option<u32>) -> bool
    ensures { result ≡ different_variables first second }
{
    match (first, second) {
        (Some(x), Some(y)) => x != y,
        _ => false,
    }
}

/// Whether a rule is `True && x = x`.
fn is_true_rule(special: &Special, rule: &Rule) -> bool
    ensures { result ≡ is_true_rule special.now (rule_meaning rule.now) }
{
    match rule.params.as_slice() {
        [first, second] => {
            is_constant_pattern(special.truth, first)
                && same_variable(pattern_variable(second), term_variable(&rule.body))
        }
        _ => false,
    }
}

/// Whether a rule is `False && _ = False`.
fn is_false_rule(special: &Special, rule: &Rule) -> bool
    ensures { result ≡ is_false_rule special.now (rule_meaning rule.now) }
{
    match rule.params.as_slice() {
        [first, second] => {
            is_constant_pattern(special.falsity, first)
                && pattern_variable(second).is_some()
                && is_constant_term(special.falsity, &rule.body)
        }
        _ => false,
    }
}

/// Whether these alternatives are `False -> False` and `True -> y`.
fn are_branches(special: &Special, y: Option<u32>, alternatives: &[(Pattern, Term)]) -> bool
    ensures { result ≡ are_branches special.now y (alternatives_of alternatives.now) }
{
    match alternatives {
        [first, second] => {
            is_constant_pattern(special.falsity, &first.0)
                && is_constant_term(special.falsity, &first.1)
                && is_constant_pattern(special.truth, &second.0)
                && same_variable(y, term_variable(&second.1))
        }
        _ => false,
    }
}

/// Whether a term is `fcase x of { False -> False; True -> y }`.
#[tactic(auto, using(crate::specs::TermsOf::terms_of_variants))]
fn is_distinction(special: &Special, x: Option<u32>, y: Option<u32>, term: &Term) -> bool
    ensures { result ≡ is_distinction special.now x y (term_of term.now) }
{
    match term {
        Term::Case(mode, scrutinee, alternatives) => {
            is_flex(*mode)
                && same_variable(x, term_variable(scrutinee))
                && are_branches(special, y, alternatives)
        }
        _ => false,
    }
}

/// Whether a case distinction binds a free variable.
pub fn is_flex(mode: Mode) -> bool
    ensures { result ≡ is_flex mode }
{
    match mode {
        Mode::Flex => true,
        Mode::Rigid => false,
    }
}

/// Whether a rule is `x && y = fcase x of { False -> False; True -> y }`.
fn is_case_rule(special: &Special, rule: &Rule) -> bool
    ensures { result ≡ is_case_rule special.now (rule_meaning rule.now) }
{
    match rule.params.as_slice() {
        [first, second] => {
            let x = pattern_variable(first);
            let y = pattern_variable(second);
            different_variables(x, y) && is_distinction(special, x, y, &rule.body)
        }
        _ => false,
    }
}

/// Whether a body is that of `&&`: its two rules, or one rule with its case
/// distinction.
fn is_conjunction(special: &Special, body: &Body) -> bool
    ensures { result ≡ is_conjunction special.now (body_meaning body.now) }
{
    match body {
        Body::Rules(rules) => are_conjunction_rules(special, rules),
        Body::External(_) => false,
    }
}

fn are_conjunction_rules(special: &Special, rules: &[Rule]) -> bool
    ensures { result ≡ are_conjunction_rules special.now (map rule_meaning rules.now) }
{
    match rules {
        [only] => is_case_rule(special, only),
        [first, second] => is_true_rule(special, first) && is_false_rule(special, second),
        _ => false,
    }
}

/// Whether the constructor of the values of set functions, where there is one,
/// takes one argument.
fn has_values(heads: &Heads, values: Option<ConId>) -> bool
    ensures { result ≡ has_values (heads_program heads.now) values }
{
    match values {
        Some(constructor) => heads.takes(Head::Con(constructor), 1),
        None => true,
    }
}

/// Whether the built-in constructors are there, with their arities.
#[tactic(auto, unfolding(crate::specs::Heads::heads_program))]
fn has_constants(heads: &Heads) -> bool
    ensures { result ≡ has_constants (heads_program heads.now) }
{
    let special = heads.special;
    heads.takes(Head::Con(special.falsity), 0)
        && heads.takes(Head::Con(special.truth), 0)
        && special.falsity.0 < special.truth.0
        && heads.takes(Head::Con(special.nil), 0)
        && heads.takes(Head::Con(special.cons), 2)
        && has_values(heads, special.values)
}

/// Whether a function is `&&`, with two parameters.
fn is_both(special: &Special, function: &Function) -> bool
    ensures { result ≡ is_both special.now (Some (plain_function (function_meaning function.now))) }
{
    function.arity == 2 && is_conjunction(special, &function.body)
}

/// Whether the built-in entities of a program are there, with their arities and
/// rules.
pub(crate) fn has_special(heads: &Heads) -> bool
    ensures { result ≡ has_special (heads_program heads.now) }
{
    match heads.functions.get(heads.special.both.0) {
        Some(function) => is_both(heads.special, function) && has_constants(heads),
        None => false,
    }
}
