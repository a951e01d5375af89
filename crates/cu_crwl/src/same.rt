//! Patterns and terms that are the same.
ghost use Rattle.std.specs.Prelude.{◌≡◌};
ghost use Rattle.cu_kernel.specs.TermsOf.{alternatives_of, pattern_of, patterns_of, term_of, terms_of};
ghost use Rattle.cu_crwl.specs.Same.{same_alternatives, same_mode, same_pattern, same_patterns, same_term, same_terms};

use cu_kernel::{Mode, Pattern, Term};

/// Whether two patterns are the same.
#[cycle(patterns)]
#[tactic(auto, using(cu_kernel::specs::TermsOf::patterns_of_variants))]
pub(crate) fn pattern_is(left: &Pattern, right: &Pattern) -> bool
    ensures { result ≡ same_pattern (pattern_of left.now) (pattern_of right.now) }
{
    match (left, right) {
        (Pattern::Var(x), Pattern::Var(y)) => x == y,
        (Pattern::Lit(literal), Pattern::Lit(other)) => literal == other,
        (Pattern::Con(constructor, patterns), Pattern::Con(other, others)) => {
            constructor == other && patterns_are(patterns, others)
        }
        (Pattern::Alias(x, pattern), Pattern::Alias(y, other)) => x == y
            && pattern_is(pattern, other),
        _ => false,
    }
}

/// Whether patterns are the same in pairs.
#[cycle(patterns)]
fn patterns_are(left: &[Pattern], right: &[Pattern]) -> bool
    ensures { result ≡ same_patterns (patterns_of left.now) (patterns_of right.now) }
{
    if left.len() != right.len() {
        return false;
    }
    for i in 0..left.len() {
        if !pattern_is(&left[i], &right[i]) {
            return false;
        }
    }
    true
}

/// Whether two terms are the same.
#[cycle(terms)]
#[tactic(auto, using(cu_kernel::specs::TermsOf::terms_of_variants))]
pub(crate) fn term_is(left: &Term, right: &Term) -> bool
    ensures { result ≡ same_term (term_of left.now) (term_of right.now) }
{
    match (left, right) {
        (Term::Var(x), Term::Var(y)) => x == y,
        (Term::Lit(literal), Term::Lit(other)) => literal == other,
        (Term::Whole(head, terms), Term::Whole(other, others)) => head == other
            && terms_are(terms, others),
        (Term::Part(head, terms), Term::Part(other, others)) => head == other
            && terms_are(terms, others),
        (Term::Apply(function, argument), Term::Apply(other, second)) => {
            term_is(function, other) && term_is(argument, second)
        }
        (Term::Let(x, value, body), Term::Let(y, other, second)) => {
            x == y && term_is(value, other) && term_is(body, second)
        }
        (Term::Free(x, body), Term::Free(y, other)) => x == y && term_is(body, other),
        (Term::Or(first, second), Term::Or(other, last)) => term_is(first, other)
            && term_is(second, last),
        (Term::Case(mode, value, rows), Term::Case(kind, other, others)) => {
            if !modes_are(*mode, *kind) {
                return false;
            }
            term_is(value, other) && alternatives_are(rows, others)
        }
        _ => false,
    }
}

/// Whether terms are the same in pairs.
#[cycle(terms)]
fn terms_are(left: &[Term], right: &[Term]) -> bool
    ensures { result ≡ same_terms (terms_of left.now) (terms_of right.now) }
{
    if left.len() != right.len() {
        return false;
    }
    for i in 0..left.len() {
        if !term_is(&left[i], &right[i]) {
            return false;
        }
    }
    true
}

/// Whether alternatives are the same in pairs.
#[cycle(terms)]
fn alternatives_are(left: &[(Pattern, Term)], right: &[(Pattern, Term)]) -> bool
    ensures { result ≡ same_alternatives (alternatives_of left.now) (alternatives_of right.now) }
{
    if left.len() != right.len() {
        return false;
    }
    for i in 0..left.len() {
        if !pattern_is(&left[i].0, &right[i].0) || !term_is(&left[i].1, &right[i].1) {
            return false;
        }
    }
    true
}

/// Whether two modes are the same.
fn modes_are(left: Mode, right: Mode) -> bool
    ensures { result ≡ same_mode left right }
{
    match (left, right) {
        (Mode::Rigid, Mode::Rigid) => true,
        (Mode::Flex, Mode::Flex) => true,
        _ => false,
    }
}
