//! Which terms and rules are valid.
ghost use Rattle.std.specs.Prelude.{◌≡◌, ◌&&◌, IfOk, map, true};
ghost use Rattle.std.specs.List.{list_all};
ghost use Rattle.cu_calculus.specs.Valid.{also, also_all, but, fit_alternatives, fit_terms, fits_rule, fits_term};
ghost use Rattle.cu_kernel.specs.Heads.{heads_program};
ghost use Rattle.cu_kernel.specs.KernelOf.{rule_meaning};
ghost use Rattle.cu_kernel.specs.Inside.Scope.{allowed};
ghost use Rattle.cu_kernel.specs.TermsOf.{alternatives_of, term_of, terms_of};

use crate::heads::Heads;
use crate::patterns::{
    is_linear, literal_fits, pattern_fits, patterns_fit, push_all_variables, push_variables,
};
use crate::scope::Scope;
use crate::{Pattern, Rule, Term};
use std::alloc::{AllocError, Global};

/// Whether a term fits the program and uses only variables of a scope.
#[cycle(terms)]
#[tactic(auto, using(crate::specs::TermsOf::terms_of_variants, crate::specs::Inside::Scope::allowed_variants, crate::proofs::ListCounts::counts))]
fn term_fits(alloc: Global, heads: &Heads, term: &Term, scope: &Scope) -> Result<bool, AllocError>
    ensures { IfOk result (λ fits. fits
        ≡ fits_term (heads_program heads.now) (allowed scope.now) (term_of term.now)) }
{
    match term {
        Term::Var(x) => Ok(scope.allows(*x)),
        Term::Lit(literal) => Ok(literal_fits(*literal)),
        Term::Whole(head, arguments) => {
            if !heads.allows(*head) || !heads.takes(*head, arguments.len()) {
                return Ok(false);
            }
            terms_fit(alloc, heads, arguments, scope)
        }
        Term::Part(head, arguments) => {
            if !heads.allows(*head) || !heads.takes_more(*head, arguments.len()) {
                return Ok(false);
            }
            terms_fit(alloc, heads, arguments, scope)
        }
        Term::Apply(function, argument) => both_fit(alloc, heads, function, argument, scope),
        Term::Let(x, value, body) => {
            if !term_fits(alloc, heads, value, &Scope::Without(*x, scope))? {
                return Ok(false);
            }
            term_fits(alloc, heads, body, &Scope::With(*x, scope))
        }
        Term::Free(x, body) => term_fits(alloc, heads, body, &Scope::With(*x, scope)),
        Term::Or(left, right) => both_fit(alloc, heads, left, right, scope),
        Term::Case(_, scrutinee, alternatives) => {
            if !term_fits(alloc, heads, scrutinee, scope)? {
                return Ok(false);
            }
            alternatives_fit(alloc, heads, alternatives, scope)
        }
    }
}

/// Whether two terms fit the program and use only variables of a scope.
#[cycle(terms)]
fn both_fit(
    alloc: Global,
    heads: &Heads,
    first: &Term,
    second: &Term,
    scope: &Scope,
) -> Result<bool, AllocError>
    ensures { IfOk result (λ fit. fit
        ≡ (fits_term (heads_program heads.now) (allowed scope.now) (term_of first.now)
        && fits_term (heads_program heads.now) (allowed scope.now) (term_of second.now))) }
{
    if !term_fits(alloc, heads, first, scope)? {
        return Ok(false);
    }
    term_fits(alloc, heads, second, scope)
}

/// Whether all of these terms fit the program and use only variables of a
/// scope.
#[cycle(terms)]
fn terms_fit(
    alloc: Global,
    heads: &Heads,
    terms: &[Term],
    scope: &Scope,
) -> Result<bool, AllocError>
    ensures { IfOk result (λ fit. fit
        ≡ fit_terms (heads_program heads.now) (allowed scope.now) (terms_of terms.now)) }
{
    for term in terms {
        if !term_fits(alloc, heads, term, scope)? {
            return Ok(false);
        }
    }
    Ok(true)
}

/// Whether all of these alternatives fit the program and use only variables of
/// a scope.
#[cycle(terms)]
fn alternatives_fit(
    alloc: Global,
    heads: &Heads,
    alternatives: &[(Pattern, Term)],
    scope: &Scope,
) -> Result<bool, AllocError>
    ensures { IfOk result (λ fit. fit
        ≡ fit_alternatives (heads_program heads.now) (allowed scope.now)
        (alternatives_of alternatives.now)) }
{
    for (pattern, body) in alternatives {
        if !pattern_fits(heads, pattern) {
            return Ok(false);
        }
        let mut variables = Vec::new(alloc);
        push_variables(&mut variables, pattern)?;
        if !is_linear(variables.as_slice()) {
            return Ok(false);
        }
        if !term_fits(
            alloc,
            heads,
            body,
            &Scope::WithAll(variables.as_slice(), scope),
        )? {
            return Ok(false);
        }
    }
    Ok(true)
}

/// Whether a rule has a pattern for each of so many parameters and is valid.
#[tactic(auto, using(crate::specs::Inside::Scope::allowed_variants, crate::proofs::ListCounts::counts))]
fn rule_fits(alloc: Global, heads: &Heads, arity: u32, rule: &Rule) -> Result<bool, AllocError>
    ensures { IfOk result (λ fits. fits
        ≡ fits_rule (heads_program heads.now) arity (rule_meaning rule.now)) }
{
    let params = rule.params.as_slice();
    if params.len() != arity as usize || !patterns_fit(heads, params) {
        return Ok(false);
    }
    let mut variables = Vec::new(alloc);
    push_all_variables(&mut variables, params)?;
    if !is_linear(variables.as_slice()) {
        return Ok(false);
    }
    term_fits(
        alloc,
        heads,
        &rule.body,
        &Scope::Parameters(variables.as_slice()),
    )
}

/// Whether all of these rules have a pattern for each of so many parameters and
/// are valid.
pub(crate) fn rules_fit(
    alloc: Global,
    heads: &Heads,
    arity: u32,
    rules: &[Rule],
) -> Result<bool, AllocError>
    ensures { IfOk result (λ fit. fit
        ≡ list_all (fits_rule (heads_program heads.now) arity) (map rule_meaning rules.now)) }
{
    for rule in rules {
        if !rule_fits(alloc, heads, arity, rule)? {
            return Ok(false);
        }
    }
    Ok(true)
}

impl Heads<'_> {
    /// Whether a term fits the program, where every variable may stand: its
    /// heads are the program's, those with all their arguments have as many
    /// as they take, partial applications have fewer, the patterns of its
    /// alternatives are linear, and no `Let` binds its variable in its own
    /// definition. The one error is an allocation failure.
    #[tactic(auto, using(crate::specs::Inside::Scope::allowed_variants))]
    pub fn fits(&self, term: &Term) -> Result<bool, AllocError>
        ensures { IfOk result (λ fits. fits
            ≡ fits_term (heads_program self.now) (λ x. true) (term_of term.now)) }
    {
        let alloc = *self.constructors.allocator();
        term_fits(alloc, self, term, &Scope::All)
    }
}
