//! The rows of the table: whether a statement follows from cited ones.
ghost use Rattle.std.specs.Prelude.{◌≡◌, ◌+◌, ◌++◌, ◌∷◌, [], Some, IfOk, map, option_map};
ghost use Rattle.cu_calculus.specs.Chosen as calculus;
ghost use Rattle.cu_calculus.specs.Choose.{alternative_at, rows_from};
ghost use Rattle.cu_calculus.specs.Match.{bind_all, empty};
ghost use Rattle.cu_calculus.specs.Value as value;
ghost use Rattle.cu_calculus.specs.Value.{values_of};
ghost use Rattle.cu_values.specs.Approximation.{is_below};
ghost use Rattle.cu_kernel.specs.Heads.{heads_program};
ghost use Rattle.cu_crwl.specs.Environments.{says};
ghost use Rattle.cu_kernel.specs.TermsOf.{alternatives_of, pattern_of, term_of, terms_of};
ghost use Rattle.cu_crwl.specs.Meaning.{claim_of, statement_of, statements_at};
ghost use Rattle.cu_crwl.specs.Table.{alternative_gives, application_gives, applied_to, apply_follows, case_follows, choice_gives, first_cited, follows, free_follows, free_gives, let_follows, one_cited, or_follows, part_follows, row_follows, two_cited, whole_follows};

use crate::Statement;
use crate::answer::total_data;
use crate::apply::{given_values, is_applied, none, one, two};
use crate::checker::Checker;
use crate::choose::chosen;
use crate::environment::{bound, concern_all, concerns, is_unknown, one_binding, states};
use crate::matching::{literal_is, match_pattern};
use crate::of_program::is_of;
use cu_kernel::{Head, Heads, Pattern, Term};
use cu_values::{Cell, Value};
use std::alloc::{AllocError, Global};

/// What a row of the table concludes of a term: in this environment it has this
/// value.
#[derive(Clone, Copy)]
pub(crate) struct Conclusion<'a> {
    pub(crate) env: &'a [(u32, Value)],
    pub(crate) value: &'a Value,
}

/// The statements that are cited for a head with all its arguments.
#[derive(Clone, Copy)]
pub(crate) struct Premises<'a> {
    /// The statements about the arguments, one for each.
    pub(crate) parts: &'a [&'a Statement],
    /// The statements for the call.
    pub(crate) last: &'a [&'a Statement],
}

/// A variable and the term in which it is bound.
#[derive(Clone, Copy)]
pub(crate) struct Scope<'a> {
    pub(crate) variable: u32,
    pub(crate) body: &'a Term,
}

/// The row for a variable: the value approximates what the bindings say, which
/// is Bottom where they say nothing.
#[tactic(auto, using(crate::proofs::EnvironmentLaws::below_bound))]
pub(crate) fn is_below(value: &Value, env: &[(u32, Value)], variable: u32) -> bool
    ensures { result ≡ is_below value.now (bind_all empty env.now variable) }
{
    match bound(env, variable) {
        Some(other) => value.leq(other),
        None => is_unknown(value),
    }
}

/// The row for a choice between two terms.
pub(crate) fn or_follows(
    cited: &[&Statement],
    conclusion: Conclusion<'_>,
    left: &Term,
    right: &Term,
) -> bool
    ensures { result ≡ or_follows (one_cited (statements_at cited.now)) conclusion.entry.env.now
        (term_of left.now) (term_of right.now) conclusion.entry.value.now }
{
    match one(cited) {
        Some(statement) => states(statement, &[], conclusion.env, left, conclusion.value)
            || states(statement, &[], conclusion.env, right, conclusion.value),
        None => false,
    }
}

/// The alternative of a number, where there is one.
fn alternative(alternatives: &[(Pattern, Term)], choice: usize) -> Option<&(Pattern, Term)>
    ensures { option_map (λ row. (pattern_of row.now.0, term_of row.now.1)) result
        ≡ alternative_at (alternatives_of alternatives.now) choice }
{
    if choice >= alternatives.len() {
        return None;
    }
    Some(&alternatives[choice])
}

impl Checker<'_> {
    /// The row for a head with all its arguments.
    pub(crate) fn whole_follows(
        self,
        premises: Premises<'_>,
        conclusion: Conclusion<'_>,
        head: Head,
        terms: &[Term],
    ) -> Result<bool, AllocError>
        ensures { IfOk result (λ yes. yes ≡ whole_follows (heads_program self.entry.heads.now)
            (map claim_of self.entry.claims.now) (statements_at premises.entry.parts.now)
            (statements_at premises.entry.last.now) conclusion.entry.env.now head
            (terms_of terms.now) conclusion.entry.value.now) }
    {
        if !concern_all(premises.parts, conclusion.env, terms) {
            return Ok(false);
        }
        let values = given_values(self.alloc, premises.parts)?;
        self.applies(head, &values, premises.last, conclusion.value)
    }

    /// The row for a partial application.
    pub(crate) fn part_follows(
        self,
        cited: &[&Statement],
        conclusion: Conclusion<'_>,
        head: Head,
        terms: &[Term],
    ) -> Result<bool, AllocError>
        ensures { IfOk result (λ yes. yes ≡ part_follows (statements_at cited.now)
            conclusion.entry.env.now head (terms_of terms.now) conclusion.entry.value.now) }
    {
        if !concern_all(cited, conclusion.env, terms) {
            return Ok(false);
        }
        let values = given_values(self.alloc, cited)?;
        is_applied(head, &values, conclusion.value)
    }

    /// Whether a head on the values of a partial application and one more gives
    /// a value.
    #[tactic(auto, using(crate::proofs::FollowForms::count_is))]
    fn applied_to(
        self,
        head: Head,
        values: &[Value],
        last: &[&Statement],
        value: &Value,
    ) -> Result<bool, AllocError>
        ensures { IfOk result (λ yes. yes ≡ applied_to (heads_program self.entry.heads.now)
            (map claim_of self.entry.claims.now) head (values_of values.now)
            (statements_at last.now) value.now) }
    {
        if self.heads.takes_more(head, values.len()) {
            if none(last) {
                is_applied(head, values, value)
            } else {
                Ok(false)
            }
        } else if self.heads.takes(head, values.len()) {
            self.applies(head, values, last, value)
        } else {
            Ok(false)
        }
    }

    /// Whether a functional value, applied to another one, gives a value.
    fn application_gives(
        self,
        function: &Value,
        argument: &Value,
        last: &[&Statement],
        value: &Value,
    ) -> Result<bool, AllocError>
        ensures { IfOk result (λ yes. yes ≡ application_gives (heads_program self.entry.heads.now)
            (map claim_of self.entry.claims.now) function.now argument.now
            (statements_at last.now) value.now) }
    {
        match function.head() {
            Cell::Part(head, _) => {
                let mut values = function.arguments()?;
                values.push(argument.clone()?)?;
                self.applied_to(head, &values, last, value)
            }
            _ => Ok(false),
        }
    }

    /// The row for the application of a function to an argument.
    pub(crate) fn apply_follows(
        self,
        cited: &[&Statement],
        conclusion: Conclusion<'_>,
        function: &Term,
        argument: &Term,
    ) -> Result<bool, AllocError>
        ensures { IfOk result (λ yes. yes ≡ apply_follows (heads_program self.entry.heads.now)
            (map claim_of self.entry.claims.now) (first_cited (statements_at cited.now))
            conclusion.entry.env.now (term_of function.now) (term_of argument.now)
            conclusion.entry.value.now) }
    {
        if cited.len() < 2 {
            return Ok(false);
        }
        let first = cited[0];
        let second = cited[1];
        if !concerns(first, &[], conclusion.env, function)
            || !concerns(second, &[], conclusion.env, argument)
        {
            return Ok(false);
        }
        self.application_gives(&first.value, &second.value, &cited[2..], conclusion.value)
    }

    /// Whether a statement gives the value of a scope's body, where the
    /// variable stands for a given value.
    fn scope_gives(
        self,
        statement: &Statement,
        conclusion: Conclusion<'_>,
        scope: Scope<'_>,
        given: &Value,
    ) -> Result<bool, AllocError>
        ensures { IfOk result (λ yes. yes ≡ says (statement_of statement.now)
            ((scope.entry.variable, given.now) ∷ []) conclusion.entry.env.now
            (term_of scope.entry.body.now) conclusion.entry.value.now) }
    {
        let binding = one_binding(self.alloc, scope.variable, given)?;
        Ok(states(
            statement,
            &binding,
            conclusion.env,
            scope.body,
            conclusion.value,
        ))
    }

    /// The row for a local definition, whose variable stands for the value of
    /// the definition.
    pub(crate) fn let_follows(
        self,
        cited: &[&Statement],
        conclusion: Conclusion<'_>,
        scope: Scope<'_>,
        definition: &Term,
    ) -> Result<bool, AllocError>
        ensures { IfOk result (λ yes. yes ≡ let_follows (two_cited (statements_at cited.now))
            conclusion.entry.env.now scope.entry.variable (term_of definition.now)
            (term_of scope.entry.body.now) conclusion.entry.value.now) }
    {
        match two(cited) {
            Some(pair) => {
                if !concerns(pair.0, &[], conclusion.env, definition) {
                    return Ok(false);
                }
                self.scope_gives(pair.1, conclusion, scope, &pair.0.value)
            }
            None => Ok(false),
        }
    }

    /// The row for a free variable, which stands for what the cited statement
    /// says of it.
    pub(crate) fn free_follows(
        self,
        cited: &[&Statement],
        conclusion: Conclusion<'_>,
        scope: Scope<'_>,
    ) -> Result<bool, AllocError>
        ensures { IfOk result (λ yes. yes ≡ free_follows (heads_program self.entry.heads.now)
            (one_cited (statements_at cited.now)) conclusion.entry.env.now scope.entry.variable
            (term_of scope.entry.body.now) conclusion.entry.value.now) }
    {
        match one(cited) {
            Some(statement) => self.free_gives(statement, conclusion, scope),
            None => Ok(false),
        }
    }

    /// Whether a statement gives the value of a scope's body, where the
    /// variable stands for total data of the program.
    #[tactic(auto, using(crate::proofs::EnvironmentLaws::free_bound))]
    fn free_gives(
        self,
        statement: &Statement,
        conclusion: Conclusion<'_>,
        scope: Scope<'_>,
    ) -> Result<bool, AllocError>
        ensures { IfOk result (λ yes. yes ≡ free_gives (heads_program self.entry.heads.now)
            (statement_of statement.now) conclusion.entry.env.now scope.entry.variable
            (bind_all empty (statement_of statement.now).env scope.entry.variable)
            (term_of scope.entry.body.now) conclusion.entry.value.now) }
    {
        match bound(&statement.env, scope.variable) {
            Some(given) => {
                if !total_data(given) {
                    return Ok(false);
                }
                if !is_of(self.heads, given) {
                    return Ok(false);
                }
                self.scope_gives(statement, conclusion, scope, given)
            }
            None => Ok(false),
        }
    }

    /// The row for a case distinction.
    pub(crate) fn case_follows(
        self,
        cited: &[&Statement],
        conclusion: Conclusion<'_>,
        scrutinee: &Term,
        alternatives: &[(Pattern, Term)],
    ) -> Result<bool, AllocError>
        ensures { IfOk result (λ yes. yes ≡ case_follows (heads_program self.entry.heads.now)
            (two_cited (statements_at cited.now)) conclusion.entry.env.now
            (term_of scrutinee.now) (alternatives_of alternatives.now)
            conclusion.entry.value.now) }
    {
        match two(cited) {
            Some(pair) => {
                if !concerns(pair.0, &[], conclusion.env, scrutinee) {
                    return Ok(false);
                }
                self.choice_gives(pair.1, conclusion, &pair.0.value, alternatives)
            }
            None => Ok(false),
        }
    }

    /// Whether a statement gives the value of the alternative that a given
    /// value takes.
    fn choice_gives(
        self,
        statement: &Statement,
        conclusion: Conclusion<'_>,
        given: &Value,
        alternatives: &[(Pattern, Term)],
    ) -> Result<bool, AllocError>
        ensures { IfOk result (λ yes. yes ≡ choice_gives (statement_of statement.now)
            conclusion.entry.env.now given.now conclusion.entry.value.now
            (alternatives_of alternatives.now)
            (calculus.chosen (heads_program self.entry.heads.now)
            (rows_from 0 (alternatives_of alternatives.now)) (given.now ∷ []))) }
    {
        match chosen(self.alloc, self.heads, alternatives, given)? {
            Some(choice) => match alternative(alternatives, choice) {
                Some(row) => self.alternative_gives(statement, conclusion, given, row),
                None => Ok(false),
            },
            None => Ok(false),
        }
    }

    /// Whether a statement gives the value of an alternative, under the
    /// bindings of its pattern's match with a given value.
    fn alternative_gives(
        self,
        statement: &Statement,
        conclusion: Conclusion<'_>,
        given: &Value,
        row: &(Pattern, Term),
    ) -> Result<bool, AllocError>
        ensures { IfOk result (λ yes. yes ≡ alternative_gives (statement_of statement.now)
            conclusion.entry.env.now given.now conclusion.entry.value.now
            (Some (pattern_of row.now.0, term_of row.now.1))) }
    {
        match match_pattern(self.alloc, &row.0, given)? {
            Some(bindings) => Ok(states(
                statement,
                &bindings,
                conclusion.env,
                &row.1,
                conclusion.value,
            )),
            None => Ok(false),
        }
    }
}
