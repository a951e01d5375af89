//! The checker of proofs.
ghost use Rattle.std.specs.Prelude.{◌≡◌, ◌≢◌, ◌↔◌, ◌++◌, [], IfOk, IsTrue, Some, map, option_map};
ghost use Rattle.std.specs.List.{list_all};
ghost use Rattle.cu_calculus.specs.Proof as calculus;
ghost use Rattle.cu_calculus.specs.Proof.{is_claim_of, is_statement_of, statements, Checks};
ghost use Rattle.cu_kernel.specs.Heads.{heads_program};
ghost use Rattle.cu_kernel.specs.Kernel.{program_of};
ghost use Rattle.cu_kernel.specs.TermsOf.{term_of};
ghost use Rattle.cu_crwl.specs.Meaning.{claim_of, statement_of, statements_at, step_of};
ghost use Rattle.cu_crwl.specs.Steps.{all_follow, cited_by, step_follows};
ghost use Rattle.cu_crwl.specs.Table.{follows, row_follows};

use crate::apply::{none, one};
use crate::checker::Checker;
use crate::copy::copy_statement;
use crate::environment::is_unknown;
use crate::follow::{Conclusion, Premises, Scope, is_below, or_follows};
use crate::matching::literal_is;
use crate::of_program::{claim_is_of, statement_is_of};
use crate::{Claim, Claims, Proof, Statement, Step};
use cu_kernel::{Heads, Program, Term};
use std::alloc::{AllocError, Global};

/// Whether a proof checks over claims: it speaks of the program, and each of
/// its steps follows from the steps that it cites, which stand before it, by a
/// row of the calculus.
///
/// # Errors
///
/// An allocation failure.
pub fn checks(
    alloc: Global,
    program: &Program,
    claims: &Claims,
    proof: &Proof,
) -> Result<bool, AllocError>
    ensures { IfOk result (λ yes. IsTrue yes
        ↔ Checks (program_of program.now) (map claim_of claims.now.rows.items) proof.now) }
{
    let heads = Heads::of(alloc, program)?;
    if !claims_are_of(&heads, &claims.rows) {
        return Ok(false);
    }
    if !steps_are_of(&heads, proof.steps())? {
        return Ok(false);
    }
    let checker = Checker {
        alloc,
        heads: &heads,
        claims: &claims.rows,
    };
    checker.steps_follow(proof.steps())
}

/// Whether claims are the program's.
fn claims_are_of(heads: &Heads, claims: &[Claim]) -> bool
    ensures { result ≡ list_all (is_claim_of (heads_program heads.now)) (map claim_of claims.now) }
{
    for claim in claims {
        if !claim_is_of(heads, claim) {
            return false;
        }
    }
    true
}

/// Whether the statements of steps are the program's.
fn steps_are_of(heads: &Heads, steps: &[Step]) -> Result<bool, AllocError>
    ensures { IfOk result (λ yes. yes ≡ list_all
        (λ step. is_statement_of (heads_program heads.now) step.statement)
        (map step_of steps.now)) }
{
    for step in steps {
        if !statement_is_of(heads, &step.statement)? {
            return Ok(false);
        }
    }
    Ok(true)
}

/// The statements that a step cites, where they all stand before it.
fn cited<'a>(
    alloc: Global,
    before: &'a [Step],
    cites: &[usize],
) -> Result<Option<Vec<&'a Statement>>, AllocError>
    ensures { IfOk result (λ found. option_map (λ ss. statements_at ss.items) found ≡ cited_by
        (statements (map step_of before.now)) cites.now) }
{
    let mut found = Vec::new(alloc);
    for place in cites {
        if *place >= before.len() {
            return Ok(None);
        }
        found.push(&before[*place].statement)?;
    }
    Ok(Some(found))
}

impl Checker<'_> {
    /// Whether each step follows from those that it cites.
    fn steps_follow(self, steps: &[Step]) -> Result<bool, AllocError>
        ensures { IfOk result (λ yes. yes ≡ all_follow (heads_program self.entry.heads.now)
            (map claim_of self.entry.claims.now) [] (map step_of steps.now)) }
    {
        for i in 0..steps.len() {
            if !self.step_follows(&steps[..i], &steps[i])? {
                return Ok(false);
            }
        }
        Ok(true)
    }

    /// Whether a step follows from those that it cites, of the steps before it.
    fn step_follows(self, before: &[Step], step: &Step) -> Result<bool, AllocError>
        ensures { IfOk result (λ yes. yes ≡ step_follows (heads_program self.entry.heads.now)
            (map claim_of self.entry.claims.now) (map step_of before.now) (step_of step.now)) }
    {
        match cited(self.alloc, before, &step.cites)? {
            Some(statements) => self.follows(&statements, &step.statement),
            None => Ok(false),
        }
    }

    /// Whether a statement follows from cited ones, by the row for Bottom or by
    /// the row for its term's form.
    #[tactic(auto, unfolding(crate::specs::Table::follows))]
    fn follows(self, cited: &[&Statement], statement: &Statement) -> Result<bool, AllocError>
        ensures { IfOk result (λ yes. yes ≡ follows (heads_program self.entry.heads.now)
            (map claim_of self.entry.claims.now) (statements_at cited.now)
            (statement_of statement.now).env (statement_of statement.now).term
            (statement_of statement.now).value) }
    {
        if none(cited) && is_unknown(&statement.value) {
            return Ok(true);
        }
        self.row_follows(cited, statement)
    }

    /// Whether a statement follows from cited ones by the row for its term's
    /// form.
    #[tactic(auto, using(cu_kernel::specs::TermsOf::terms_of_variants, crate::proofs::FollowForms::term_counts), unfolding(crate::specs::Table::row_follows))]
    fn row_follows(self, cited: &[&Statement], statement: &Statement) -> Result<bool, AllocError>
        ensures { IfOk result (λ yes. yes ≡ row_follows (heads_program self.entry.heads.now)
            (map claim_of self.entry.claims.now) (statements_at cited.now)
            (statement_of statement.now).env (statement_of statement.now).term
            (statement_of statement.now).value) }
    {
        let env = statement.env.as_slice();
        let value = &statement.value;
        let conclusion = Conclusion { env, value };
        match &statement.term {
            Term::Var(variable) => Ok(none(cited) && is_below(value, env, *variable)),
            Term::Lit(literal) => Ok(none(cited) && literal_is(*literal, value)),
            Term::Whole(head, terms) => {
                if cited.len() < terms.len() {
                    return Ok(false);
                }
                let (parts, last) = cited.split_at(terms.len());
                self.whole_follows(Premises { parts, last }, conclusion, *head, terms)
            }
            Term::Part(head, terms) => self.part_follows(cited, conclusion, *head, terms),
            Term::Apply(function, argument) => {
                self.apply_follows(cited, conclusion, function, argument)
            }
            Term::Let(variable, definition, body) => {
                let scope = Scope {
                    variable: *variable,
                    body,
                };
                self.let_follows(cited, conclusion, scope, definition)
            }
            Term::Free(variable, body) => {
                let scope = Scope {
                    variable: *variable,
                    body,
                };
                self.free_follows(cited, conclusion, scope)
            }
            Term::Or(left, right) => Ok(or_follows(cited, conclusion, left, right)),
            Term::Case(_, scrutinee, alternatives) => {
                self.case_follows(cited, conclusion, scrutinee, alternatives)
            }
        }
    }
}

/// What a proof proves: its last statement.
///
/// # Errors
///
/// An allocation failure.
pub fn conclusion(alloc: Global, proof: &Proof) -> Result<Statement, AllocError>
    ensures { IfOk result (λ statement. calculus.conclusion proof.now ≡ Some
        (statement_of statement)) }
{
    let steps = proof.steps();
    let last = &steps[steps.len() - 1];
    copy_statement(alloc, &last.statement)
}
