//! The call of a goal on its variables.
ghost use Rattle.std.specs.Prelude.{◌≡◌};
ghost use Rattle.cu_calculus.specs.Answered.{same_head};
ghost use Rattle.cu_calculus.specs.declared.Head.TheVariants.{Fun};
ghost use Rattle.cu_kernel.specs.KernelOf.{goal_meaning};
ghost use Rattle.cu_kernel.specs.TermsOf.{term_of, terms_of};
ghost use Rattle.cu_verdict.specs.Inside.Calls.{are_all_variables, are_variables, is_goal_call, is_variable};

use cu_kernel::{FunId, Goal, Head, Term};

/// Whether a term is the variable of a number.
#[tactic(auto, using(cu_kernel::specs::TermsOf::terms_of_variants))]
fn is_variable(term: &Term, number: usize) -> bool
    ensures { result ≡ is_variable number (term_of term.now) }
{
    match term {
        Term::Var(variable) => *variable as usize == number,
        _ => false,
    }
}

/// Whether terms are variables, counted from 0.
fn are_variables(terms: &[Term]) -> bool
    ensures { result ≡ are_variables 0 (terms_of terms.now) }
{
    for i in 0..terms.len() {
        if !is_variable(&terms[i], i) {
            return false;
        }
    }
    true
}

/// Whether terms are so many variables, counted from 0.
#[tactic(auto, using(cu_kernel::proofs::ListCounts::counts))]
fn are_all_variables(terms: &[Term], count: usize) -> bool
    ensures { result ≡ are_all_variables count (terms_of terms.now) }
{
    terms.len() == count && are_variables(terms)
}

/// Whether a head is a function.
fn is_function(head: Head, function: FunId) -> bool
    ensures { result ≡ same_head head (Fun function) }
{
    head == Head::Fun(function)
}

/// Whether a term is the call of a goal on its variables, in declared order.
#[tactic(auto, using(cu_kernel::specs::TermsOf::terms_of_variants))]
pub(crate) fn is_goal_call(term: &Term, goal: &Goal) -> bool
    ensures { result ≡ is_goal_call (goal_meaning goal.now) (term_of term.now) }
{
    match term {
        Term::Whole(head, terms) => {
            is_function(*head, goal.function) && are_all_variables(terms, goal.names.len())
        }
        _ => false,
    }
}
