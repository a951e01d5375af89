//! The answer that a proof proves.
ghost use Rattle.std.specs.Prelude.{List, IfNone, IfOk, IfSome, map};
ghost use Rattle.cu_calculus.specs.Value.{Value};
ghost use Rattle.cu_crwl.specs.Meaning.{claim_of, statement_of};
ghost use Rattle.cu_kernel.specs.Kernel.{program_of};
ghost use Rattle.cu_kernel.specs.KernelOf.{goal_meaning};
ghost use Rattle.cu_verdict.specs.Proved.{ProvesAnswer, SaysAnswer};

use crate::terms::is_goal_call;
use crate::values::{are_total, values_of};
use cu_crwl::{Claims, Proof, Statement, checks, conclusion};
use cu_kernel::{Goal, Program};
use cu_values::Value;
use std::alloc::{AllocError, Global};

/// An answer of a goal.
#[derive(Drop)]
pub struct Answer {
    /// What the goal's variables stand for, in declared order.
    pub bindings: Vec<Value>,
    /// The value that the goal has then.
    pub value: Value,
}

/// The answer of a goal that a proof with claims proves, if it proves one.
///
/// # Errors
///
/// An allocation failure.
pub fn proved_answer(
    alloc: Global,
    program: &Program,
    goal: &Goal,
    claims: &Claims,
    proof: &Proof,
) -> Result<Option<Answer>, AllocError>
    ensures some { IfOk result (λ found. IfSome found (λ answer.
        ProvesAnswer (program_of program.now) (goal_meaning goal.now)
        (map claim_of claims.now.rows.items) proof.now answer.bindings.items answer.value)) }
    ensures none { IfOk result (λ found. IfNone found ((bindings : List Value) (v : Value)
        → ProvesAnswer (program_of program.now) (goal_meaning goal.now)
        (map claim_of claims.now.rows.items) proof.now bindings v → ⊥)) }
{
    if !checks(alloc, program, claims, proof)? {
        return Ok(None);
    }
    let concluded = conclusion(alloc, proof)?;
    answer_of(alloc, goal, concluded)
}

/// The answer that a goal has by a statement, if it says one.
fn answer_of(alloc: Global, goal: &Goal, concluded: Statement) -> Result<Option<Answer>, AllocError>
    ensures some { IfOk result (λ found. IfSome found (λ answer.
        SaysAnswer (goal_meaning goal.now) (statement_of concluded)
        answer.bindings.items answer.value)) }
    ensures none { IfOk result (λ found. IfNone found ((bindings : List Value) (v : Value)
        → SaysAnswer (goal_meaning goal.now) (statement_of concluded) bindings v → ⊥)) }
{
    let Statement { env, term, value } = concluded;
    if !is_goal_call(&term, goal) {
        return Ok(None);
    }
    let bindings = values_of(alloc, &env, goal.names.len())?;
    if !are_total(&bindings) {
        return Ok(None);
    }
    if !value.is_total() {
        return Ok(None);
    }
    Ok(Some(Answer { bindings, value }))
}
