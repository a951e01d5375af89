//! What is written of steps and claims, and of a whole proof.
ghost use Rattle.std.specs.Prelude.{◌≡◌, ◌++◌, OnErr, OnOk, decimal, map};
ghost use Rattle.std.specs.List.{flat_map};
ghost use Rattle.cu_crwl.specs.Meaning.{claim_of, step_of, statement_of};
ghost use Rattle.cu_prooftext.specs.Text.{binding_text, claim_text, claimed_text, further_text, heading_text, list_text, proof_text, statement_text, step_text};

use crate::parts::write_number;
use crate::terms::write_term;
use crate::values::{write_arguments, write_value, write_values};
use cu_crwl::{Claim, Claims, Proof, Statement, Step};
use cu_values::Value;
use std::alloc::AllocError;

/// Writes numbers, each after a comma.
fn write_further_numbers(out: &mut Vec<u8>, numbers: &[usize]) -> Result<(), AllocError>
    ensures { OnOk result (out.new.items
        ≡ out.old.items ++ flat_map (further_text decimal) numbers.now) }
{
    for number in numbers {
        out.extend_from_slice(b",")?;
        write_number(out, *number)?;
    }
    Ok(())
}

/// Writes the numbers of the steps that a step cites.
fn write_cites(out: &mut Vec<u8>, cites: &[usize]) -> Result<(), AllocError>
    ensures { OnOk result (out.new.items ≡ out.old.items ++ list_text decimal cites.now) }
{
    match cites {
        [] => out.extend_from_slice(b"-"),
        [first, further @ ..] => {
            write_number(out, *first)?;
            write_further_numbers(out, further)
        }
    }
}

/// Writes a variable and its value.
fn write_binding(out: &mut Vec<u8>, binding: &(u32, Value)) -> Result<(), AllocError>
    ensures { OnOk result (out.new.items ≡ out.old.items ++ binding_text binding.now) }
{
    write_number(out, binding.0 as usize)?;
    out.extend_from_slice(b"=")?;
    write_value(out, &binding.1)
}

/// Writes bindings, each after a comma.
fn write_further_bindings(out: &mut Vec<u8>, bindings: &[(u32, Value)]) -> Result<(), AllocError>
    ensures { OnOk result (out.new.items
        ≡ out.old.items ++ flat_map (further_text binding_text) bindings.now) }
{
    for binding in bindings {
        out.extend_from_slice(b",")?;
        write_binding(out, binding)?;
    }
    Ok(())
}

/// Writes an environment.
fn write_environment(out: &mut Vec<u8>, bindings: &[(u32, Value)]) -> Result<(), AllocError>
    ensures { OnOk result (out.new.items
        ≡ out.old.items ++ list_text binding_text bindings.now) }
{
    match bindings {
        [] => out.extend_from_slice(b"-"),
        [first, further @ ..] => {
            write_binding(out, first)?;
            write_further_bindings(out, further)
        }
    }
}

/// Writes a statement.
fn write_statement(out: &mut Vec<u8>, statement: &Statement) -> Result<(), AllocError>
    ensures { OnOk result (out.new.items
        ≡ out.old.items ++ statement_text (statement_of statement.now)) }
{
    write_environment(out, &statement.env)?;
    out.extend_from_slice(b" : ")?;
    write_term(out, &statement.term)?;
    out.extend_from_slice(b" => ")?;
    write_value(out, &statement.value)
}

/// Writes the line of a step.
fn write_step(out: &mut Vec<u8>, step: &Step) -> Result<(), AllocError>
    ensures { OnOk result (out.new.items ≡ out.old.items ++ step_text (step_of step.now)) }
{
    write_cites(out, &step.cites)?;
    out.extend_from_slice(b" : ")?;
    write_statement(out, &step.statement)?;
    out.extend_from_slice(b"\n")
}

/// Writes the lines of steps.
fn write_steps(out: &mut Vec<u8>, steps: &[Step]) -> Result<(), AllocError>
    ensures { OnOk result (out.new.items
        ≡ out.old.items ++ flat_map step_text (map step_of steps.now)) }
{
    for step in steps {
        write_step(out, step)?;
    }
    Ok(())
}

/// Writes the function and the arguments of a claim.
fn write_claimed(out: &mut Vec<u8>, claim: &Claim) -> Result<(), AllocError>
    ensures { OnOk result (out.new.items
        ≡ out.old.items ++ claimed_text (claim_of claim.now)) }
{
    out.extend_from_slice(b"f")?;
    write_number(out, claim.function.0)?;
    out.extend_from_slice(b" : ")?;
    write_arguments(out, &claim.arguments)
}

/// Writes the line of a claim.
fn write_claim(out: &mut Vec<u8>, claim: &Claim) -> Result<(), AllocError>
    ensures { OnOk result (out.new.items ≡ out.old.items ++ claim_text (claim_of claim.now)) }
{
    write_claimed(out, claim)?;
    out.extend_from_slice(b" : ")?;
    write_values(out, &claim.values)?;
    out.extend_from_slice(b"\n")
}

/// Writes the lines of claims.
fn write_claims(out: &mut Vec<u8>, claims: &[Claim]) -> Result<(), AllocError>
    ensures { OnOk result (out.new.items
        ≡ out.old.items ++ flat_map claim_text (map claim_of claims.now)) }
{
    for claim in claims {
        write_claim(out, claim)?;
    }
    Ok(())
}

/// Writes a line that says how many lines of a kind follow.
fn write_heading(out: &mut Vec<u8>, title: &[u8], count: usize) -> Result<(), AllocError>
    ensures { OnOk result (out.new.items ≡ out.old.items ++ heading_text title.now count) }
{
    out.extend_from_slice(title)?;
    out.extend_from_slice(b" ")?;
    write_number(out, count)?;
    out.extend_from_slice(b"\n")
}

/// Writes a proof and its claims.
fn write_all(proof: &Proof, claims: &Claims, out: &mut Vec<u8>) -> Result<(), AllocError>
    ensures { OnOk result (out.new.items ≡ out.old.items
        ++ proof_text (map claim_of claims.now.rows.items) proof.now) }
{
    let rows = claims.rows.as_slice();
    let steps = proof.steps();
    write_heading(out, b"claims", rows.len())?;
    write_claims(out, rows)?;
    write_heading(out, b"steps", steps.len())?;
    write_steps(out, steps)
}

/// Appends the text of a proof and of the claims that it may use: a line that
/// says how many claims there are, a line for each, a line that says how many
/// steps there are, and a line for each.
///
/// # Errors
///
/// An allocation failure, after which the text is as it was.
pub fn write_proof(proof: &Proof, claims: &Claims, out: &mut Vec<u8>) -> Result<(), AllocError>
    ensures ok { OnOk result (out.new.items ≡ out.old.items
        ++ proof_text (map claim_of claims.now.rows.items) proof.now) }
    ensures err { OnErr result (out.new.items ≡ out.old.items) }
{
    let mut text = Vec::new(*out.allocator());
    write_all(proof, claims, &mut text)?;
    out.extend_from_slice(&text)
}
