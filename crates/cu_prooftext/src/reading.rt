//! Whole proofs in a text.
ghost use Rattle.std.specs.Prelude.{IfErr, IfOk, map};
ghost use Rattle.cu_crwl.specs.Meaning.{claim_of, step_of};
ghost use Rattle.cu_prooftext.specs.Faults.{IsTextOf};
ghost use Rattle.cu_prooftext.specs.Reads.{IsFirstFault};
ghost use Rattle.cu_prooftext.specs.Inside.Gives.{Fails, Gives};
ghost use Rattle.cu_prooftext.specs.Inside.Lines.{lines_at, read_alone};

use crate::fault::{Fault, ProofFault};
use crate::lines::{all_steps_at, claims_at};
use crate::numbers::Read;
use cu_crwl::{Claim, Claims, Proof, Step};
use std::alloc::Global;

/// Claims and steps.
pub(crate) fn lines_at(alloc: Global, bytes: &[u8]) -> Read<'_, (Vec<Claim>, Vec<Step>)>
    ensures { Gives (λ x. ((map claim_of x.0.0.items, map step_of x.0.1.items), x.1.now)) result
        (lines_at bytes.now) }
{
    let (claims, rest) = claims_at(alloc, bytes)?;
    let (steps, rest) = all_steps_at(alloc, rest)?;
    Ok(((claims.1, steps.1), rest))
}

/// Claims and steps, and nothing after them.
fn whole_at(alloc: Global, bytes: &[u8]) -> Result<(Vec<Claim>, Vec<Step>), Fault>
    ensures { Gives (λ x. (map claim_of x.0.items, map step_of x.1.items)) result
        (read_alone lines_at bytes.now) }
{
    let (lines, rest) = lines_at(alloc, bytes)?;
    let left = rest.len();
    if left > 0 {
        return Err(Fault::Left(left));
    }
    Ok(lines)
}

/// Why the bytes aren't read, by their offset.
fn located(bytes: &[u8], fault: Fault) -> ProofFault
    requires { Fails fault (read_alone lines_at bytes.now) }
    ensures { IsFirstFault bytes.now result }
{
    match fault {
        Fault::Left(left) => ProofFault::BadProof(bytes.len() - left),
        Fault::NoMemory => ProofFault::NoMemory,
    }
}

/// The proof of which the bytes are the text, and the claims that it may use.
///
/// # Errors
///
/// The offset of the first fault, where the bytes are no such text, and an
/// allocation failure.
pub fn read_proof(alloc: Global, bytes: &[u8]) -> Result<(Proof, Claims), ProofFault>
    ensures text { IfOk result (λ r. IsTextOf (map claim_of r.1.rows.items) r.0 bytes.now) }
    ensures fault { IfErr result (λ e. IsFirstFault bytes.now e) }
{
    match whole_at(alloc, bytes) {
        Ok(read) => {
            let (rows, steps) = read;
            Ok((Proof::new(steps), Claims { rows }))
        }
        Err(fault) => Err(located(bytes, fault)),
    }
}
