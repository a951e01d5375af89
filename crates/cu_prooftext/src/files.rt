//! Files: a goal, and the proof of an answer to it.
ghost use Rattle.std.specs.Prelude.{◌≤◌, IfErr, IfOk, length, map};
ghost use Rattle.cu_crwl.specs.Meaning.{claim_of, step_of};
ghost use Rattle.cu_prooftext.specs.Files.{IsFileOf, max_file_bytes};
ghost use Rattle.cu_prooftext.specs.Reads.{IsFirstFileFault};
ghost use Rattle.cu_prooftext.specs.Inside.Gives.{Fails, Gives};
ghost use Rattle.cu_prooftext.specs.Inside.Lines.{file_at, goal_at, read_alone, taken_at};

use crate::fault::{Fault, ProofFault};
use crate::numbers::{Read, after_word, index_at};
use crate::reading::lines_at;
use cu_crwl::{Claim, Claims, Proof, Step};
use std::alloc::Global;

/// The most bytes of a file.
const MAX_FILE_BYTES: usize = 16_777_216;

/// What a file says.
#[derive(Drop)]
pub struct File<'a> {
    /// The goal's text, which may be any bytes.
    pub goal: &'a [u8],
    /// The proof of an answer to the goal.
    pub proof: Proof,
    /// The claims that the proof may use.
    pub claims: Claims,
}

/// Claims and steps.
type Lines = (Vec<Claim>, Vec<Step>);

/// So many bytes.
fn taken_at(bytes: &[u8], count: usize) -> Read<'_, &[u8]>
    ensures { Gives (λ x. (x.0.now, x.1.now)) result (taken_at count bytes.now) }
{
    if count > bytes.len() {
        return Err(Fault::Left(0));
    }
    Ok(bytes.split_at(count))
}

/// The first line of a file: how many bytes the goal has, and these.
fn goal_at(bytes: &[u8]) -> Read<'_, &[u8]>
    ensures { Gives (λ x. (x.0.now, x.1.now)) result (goal_at bytes.now) }
{
    let rest = after_word(bytes, b"goal ")?;
    let (count, rest) = index_at(rest)?;
    let rest = after_word(rest, b" ")?;
    let (goal, rest) = taken_at(rest, count)?;
    let rest = after_word(rest, b"\n")?;
    Ok((goal, rest))
}

/// A goal, and claims and steps.
fn parts_at(alloc: Global, bytes: &[u8]) -> Read<'_, (&[u8], Lines)>
    ensures { Gives (λ x. (
      (x.0.0.now, (map claim_of x.0.1.0.items, map step_of x.0.1.1.items)),
      x.1.now,
    )) result (file_at bytes.now) }
{
    let (goal, rest) = goal_at(bytes)?;
    let (lines, rest) = lines_at(alloc, rest)?;
    Ok(((goal, lines), rest))
}

/// A goal, and claims and steps, and nothing after them.
fn whole_at(alloc: Global, bytes: &[u8]) -> Result<(&[u8], Lines), Fault>
    ensures { Gives (λ x. (x.0.now, (map claim_of x.1.0.items, map step_of x.1.1.items))) result
        (read_alone file_at bytes.now) }
{
    let (parts, rest) = parts_at(alloc, bytes)?;
    let left = rest.len();
    if left > 0 {
        return Err(Fault::Left(left));
    }
    Ok(parts)
}

/// Why a file that isn't too long isn't read, by the offset.
fn located(bytes: &[u8], fault: Fault) -> ProofFault
    requires short { length bytes.now ≤ max_file_bytes }
    requires fails { Fails fault (read_alone file_at bytes.now) }
    ensures { IsFirstFileFault bytes.now result }
{
    match fault {
        Fault::Left(left) => ProofFault::BadProof(bytes.len() - left),
        Fault::NoMemory => ProofFault::NoMemory,
    }
}

/// What a file says: its goal, the proof of an answer to it, and the claims
/// that the proof may use. A file has at most 16,777,216 bytes.
///
/// # Errors
///
/// The offset of the first fault, counted from the file's first byte, where the
/// bytes are no file; 16,777,216 where there are more than so many bytes,
/// whatever they are; and an allocation failure.
pub fn read_file(alloc: Global, bytes: &[u8]) -> Result<File<'_>, ProofFault>
    ensures file { IfOk result (λ r.
        IsFileOf r.goal.now (map claim_of r.claims.rows.items) r.proof bytes.now) }
    ensures short { IfOk result (λ _. length bytes.now ≤ max_file_bytes) }
    ensures fault { IfErr result (λ e. IsFirstFileFault bytes.now e) }
{
    if bytes.len() > MAX_FILE_BYTES {
        return Err(ProofFault::BadProof(MAX_FILE_BYTES));
    }
    match whole_at(alloc, bytes) {
        Ok(read) => {
            let (goal, lines) = read;
            let (rows, steps) = lines;
            Ok(File {
                goal,
                proof: Proof::new(steps),
                claims: Claims { rows },
            })
        }
        Err(fault) => Err(located(bytes, fault)),
    }
}
