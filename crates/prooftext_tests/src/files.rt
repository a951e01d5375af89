//! Files that are read, and the offsets of the faults of others, worked out by
//! hand.
use cu_prooftext::{ProofFault, read_file, write_proof};
use std::alloc::Global;
use std::process::Abort;

const BODY: &[u8] = b"claims 0\nsteps 1\n- : - : i0 => i1\n";

/// What comes of a file: its goal is this one, and its proof is written again
/// as it is; or its fault.
fn outcome(rt: &impl Abort, alloc: Global, bytes: &[u8], goal: &[u8]) -> Result<(), ProofFault> {
    let file = read_file(alloc, bytes)?;
    assert!(rt; file.goal == goal);
    let mut out = Vec::new(alloc);
    let written = write_proof(&file.proof, &file.claims, &mut out).is_ok();
    assert!(rt; written);
    assert!(rt; out.as_slice() == BODY);
    Ok(())
}

/// Files with their goals.
const GOOD: [(&[u8], &[u8]); 4] = [
    (
        b"goal 4 True\nclaims 0\nsteps 1\n- : - : i0 => i1\n",
        b"True",
    ),
    (b"goal 0 \nclaims 0\nsteps 1\n- : - : i0 => i1\n", b""),
    (
        b"goal 3 a\nb\nclaims 0\nsteps 1\n- : - : i0 => i1\n",
        b"a\nb",
    ),
    (
        b"goal 1 \xff\nclaims 0\nsteps 1\n- : - : i0 => i1\n",
        b"\xff",
    ),
];

#[test]
fn files_are_read(rt: HostRuntime) {
    let alloc = rt.alloc();
    for (bytes, goal) in &GOOD {
        assert!(rt; outcome(&rt, alloc, bytes, goal) == Ok(()));
    }
}

/// Bytes that are no file, and the offset of their fault.
const BAD: [(&[u8], usize); 15] = [
    (b"", 0),
    (b"goa", 3),
    (b"goals", 4),
    (b"goal 4", 6),
    (b"goal 04 True", 6),
    (b"goal 4x", 6),
    (b"goal 4 Tru", 10),
    (b"goal 4 True ", 11),
    (b"goal 4 Trues\n", 11),
    (b"goal 18446744073709551615 ", 26),
    (b"goal 18446744073709551616 ", 24),
    (b"goal 4 True\nclaims 0\nsteps 0\n", 27),
    (b"goal 1 \xff\nclaims 0\nsteps 0", 24),
    (b"goal 4 True\nclaims 0\nsteps 1\n- : - : i0 => i1", 45),
    (b"goal 4 True\nclaims 0\nsteps 1\n- : - : i0 => i1\n-", 46),
];

#[test]
fn faults_of_files_are_located(rt: HostRuntime) {
    let alloc = rt.alloc();
    for (bytes, offset) in &BAD {
        assert!(rt; outcome(&rt, alloc, bytes, b"") == Err(ProofFault::BadProof(*offset)));
    }
}
