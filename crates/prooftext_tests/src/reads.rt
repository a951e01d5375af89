//! Texts that are read, and the offsets of the faults of others, worked out by
//! hand.
use cu_prooftext::{ProofFault, read_proof, write_proof};
use std::alloc::Global;
use std::process::Abort;

/// What comes of a text: it is read and written again as it is, or its fault.
fn outcome(rt: &impl Abort, alloc: Global, bytes: &[u8]) -> Result<(), ProofFault> {
    let (proof, claims) = read_proof(alloc, bytes)?;
    let mut out = Vec::new(alloc);
    let written = write_proof(&proof, &claims, &mut out).is_ok();
    assert!(rt; written);
    assert!(rt; out.as_slice() == bytes);
    Ok(())
}

const GOOD: [&[u8]; 3] = [
    b"claims 0\nsteps 1\n- : - : i0 => i1\n",
    b"claims 0\nsteps 3\n- : - : i1 => i1\n0 : - : wf79/0 => i1\n1 : - : wf80/0 => i1\n",
    b"claims 2\nf3 : - : -\nf4 : i1,k2/2 h97 _ : pf1/1 v3,ps3/0\nsteps 2\n\
    - : 0=_,4294967295=k1/0 : @ l0 x1 n2 o i-1 h55295 qc1/2 x1 x2 => _\n\
    0,0 : - : r/2 i0 x1 i1 k2/2 a3 x4 i-170141183460469231731687303715884105728 f/0 x1 \
    => i170141183460469231731687303715884105727\n",
];

#[test]
fn texts_are_read(rt: HostRuntime) {
    let alloc = rt.alloc();
    for text in &GOOD {
        assert!(rt; outcome(&rt, alloc, text) == Ok(()));
    }
}

/// Bytes that are no text, and the offset of their fault.
const BAD: [(&[u8], usize); 24] = [
    (b"", 0),
    (b"claims", 6),
    (b"claims 00\n", 8),
    (b"claims 18446744073709551615\n", 28),
    (b"claims 18446744073709551616\n", 26),
    (b"claims 184467440737095516150\n", 27),
    (b"claims 0\nsteps 0\n", 15),
    (b"claims 0\nsteps 1\n0 : - : i0 => i1\n", 17),
    (b"claims 0\nsteps 1\n- : - : i0 => i1", 33),
    (b"claims 0\nsteps 1\n- : - : i0 => i1\n-", 34),
    (
        b"claims 0\nsteps 2\n- : - : i0 => i1\n1 : - : i0 => i1\n",
        34,
    ),
    (b"claims 0\nsteps 1\n- : 5=_,1=_ : i0 => i1\n", 26),
    (b"claims 0\nsteps 1\n- : 4294967290=_,1=_ : i0 => i1\n", 34),
    (
        b"claims 0\nsteps 1\n- : 4294967290=_,429496728=_ : i0 => i1\n",
        42,
    ),
    (b"claims 0\nsteps 1\n- : 4294967295=_,1=_ : i0 => i1\n", 33),
    (b"claims 0\nsteps 1\n- : - : i-0 => i1\n", 27),
    (b"claims 0\nsteps 1\n- : - : i00 => i1\n", 27),
    (b"claims 0\nsteps 1\n- : - : h55296 => i1\n", 31),
    (b"claims 0\nsteps 1\n- : - : h1114112 => i1\n", 32),
    (b"claims 0\nsteps 1\n- : - : x4294967296 => i1\n", 35),
    (
        b"claims 0\nsteps 1\n- : - : i170141183460469231731687303715884105728 => i1\n",
        64,
    ),
    (b"claims 0\nsteps 1\n- : - : x0 => k0/4294967296\n", 43),
    (b"claims 0\nsteps 1\n- : - : wf0/2 x0 => i1\n", 34),
    (b"claims 1\nf0 : - : -\nsteps 1\n- : - : k => i1\n", 36),
];

#[test]
fn faults_are_located(rt: HostRuntime) {
    let alloc = rt.alloc();
    for (text, offset) in &BAD {
        assert!(rt; outcome(&rt, alloc, text) == Err(ProofFault::BadProof(*offset)));
    }
}

/// A step whose term stands so deep in others.
fn nested(alloc: Global, depth: usize, inner: &[u8]) -> Option<Vec<u8>> {
    let mut text = Vec::from_slice(alloc, b"claims 0\nsteps 1\n- : - : ").ok()?;
    for _ in 0..depth {
        text.extend_from_slice(b"n0 ").ok()?;
    }
    text.extend_from_slice(inner).ok()?;
    text.extend_from_slice(b" => _\n").ok()?;
    Some(text)
}

/// How far from the start of the innermost term the fault is, if there is one.
fn fault_inside(alloc: Global, depth: u16, inner: &[u8]) -> Option<usize> {
    let depth = depth as usize;
    let text = nested(alloc, depth, inner)?;
    match read_proof(alloc, &text) {
        Err(ProofFault::BadProof(offset)) => offset.checked_sub(25 + 3 * depth),
        _ => None,
    }
}

#[test]
fn terms_are_nested_so_deep(rt: HostRuntime) {
    let alloc = rt.alloc();
    assert!(rt; fault_inside(alloc, 1_000, b"x0").is_none());
    assert!(rt; fault_inside(alloc, 16_383, b"n0 x0") == Some(0));
    assert!(rt; fault_inside(alloc, 16_383, b"@ x0 x0") == Some(0));
    assert!(rt; fault_inside(alloc, 16_383, b"wf0/1 x0") == Some(4));
    assert!(rt; fault_inside(alloc, 16_382, b"r/1 x0 k0/1 x0 x0") == Some(10));
    assert!(rt; fault_inside(alloc, 16_382, b"r/1 x0 a0 x0 x0") == Some(7));
}
