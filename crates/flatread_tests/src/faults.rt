//! Texts that are read, and the offsets of the faults of others.
use cu_flatread::{BadFlat, read};
use cu_names::Names;
use std::alloc::Global;
use std::process::Abort;

/// What comes of bytes: they are read, or their fault.
fn outcome(alloc: Global, bytes: &[u8]) -> Result<(), BadFlat> {
    let mut names = Names::new(alloc);
    read(alloc, &mut names, bytes)?;
    Ok(())
}

const GOOD: [&[u8]; 9] = [
    b"Prog \"M\" [\"Prelude\"] [] [\nFunc (\"M\",\"coin\") 0 Public (TCons (\"Prelude\",\"Int\") []) (Rule [] (Or (Lit (Intc 0)) (Lit (Intc 1))))] []\n",
    b"Prog \"M\" [] [] [\nFunc (\"M\",\"f\") 0 Public (TVar 0) (Rule [] (Var 18446744073709551615))] []\n",
    b"Prog \"M\" [] [] [\nFunc (\"M\",\"f\") 0 Public (TVar 0) (Rule [] (Lit (Intc (-170141183460469231731687303715884105728))))] []\n",
    b"Prog \"M\" [] [] [\nFunc (\"M\",\"f\") 0 Public (TVar 0) (Rule [] (Lit (Charc 552960)))] []\n",
    b"Prog \"M\" [] [] [\nFunc (\"M\",\"f\") 0 Public (TVar 0) (Rule [] (Case Flex (Var 1) []))] []\n",
    b"Prog \"M\" [] [] [\nFunc (\"M\",\"f\") 0 Public (TVar 0) (Rule [] (Case Rigid (Var 1) [Branch (Pattern (\"M\",\"C\") [1]) (Var 1)]))] []\n",
    b"Prog \"M\" [] [] [\nFunc (\"M\",\"f\") 0 Public (TVar 1) (Rule [] (Var 1))] []\n",
    b"Prog \"M\" [] [\nType (\"M\",\"T\") Public [] []] [] []\n",
    b"Prog \"M\" [] [\nTypeSyn (\"M\",\"T\") Private [0] (TVar 0)] [] []\n",
];

#[test]
fn texts_are_read(rt: HostRuntime) {
    let alloc = rt.alloc();
    for text in &GOOD {
        assert!(rt; outcome(alloc, text) == Ok(()));
    }
}

/// Each beginning of a text ends before the text does.
#[test]
fn beginnings_are_unfinished(rt: HostRuntime) {
    let alloc = rt.alloc();
    let text = GOOD[0];
    let mut begun: Vec<u8> = Vec::new(alloc);
    for byte in text {
        assert!(rt; outcome(alloc, begun.as_slice()) == Err(BadFlat::At(begun.len())));
        assert!(rt; begun.push(*byte).is_ok());
    }
    assert!(rt; outcome(alloc, begun.as_slice()) == Ok(()));
}

/// Bytes that are no text, and the offset of their fault.
const BAD: [(&[u8], usize); 37] = [
    (b"", 0),
    (b"prog", 0),
    (b"Prog \"M\"", 8),
    (b"Prog  \"M\"", 5),
    (b"Prog \"M\" []", 11),
    (b"Prog \"M\" [] [] [] []", 20),
    (b"Prog \"M\" [] [] [] []\n\n", 21),
    (b"Prog \"M\" [\"\"] [] [] []\x0d\n", 22),
    (b"Prog \"\\M\" [] [] [] []\n", 7),
    (b"Prog \"\xed\xa0\x80\" [] [] [] []\n", 7),
    (b"Prog \"\xf4\x90\x80\x80\" [] [] [] []\n", 7),
    (b"Prog \"\xc1\x80\" [] [] [] []\n", 6),
    (b"Prog \"\xe2\x82", 8),
    (
        b"Prog \"M\" [] [] [\nFunc (\"M\",\"f\") 0 Public (TVar 0) (Rule [] (Var 00))] []\n",
        65,
    ),
    (
        b"Prog \"M\" [] [] [\nFunc (\"M\",\"f\") 0 Public (TVar 0) (Rule [] (Var 18446744073709551616))] []\n",
        83,
    ),
    (
        b"Prog \"M\" [] [] [\nFunc (\"M\",\"f\") 0 Public (TVar 0) (Rule [] (Var 184467440737095516150))] []\n",
        84,
    ),
    (
        b"Prog \"M\" [] [] [\nFunc (\"M\",\"f\") 0 Public (TVar 0) (Rule [] (Lit (Intc -1)))] []\n",
        70,
    ),
    (
        b"Prog \"M\" [] [] [\nFunc (\"M\",\"f\") 0 Public (TVar 0) (Rule [] (Lit (Intc (-0))))] []\n",
        72,
    ),
    (
        b"Prog \"M\" [] [] [\nFunc (\"M\",\"f\") 0 Public (TVar 0) (Rule [] (Lit (Intc (5))))] []\n",
        71,
    ),
    (
        b"Prog \"M\" [] [] [\nFunc (\"M\",\"f\") 0 Public (TVar 0) (Rule [] (Lit (Intc 170141183460469231731687303715884105728)))] []\n",
        108,
    ),
    (
        b"Prog \"M\" [] [] [\nFunc (\"M\",\"f\") 0 Public (TVar 0) (Rule [] (Lit (Charc 55296)))] []\n",
        76,
    ),
    (
        b"Prog \"M\" [] [] [\nFunc (\"M\",\"f\") 0 Public (TVar 0) (Rule [] (Lit (Charc 1114112)))] []\n",
        77,
    ),
    (
        b"Prog \"M\" [] [] [\nFunc (\"M\",\"f\") 0 Public (TVar 0) (Rule [] (Free [1,2] (Var 1)))] []\n",
        67,
    ),
    (
        b"Prog \"M\" [] [] [\nFunc (\"M\",\"f\") 0 Public (TVar 0) (Rule [] (Free [] (Var 1)))] []\n",
        66,
    ),
    (
        b"Prog \"M\" [] [] [\nFunc (\"M\",\"f\") 0 Public (TVar 0) (Rule [] (Let [(1,(Var 2))] (Var 1)))] []\n",
        68,
    ),
    (
        b"Prog \"M\" [] [] [\nFunc (\"M\",\"f\") 0 Public (TVar 0) (Rule [] (Comb FuncCall (\"M\",\"f\") [(Var 1)]))] []\n",
        85,
    ),
    (
        b"Prog \"M\" [] [] [\nFunc (\"M\",\"f\") 0 Public (TVar 0) (Rule [] (Comb (FuncCall) (\"M\",\"f\") []))] []\n",
        70,
    ),
    (
        b"Prog \"M\" [] [] [\nFunc (\"M\",\"f\") 0 Public (TVar 0) (Rule [] (Case Rigid Var 1 []))] []\n",
        71,
    ),
    (
        b"Prog \"M\" [] [] [\nFunc (\"M\",\"f\") 0 Public (TVar 0) (Rule [] (Case flex (Var 1) []))] []\n",
        65,
    ),
    (
        b"Prog \"M\" [] [] [\nFunc (\"M\",\"f\") 0 Public (FuncType (TVar 1)) (Rule [] (Var 1))] []\n",
        59,
    ),
    (
        b"Prog \"M\" [] [] [\nFunc (\"M\",\"f\") 0 Public (TCons (\"M\",\"T\") [TVar 1, TVar 2]) (Rule [] (Var 1))] []\n",
        66,
    ),
    (
        b"Prog \"M\" [] [] [\nFunc (\"M\",\"f\") 0 Public (TCon) (Rule [] (Var 1))] []\n",
        46,
    ),
    (b"Prog \"M\" [] [] [] [Op (\"M\",\"+\") InfixOp 4]\n", 19),
    (
        b"Prog \"M\" [] [] [] [\nOp (\"M\",\"+\") InfixOp 4294967296]\n",
        50,
    ),
    (b"Prog \"M\" [] [] [] [\nOp (\"M\",\"+\") InfixxOp 4]\n", 38),
    (
        b"Prog \"M\" [] [\nType (\"M\",\"T\") Public [] (TVar 0)] [] []\n",
        39,
    ),
    (
        b"Prog \"M\" [] [\nTypeSyn (\"M\",\"T\") Private [0] []] [] []\n",
        44,
    ),
];

#[test]
fn faults_are_located(rt: HostRuntime) {
    let alloc = rt.alloc();
    for (text, offset) in &BAD {
        assert!(rt; outcome(alloc, text) == Err(BadFlat::At(*offset)));
    }
}

/// A module with an expression in so many others, and where the innermost one
/// but one stands.
fn nested(alloc: Global, depth: usize) -> Option<Vec<u8>> {
    let mut text: Vec<u8> = Vec::new(alloc);
    text.extend_from_slice(b"Prog \"M\" [] [] [\nFunc (\"M\",\"f\") 0 Public (TVar 0) (Rule [] (")
        .ok()?;
    for _ in 1..depth {
        text.extend_from_slice(b"Free [1] (").ok()?;
    }
    text.extend_from_slice(b"Var 1").ok()?;
    for _ in 1..depth {
        text.push(b')').ok()?;
    }
    text.extend_from_slice(b"))] []\n").ok()?;
    Some(text)
}

#[test]
fn nesting_is_limited(rt: HostRuntime) {
    let alloc = rt.alloc();
    let Some(text) = nested(alloc, 16_384) else {
        return;
    };
    assert!(rt; outcome(alloc, text.as_slice()) == Ok(()));
    let Some(text) = nested(alloc, 16_385) else {
        return;
    };
    assert!(rt; outcome(alloc, text.as_slice()) == Err(BadFlat::At(60 + 16_383 * 10)));
}
