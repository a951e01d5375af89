//! Set levels, and cycles through set calls, worked by hand.

use crate::chooser_programs::{plain, program, set};
use cu_kernel::{FunId, Head};
use cu_lift::{LevelFault, levels};
use std::alloc::Global;
use std::process::Abort;

/// Expects the levels of the functions, of which the first is `&&`, or the cycle.
fn expect<R: Abort>(rt: &R, alloc: Global, rows: &[&[Head]], expected: Result<&[usize], &[FunId]>) {
    let Ok(Some(program)) = program(alloc, rows) else {
        panic!(rt; "no program");
    };
    match (levels(alloc, &program), expected) {
        (Ok(found), Ok(expected)) => assert!(rt; found.as_slice() == expected),
        (Err(LevelFault::SetRecursion(found)), Err(expected)) => {
            assert!(rt; found.as_slice() == expected)
        }
        _ => panic!(rt; "the other answer"),
    }
}

#[test]
fn set_levels_rise_along_set_calls(rt: HostRuntime) {
    let alloc = rt.alloc();
    expect(&rt, alloc, &[&[]], Ok(&[0, 0]));
    expect(&rt, alloc, &[&[], &[set(1)]], Ok(&[0, 0, 1]));
    let tower: &[&[Head]] = &[&[set(2), plain(3)], &[set(3)], &[]];
    expect(&rt, alloc, tower, Ok(&[0, 2, 1, 0]));
    let mutual: &[&[Head]] = &[&[plain(2)], &[plain(1), set(3)], &[]];
    expect(&rt, alloc, mutual, Ok(&[0, 1, 1, 0]));
}

#[test]
fn cycles_begin_with_their_first_function(rt: HostRuntime) {
    let alloc = rt.alloc();
    expect(&rt, alloc, &[&[set(1)]], Err(&[FunId(1)]));
    let three: &[&[Head]] = &[&[plain(2)], &[set(3)], &[plain(1)]];
    expect(&rt, alloc, three, Err(&[FunId(1), FunId(2), FunId(3)]));
    let after: &[&[Head]] = &[&[plain(3)], &[], &[set(4)], &[plain(3)]];
    expect(&rt, alloc, after, Err(&[FunId(3), FunId(4)]));
}
