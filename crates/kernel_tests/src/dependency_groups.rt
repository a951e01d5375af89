//! Dependency groups, and the order in which they come, worked by hand.

use crate::chooser_programs::{plain, program, set};
use cu_kernel::{FunId, Head};
use cu_lift::groups;
use std::alloc::Global;
use std::process::Abort;

/// The groups of the functions from the second on. The first is a group by
/// itself, which comes first.
fn expect<R: Abort>(rt: &R, alloc: Global, rows: &[&[Head]], expected: &[&[FunId]]) {
    let Ok(Some(program)) = program(alloc, rows) else {
        panic!(rt; "no program");
    };
    let Ok(found) = groups(alloc, &program) else {
        panic!(rt; "out of memory");
    };
    assert_eq!(rt; found.len(), expected.len().saturating_add(1));
    for (group, functions) in found.iter().skip(1).zip(expected) {
        assert!(rt; group.as_slice() == *functions);
    }
}

#[test]
fn groups_come_after_those_that_they_mention(rt: HostRuntime) {
    let alloc = rt.alloc();
    let chain: &[&[Head]] = &[&[plain(2)], &[]];
    expect(&rt, alloc, chain, &[&[FunId(2)], &[FunId(1)]]);
    let by_set: &[&[Head]] = &[&[set(2)], &[]];
    expect(&rt, alloc, by_set, &[&[FunId(2)], &[FunId(1)]]);
    let waiting: &[&[Head]] = &[&[plain(3)], &[], &[]];
    expect(
        &rt,
        alloc,
        waiting,
        &[&[FunId(2)], &[FunId(3)], &[FunId(1)]],
    );
    let diamond: &[&[Head]] = &[&[plain(2), plain(3)], &[plain(4)], &[plain(4)], &[]];
    let expected: &[&[FunId]] = &[&[FunId(4)], &[FunId(2)], &[FunId(3)], &[FunId(1)]];
    expect(&rt, alloc, diamond, expected);
}

#[test]
fn functions_that_mention_each_other_are_one_group(rt: HostRuntime) {
    let alloc = rt.alloc();
    let mutual: &[&[Head]] = &[&[plain(2)], &[plain(1)], &[plain(1)]];
    expect(&rt, alloc, mutual, &[&[FunId(1), FunId(2)], &[FunId(3)]]);
    let apart: &[&[Head]] = &[&[plain(4)], &[plain(1)], &[plain(3)], &[plain(1)]];
    let expected: &[&[FunId]] = &[&[FunId(1), FunId(4)], &[FunId(2)], &[FunId(3)]];
    expect(&rt, alloc, apart, expected);
    let late: &[&[Head]] = &[&[plain(4)], &[plain(3)], &[plain(2)], &[plain(5)], &[]];
    let expected: &[&[FunId]] = &[&[FunId(2), FunId(3)], &[FunId(5)], &[FunId(4)], &[FunId(1)]];
    expect(&rt, alloc, late, expected);
}
