//! Answers, waiting branches and limits.

use crate::programs::{self, CONS, NIL, TRUE};
use crate::runs::{expect, expect_within};
use cu_flat::{ExprId, FlatProgram, FunId, Mode, Prim};
use std::alloc::Global;
use std::process::Abort;

/// `goal = let x = [] in let y = [x, x] in [y, y]`, whose value has thirteen
/// cells in seven nodes.
fn shared<R: Abort>(rt: &R, alloc: Global) -> FlatProgram {
    let mut parts = programs::both(rt, alloc);
    parts.constructed(rt, NIL, &[]);
    parts.constructed(rt, CONS, &[ExprId(0), ExprId(4)]);
    parts.constructed(rt, CONS, &[ExprId(0), ExprId(5)]);
    parts.constructed(rt, CONS, &[ExprId(1), ExprId(4)]);
    parts.constructed(rt, CONS, &[ExprId(1), ExprId(7)]);
    parts.bind(rt, 1, ExprId(6), ExprId(8));
    parts.bind(rt, 0, ExprId(4), ExprId(9));
    parts.function(rt, 0, &[], ExprId(10));
    parts.program(rt)
}

/// An answer may have more cells than nodes.
fn expect_shared<R: Abort>(rt: &R, alloc: Global) {
    let program = shared(rt, alloc);
    expect_within(rt, alloc, &program, 1, "0", 12, "too large: 13");
    expect_within(
        rt,
        alloc,
        &program,
        1,
        "0",
        13,
        "answer : : [] : [] [] : : [] : [] [] []",
    );
}

/// `goal x = case x of True -> False`, `hidden = let x free in goal x` and
/// `more x = x + x`, where the case distinction is rigid.
fn rigid<R: Abort>(rt: &R, alloc: Global) -> FlatProgram {
    let mut parts = programs::both(rt, alloc);
    let branches = vec![in alloc; programs::branch(rt, alloc, TRUE, &[], ExprId(2))].expect(
        rt, "memory",
    );
    parts.case(rt, Mode::Rigid, &[], ExprId(0), branches);
    parts.call(rt, FunId(1), &[ExprId(0)]);
    parts.free(rt, 0, ExprId(5));
    parts.call(rt, FunId(3), &[ExprId(0), ExprId(0)]);
    parts.function(rt, 1, &[0], ExprId(4));
    parts.function(rt, 0, &[], ExprId(6));
    parts.external(rt, 2, Prim::Add);
    parts.function(rt, 1, &[0], ExprId(7));
    parts.program(rt)
}

/// A rigid case distinction or a sum waits for a variable, which is named once.
fn expect_rigid<R: Abort>(rt: &R, alloc: Global) {
    let program = rigid(rt, alloc);
    expect(rt, alloc, &program, 1, "0", "waits goal0");
    expect(rt, alloc, &program, 4, "0", "waits goal0");
    expect(rt, alloc, &program, 2, "00", "waits _1");
}

/// `once x = x : x`, functions that do it 2, 4, 8, 16 and 32 times, each by the
/// one before it, and `goal = thirty_two_times []`.
fn doubling<R: Abort>(rt: &R, alloc: Global) -> FlatProgram {
    let mut parts = programs::both(rt, alloc);
    parts.constructed(rt, CONS, &[ExprId(0), ExprId(0)]);
    parts.function(rt, 1, &[0], ExprId(4));
    parts.twice(rt, FunId(1), 5);
    parts.twice(rt, FunId(2), 7);
    parts.twice(rt, FunId(3), 9);
    parts.twice(rt, FunId(4), 11);
    parts.twice(rt, FunId(5), 13);
    parts.constructed(rt, NIL, &[]);
    parts.call(rt, FunId(6), &[ExprId(15)]);
    parts.function(rt, 0, &[], ExprId(16));
    parts.program(rt)
}

/// Thirty-two pairs of which each has the one before it twice are there after 64
/// calls. They have 2^32 ways through them, of which few are walked.
fn expect_doubling<R: Abort>(rt: &R, alloc: Global) {
    let program = doubling(rt, alloc);
    expect_within(
        rt,
        alloc,
        &program,
        7,
        "0000000000000000000000000000000000000000000000000000000000000000",
        100,
        "too large: 101",
    );
}

/// What stands at the end of a branch.
#[test]
fn branches_end(rt: HostRuntime) {
    let alloc = rt.alloc();
    expect_shared(&rt, alloc);
    expect_rigid(&rt, alloc);
    expect_doubling(&rt, alloc);
}
