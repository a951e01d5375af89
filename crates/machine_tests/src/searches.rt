//! Searches for all values of functions.
use crate::programs::{self, CONS, FALSE, TRUE, VALUES};
use crate::runs::{expect, expect_run};
use cu_flat::{ExprId, FlatProgram, FunId, Head, Mode, Prim};
use std::alloc::Global;
use std::process::Abort;

/// `coin = 0 ? 1`, `f x = x ? x + 10`, `sorted (Values xs) = xs`, and
/// `goal = sorted (set1 f coin)`; `g = f coin` and `all = sorted (set0 g)`.
fn coins<R: Abort>(rt: &R, alloc: Global) -> FlatProgram {
    let mut parts = programs::both(rt, alloc);
    parts.integer(rt, 0);
    parts.integer(rt, 1);
    parts.choice(rt, ExprId(4), ExprId(5));
    parts.integer(rt, 10);
    parts.call(rt, FunId(2), &[ExprId(0), ExprId(7)]);
    parts.choice(rt, ExprId(0), ExprId(8));
    let branches = vec![in alloc; programs::branch(rt, alloc, VALUES, &[1], ExprId(1))].expect(
        rt, "memory",
    );
    parts.case(rt, Mode::Flex, &[], ExprId(0), branches);
    parts.call(rt, FunId(1), &[]);
    parts.whole(rt, Head::Set(FunId(3)), &[ExprId(11)]);
    parts.call(rt, FunId(4), &[ExprId(12)]);
    parts.call(rt, FunId(3), &[ExprId(11)]);
    parts.whole(rt, Head::Set(FunId(6)), &[]);
    parts.call(rt, FunId(4), &[ExprId(15)]);
    parts.function(rt, 0, &[], ExprId(6));
    parts.external(rt, 2, Prim::Add);
    parts.function(rt, 1, &[0], ExprId(9));
    parts.function(rt, 1, &[0], ExprId(10));
    parts.function(rt, 0, &[], ExprId(13));
    parts.function(rt, 0, &[], ExprId(14));
    parts.function(rt, 0, &[], ExprId(16));
    parts.program_with_sets(rt)
}

/// A set function leaves the choices of its argument outside, and takes those of
/// its body; its values are in order. A level of a search may be too wide.
fn expect_coins<R: Abort>(rt: &R, alloc: Global) {
    let program = coins(rt, alloc);
    expect_run(rt, alloc, &program, 5, "0", 2, "answer : 0 : 10 []");
    expect_run(rt, alloc, &program, 5, "1", 2, "answer : 1 : 11 []");
    expect_run(rt, alloc, &program, 7, "", 4, "answer : 0 : 1 : 10 : 11 []");
    expect_run(rt, alloc, &program, 7, "", 1, "too wide: 2");
}

/// `p = y + 1 where y free`, `goal = set0 p`, `none = failed`, and
/// `nothing = set0 none`.
fn ends<R: Abort>(rt: &R, alloc: Global) -> FlatProgram {
    let mut parts = programs::both(rt, alloc);
    parts.integer(rt, 1);
    parts.variable(rt, 2);
    parts.call(rt, FunId(1), &[ExprId(5), ExprId(4)]);
    parts.free(rt, 2, ExprId(6));
    parts.whole(rt, Head::Set(FunId(2)), &[]);
    parts.whole(rt, Head::Set(FunId(4)), &[]);
    parts.external(rt, 2, Prim::Add);
    parts.function(rt, 0, &[], ExprId(7));
    parts.function(rt, 0, &[], ExprId(8));
    parts.external(rt, 0, Prim::Failed);
    parts.function(rt, 0, &[], ExprId(9));
    parts.program_with_sets(rt)
}

/// A wait inside leaves the call stuck. Where nothing is found, the search ends
/// at its empty level in one step.
fn expect_ends<R: Abort>(rt: &R, alloc: Global) {
    let program = ends(rt, alloc);
    expect(rt, alloc, &program, 3, "00", "set2");
    expect(rt, alloc, &program, 3, "000", "stuck");
    expect_run(rt, alloc, &program, 3, "", 1, "waits");
    expect(rt, alloc, &program, 5, "00", "set4");
    expect(rt, alloc, &program, 5, "000", "con4 1 | []");
    expect_run(rt, alloc, &program, 5, "", 1, "answer con4 []");
}

/// `first (Values (x : xs)) = x`, and
/// `nest n = if n == 0 then 7 else first (set1 nest (n - 1))`; `few = nest 129`
/// and `many = nest 300`.
fn nests<R: Abort>(rt: &R, alloc: Global) -> FlatProgram {
    let mut parts = programs::both(rt, alloc);
    parts.variable(rt, 2);
    let branches = vec![in alloc; programs::branch(rt, alloc, CONS, &[2, 3], ExprId(4))].expect(
        rt, "memory",
    );
    parts.case(rt, Mode::Flex, &[], ExprId(1), branches);
    let branches = vec![in alloc; programs::branch(rt, alloc, VALUES, &[1], ExprId(5))].expect(
        rt, "memory",
    );
    parts.case(rt, Mode::Flex, &[], ExprId(0), branches);
    parts.integer(rt, 0);
    parts.call(rt, FunId(1), &[ExprId(0), ExprId(7)]);
    parts.integer(rt, 7);
    parts.integer(rt, -1);
    parts.call(rt, FunId(2), &[ExprId(0), ExprId(10)]);
    parts.whole(rt, Head::Set(FunId(4)), &[ExprId(11)]);
    parts.call(rt, FunId(3), &[ExprId(12)]);
    let branches = vec![in alloc;
        programs::branch(rt, alloc, FALSE, &[], ExprId(13)),
        programs::branch(rt, alloc, TRUE, &[], ExprId(9)),
    ]
    .expect(rt, "memory");
    parts.case(rt, Mode::Rigid, &[0], ExprId(8), branches);
    parts.integer(rt, 129);
    parts.call(rt, FunId(4), &[ExprId(15)]);
    parts.integer(rt, 300);
    parts.call(rt, FunId(4), &[ExprId(17)]);
    parts.external(rt, 2, Prim::Equal);
    parts.external(rt, 2, Prim::Add);
    parts.function(rt, 1, &[0], ExprId(6));
    parts.function(rt, 1, &[0], ExprId(14));
    parts.function(rt, 0, &[], ExprId(16));
    parts.function(rt, 0, &[], ExprId(18));
    parts.program_with_sets(rt)
}

#[test]
fn searches_run_within_each_other(rt: HostRuntime) {
    let alloc = rt.alloc();
    let program = nests(&rt, alloc);
    expect_run(&rt, alloc, &program, 5, "0", 1, "answer 7");
    expect_run(&rt, alloc, &program, 6, "000", 1, "answer 7");
}

#[test]
fn searches_find_all_values(rt: HostRuntime) {
    let alloc = rt.alloc();
    expect_coins(&rt, alloc);
    expect_ends(&rt, alloc);
}
