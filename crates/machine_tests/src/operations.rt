//! Built-in operations on numbers and characters.

use crate::programs::{self, TRUE};
use crate::runs::expect;
use cu_flat::{ExprId, FlatProgram, FunId, Int, Prim};
use std::alloc::Global;
use std::process::Abort;

/// `7 + -2`, and `-`, `*`, `div` and `mod` on these numbers; the least integer
/// `div -1` and `mod -1`; and `7 div 0`.
fn sums<R: Abort>(rt: &R, alloc: Global) -> FlatProgram {
    let mut parts = programs::both(rt, alloc);
    parts.integer(rt, 7);
    parts.integer(rt, -2);
    parts.integer(rt, Int::MIN);
    parts.integer(rt, -1);
    parts.integer(rt, 0);
    parts.call(rt, FunId(1), &[ExprId(4), ExprId(5)]);
    parts.call(rt, FunId(2), &[ExprId(4), ExprId(5)]);
    parts.call(rt, FunId(3), &[ExprId(4), ExprId(5)]);
    parts.call(rt, FunId(4), &[ExprId(4), ExprId(5)]);
    parts.call(rt, FunId(5), &[ExprId(4), ExprId(5)]);
    parts.call(rt, FunId(4), &[ExprId(6), ExprId(7)]);
    parts.call(rt, FunId(5), &[ExprId(6), ExprId(7)]);
    parts.call(rt, FunId(4), &[ExprId(4), ExprId(8)]);
    parts.external(rt, 2, Prim::Add);
    parts.external(rt, 2, Prim::Sub);
    parts.external(rt, 2, Prim::Mul);
    parts.external(rt, 2, Prim::Div);
    parts.external(rt, 2, Prim::Mod);
    parts.function(rt, 0, &[], ExprId(9));
    parts.function(rt, 0, &[], ExprId(10));
    parts.function(rt, 0, &[], ExprId(11));
    parts.function(rt, 0, &[], ExprId(12));
    parts.function(rt, 0, &[], ExprId(13));
    parts.function(rt, 0, &[], ExprId(14));
    parts.function(rt, 0, &[], ExprId(15));
    parts.function(rt, 0, &[], ExprId(16));
    parts.program(rt)
}

/// Division is rounded towards minus infinity. It overflows once, and fails by
/// zero.
fn expect_sums<R: Abort>(rt: &R, alloc: Global) {
    let program = sums(rt, alloc);
    expect(rt, alloc, &program, 6, "0", "5 | 7 | -2");
    expect(rt, alloc, &program, 7, "0", "9 | 7 | -2");
    expect(rt, alloc, &program, 8, "0", "-14 | 7 | -2");
    expect(rt, alloc, &program, 9, "0", "-4 | 7 | -2");
    expect(rt, alloc, &program, 10, "0", "-1 | 7 | -2");
    expect(
        rt,
        alloc,
        &program,
        11,
        "0",
        "overflow -170141183460469231731687303715884105728 -1",
    );
    expect(
        rt,
        alloc,
        &program,
        12,
        "0",
        "0 | -170141183460469231731687303715884105728 | -1",
    );
    expect(rt, alloc, &program, 13, "0", "fail | 7 | 0");
}

/// The sums of 1 with the greatest integers of 64 and of 128 bits.
fn sums_at_the_ends<R: Abort>(rt: &R, alloc: Global) -> FlatProgram {
    let mut parts = programs::both(rt, alloc);
    parts.integer(rt, 9_223_372_036_854_775_807);
    parts.integer(rt, Int::MAX);
    parts.integer(rt, 1);
    parts.call(rt, FunId(1), &[ExprId(4), ExprId(6)]);
    parts.call(rt, FunId(1), &[ExprId(5), ExprId(6)]);
    parts.external(rt, 2, Prim::Add);
    parts.function(rt, 0, &[], ExprId(7));
    parts.function(rt, 0, &[], ExprId(8));
    parts.program(rt)
}

/// Integers go on above 64 bits, and overflow above 128.
fn expect_sums_at_the_ends<R: Abort>(rt: &R, alloc: Global) {
    let program = sums_at_the_ends(rt, alloc);
    expect(
        rt,
        alloc,
        &program,
        2,
        "0",
        "9223372036854775808 | 9223372036854775807 | 1",
    );
    expect(
        rt,
        alloc,
        &program,
        3,
        "0",
        "overflow 170141183460469231731687303715884105727 1",
    );
}

/// `1 < 2`, `2 < 2`, `2 <= 2`, `2 <= 1`, `2 > 1`, `2 > 2`, `2 >= 2` and `1 >= 2`.
fn orders<R: Abort>(rt: &R, alloc: Global) -> FlatProgram {
    let mut parts = programs::both(rt, alloc);
    parts.integer(rt, 1);
    parts.integer(rt, 2);
    parts.call(rt, FunId(1), &[ExprId(4), ExprId(5)]);
    parts.call(rt, FunId(1), &[ExprId(5), ExprId(5)]);
    parts.call(rt, FunId(2), &[ExprId(5), ExprId(5)]);
    parts.call(rt, FunId(2), &[ExprId(5), ExprId(4)]);
    parts.call(rt, FunId(3), &[ExprId(5), ExprId(4)]);
    parts.call(rt, FunId(3), &[ExprId(5), ExprId(5)]);
    parts.call(rt, FunId(4), &[ExprId(5), ExprId(5)]);
    parts.call(rt, FunId(4), &[ExprId(4), ExprId(5)]);
    parts.external(rt, 2, Prim::Less);
    parts.external(rt, 2, Prim::AtMost);
    parts.external(rt, 2, Prim::Greater);
    parts.external(rt, 2, Prim::AtLeast);
    parts.function(rt, 0, &[], ExprId(6));
    parts.function(rt, 0, &[], ExprId(7));
    parts.function(rt, 0, &[], ExprId(8));
    parts.function(rt, 0, &[], ExprId(9));
    parts.function(rt, 0, &[], ExprId(10));
    parts.function(rt, 0, &[], ExprId(11));
    parts.function(rt, 0, &[], ExprId(12));
    parts.function(rt, 0, &[], ExprId(13));
    parts.program(rt)
}

/// Integers are compared.
fn expect_orders<R: Abort>(rt: &R, alloc: Global) {
    let program = orders(rt, alloc);
    expect(rt, alloc, &program, 5, "0", "True | 1 | 2");
    expect(rt, alloc, &program, 6, "0", "False | 2 | 2");
    expect(rt, alloc, &program, 7, "0", "True | 2 | 2");
    expect(rt, alloc, &program, 8, "0", "False | 2 | 1");
    expect(rt, alloc, &program, 9, "0", "True | 2 | 1");
    expect(rt, alloc, &program, 10, "0", "False | 2 | 2");
    expect(rt, alloc, &program, 11, "0", "True | 2 | 2");
    expect(rt, alloc, &program, 12, "0", "False | 1 | 2");
}

/// `'a' == 'a'`, `'a' == 'b'`, `97 == True`, `True == 97`, `ord 'a'`, `chr 97`,
/// `chr 55296`, `97 + 'a'` and `ord 97`.
fn kinds<R: Abort>(rt: &R, alloc: Global) -> FlatProgram {
    let mut parts = programs::both(rt, alloc);
    parts.character(rt, 'a');
    parts.character(rt, 'b');
    parts.integer(rt, 97);
    parts.integer(rt, 55296);
    parts.constructed(rt, TRUE, &[]);
    parts.call(rt, FunId(1), &[ExprId(4), ExprId(4)]);
    parts.call(rt, FunId(1), &[ExprId(4), ExprId(5)]);
    parts.call(rt, FunId(1), &[ExprId(6), ExprId(8)]);
    parts.call(rt, FunId(1), &[ExprId(8), ExprId(6)]);
    parts.call(rt, FunId(2), &[ExprId(4)]);
    parts.call(rt, FunId(3), &[ExprId(6)]);
    parts.call(rt, FunId(3), &[ExprId(7)]);
    parts.call(rt, FunId(4), &[ExprId(6), ExprId(4)]);
    parts.call(rt, FunId(2), &[ExprId(6)]);
    parts.external(rt, 2, Prim::Equal);
    parts.external(rt, 1, Prim::Ord);
    parts.external(rt, 1, Prim::Chr);
    parts.external(rt, 2, Prim::Add);
    parts.function(rt, 0, &[], ExprId(9));
    parts.function(rt, 0, &[], ExprId(10));
    parts.function(rt, 0, &[], ExprId(11));
    parts.function(rt, 0, &[], ExprId(12));
    parts.function(rt, 0, &[], ExprId(13));
    parts.function(rt, 0, &[], ExprId(14));
    parts.function(rt, 0, &[], ExprId(15));
    parts.function(rt, 0, &[], ExprId(16));
    parts.function(rt, 0, &[], ExprId(17));
    parts.program(rt)
}

/// Characters have numbers, and what is of another kind differs, or fails under
/// an operation.
fn expect_kinds<R: Abort>(rt: &R, alloc: Global) {
    let program = kinds(rt, alloc);
    expect(rt, alloc, &program, 5, "0", "True | 'a' | 'a'");
    expect(rt, alloc, &program, 6, "0", "False | 'a' | 'b'");
    expect(rt, alloc, &program, 7, "0", "False | 97 | True");
    expect(rt, alloc, &program, 8, "0", "False | True | 97");
    expect(rt, alloc, &program, 9, "0", "97 | 'a'");
    expect(rt, alloc, &program, 10, "0", "'a' | 97");
    expect(rt, alloc, &program, 11, "0", "fail | 55296");
    expect(rt, alloc, &program, 12, "0", "fail | 97 | 'a'");
    expect(rt, alloc, &program, 13, "0", "fail | 97");
}

/// Each goal is an operation on literals, which stand after it.
#[test]
fn operations_are_computed(rt: HostRuntime) {
    let alloc = rt.alloc();
    expect_sums(&rt, alloc);
    expect_sums_at_the_ends(&rt, alloc);
    expect_orders(&rt, alloc);
    expect_kinds(&rt, alloc);
}
