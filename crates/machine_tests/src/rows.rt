//! Calls, choices, case distinctions and applications.

use crate::programs::{self, CONS, FALSE, NIL, TRUE};
use crate::runs::{expect, expect_within};
use cu_flat::{ExprId, FlatProgram, FunId, Mode, Prim};
use std::alloc::Global;
use std::process::Abort;

/// `not False = True; not True = False`, `goal x = not x`, `both x y = x && y` and
/// `pick False y z = z; pick True y z = y`.
fn negation<R: Abort>(rt: &R, alloc: Global) -> FlatProgram {
    let mut parts = programs::both(rt, alloc);
    parts.constructed(rt, TRUE, &[]);
    let branches = vec![in alloc;
        programs::branch(rt, alloc, FALSE, &[], ExprId(4)),
        programs::branch(rt, alloc, TRUE, &[], ExprId(2)),
    ]
    .expect(rt, "memory");
    parts.case(rt, Mode::Flex, &[], ExprId(0), branches);
    parts.call(rt, FunId(1), &[ExprId(0)]);
    parts.call(rt, FunId(0), &[ExprId(0), ExprId(1)]);
    parts.variable(rt, 2);
    let branches = vec![in alloc;
        programs::branch(rt, alloc, FALSE, &[], ExprId(8)),
        programs::branch(rt, alloc, TRUE, &[], ExprId(1)),
    ]
    .expect(rt, "memory");
    parts.case(rt, Mode::Flex, &[1, 2], ExprId(0), branches);
    parts.function(rt, 1, &[0], ExprId(5));
    parts.function(rt, 1, &[0], ExprId(6));
    parts.function(rt, 2, &[0, 1], ExprId(7));
    parts.function(rt, 3, &[0, 1, 2], ExprId(9));
    parts.program(rt)
}

/// A flexible case distinction binds by its patterns, and then takes a branch. A
/// graph may have as many nodes as the limit.
fn expect_negation<R: Abort>(rt: &R, alloc: Global) {
    let program = negation(rt, alloc);
    expect(rt, alloc, &program, 2, "", "free | f1 0");
    expect(rt, alloc, &program, 2, "0", "free | fcase5 0");
    expect(
        rt,
        alloc,
        &program,
        2,
        "00",
        "False | fcase5 0 // True | fcase5 0",
    );
    expect(rt, alloc, &program, 2, "000", "False | True");
    expect(rt, alloc, &program, 2, "001", "True | False");
    expect(rt, alloc, &program, 2, "0000", "answer {False} True");
    expect(rt, alloc, &program, 2, "0010", "answer {True} False");
    expect_within(rt, alloc, &program, 2, "", 1, "too large: 2");
    expect_within(rt, alloc, &program, 2, "", 2, "free | f1 0");
}

/// A case distinction keeps the variables that its branches use.
fn expect_kept<R: Abort>(rt: &R, alloc: Global) {
    let program = negation(rt, alloc);
    expect(rt, alloc, &program, 3, "0", "free | free | fcase3 0 1");
    expect(rt, alloc, &program, 3, "000", "False | free | False");
    expect(rt, alloc, &program, 3, "001", "True | free | -> 1");
    expect(
        rt,
        alloc,
        &program,
        4,
        "",
        "free | free | free | fcase9 0 1 2",
    );
    expect(rt, alloc, &program, 4, "00", "False | free | free | -> 2");
    expect(rt, alloc, &program, 4, "01", "True | free | free | -> 1");
}

/// `coin = 1 ? 2`, `goal = coin`, and `none = failed`.
fn coin<R: Abort>(rt: &R, alloc: Global) -> FlatProgram {
    let mut parts = programs::both(rt, alloc);
    parts.integer(rt, 1);
    parts.integer(rt, 2);
    parts.choice(rt, ExprId(4), ExprId(5));
    parts.call(rt, FunId(1), &[]);
    parts.call(rt, FunId(3), &[]);
    parts.function(rt, 0, &[], ExprId(6));
    parts.function(rt, 0, &[], ExprId(7));
    parts.external(rt, 0, Prim::Failed);
    parts.function(rt, 0, &[], ExprId(8));
    parts.program(rt)
}

/// A choice is its left and its right side, and `failed` has no value.
fn expect_coin<R: Abort>(rt: &R, alloc: Global) {
    let program = coin(rt, alloc);
    expect(rt, alloc, &program, 2, "", "f1");
    expect(rt, alloc, &program, 2, "0", "? 1 2 | 1 | 2");
    expect(rt, alloc, &program, 2, "00", "-> 1 | 1 | 2 // -> 2 | 1 | 2");
    expect(rt, alloc, &program, 4, "", "fail");
    expect(rt, alloc, &program, 4, "0", "fails");
}

/// `number = case 7 of 1 -> 7; 7 -> 1` and `goal = case 1 of 7 -> 1`.
fn numbers<R: Abort>(rt: &R, alloc: Global) -> FlatProgram {
    let mut parts = programs::both(rt, alloc);
    parts.integer(rt, 7);
    parts.integer(rt, 1);
    let branches = vec![in alloc;
        programs::branch_on(1, ExprId(4)),
        programs::branch_on(7, ExprId(5)),
    ]
    .expect(rt, "memory");
    parts.case(rt, Mode::Flex, &[], ExprId(4), branches);
    let branches = vec![in alloc; programs::branch_on(7, ExprId(5))].expect(rt, "memory");
    parts.case(rt, Mode::Rigid, &[], ExprId(5), branches);
    parts.function(rt, 0, &[], ExprId(6));
    parts.function(rt, 0, &[], ExprId(7));
    parts.program(rt)
}

/// A branch is taken by its literal.
fn expect_numbers<R: Abort>(rt: &R, alloc: Global) {
    let program = numbers(rt, alloc);
    expect(rt, alloc, &program, 1, "", "fcase6 1 | 7");
    expect(rt, alloc, &program, 1, "0", "1 | 7");
    expect(rt, alloc, &program, 2, "", "case7 1 | 1");
    expect(rt, alloc, &program, 2, "0", "fail | 1");
}

/// `rest = case 5 : [] of [] -> []; x : xs -> xs`,
/// `goal = let x free in case x of [] -> []; y : ys -> ys` and
/// `wrong = case [] of True -> []`.
fn lists<R: Abort>(rt: &R, alloc: Global) -> FlatProgram {
    let mut parts = programs::both(rt, alloc);
    parts.integer(rt, 5);
    parts.constructed(rt, NIL, &[]);
    parts.constructed(rt, CONS, &[ExprId(4), ExprId(5)]);
    let branches = vec![in alloc;
        programs::branch(rt, alloc, NIL, &[], ExprId(5)),
        programs::branch(rt, alloc, CONS, &[0, 1], ExprId(1)),
    ]
    .expect(rt, "memory");
    parts.case(rt, Mode::Flex, &[], ExprId(6), branches);
    let branches = vec![in alloc;
        programs::branch(rt, alloc, NIL, &[], ExprId(5)),
        programs::branch(rt, alloc, CONS, &[2, 1], ExprId(1)),
    ]
    .expect(rt, "memory");
    parts.case(rt, Mode::Flex, &[], ExprId(0), branches);
    parts.free(rt, 0, ExprId(8));
    let branches = vec![in alloc; programs::branch(rt, alloc, TRUE, &[], ExprId(5))].expect(
        rt, "memory",
    );
    parts.case(rt, Mode::Flex, &[], ExprId(5), branches);
    parts.function(rt, 0, &[], ExprId(7));
    parts.function(rt, 0, &[], ExprId(9));
    parts.function(rt, 0, &[], ExprId(10));
    parts.program(rt)
}

/// A pattern binds the arguments, and a variable to a constructor over new
/// variables.
fn expect_lists<R: Abort>(rt: &R, alloc: Global) {
    let program = lists(rt, alloc);
    expect(rt, alloc, &program, 1, "", "fcase7 3 | 5 | [] | : 1 2");
    expect(rt, alloc, &program, 1, "0", "-> 2 | 5 | [] | : 1 2");
    expect(rt, alloc, &program, 2, "", "fcase8 1 | free");
    expect(
        rt,
        alloc,
        &program,
        2,
        "0",
        "fcase8 1 | [] // fcase8 1 | : 2 3 | free | free",
    );
    expect(rt, alloc, &program, 3, "0", "fail | []");
}

/// `both = (&&) True False`, `goal = case (&&) of False -> False` and
/// `wrong = True True`.
fn partials<R: Abort>(rt: &R, alloc: Global) -> FlatProgram {
    let mut parts = programs::both(rt, alloc);
    parts.partial(rt, FunId(0), &[]);
    parts.constructed(rt, TRUE, &[]);
    parts.apply(rt, ExprId(4), ExprId(5));
    parts.apply(rt, ExprId(6), ExprId(2));
    let branches = vec![in alloc; programs::branch(rt, alloc, FALSE, &[], ExprId(2))].expect(
        rt, "memory",
    );
    parts.case(rt, Mode::Flex, &[], ExprId(4), branches);
    parts.apply(rt, ExprId(5), ExprId(5));
    parts.function(rt, 0, &[], ExprId(7));
    parts.function(rt, 0, &[], ExprId(8));
    parts.function(rt, 0, &[], ExprId(9));
    parts.program(rt)
}

/// A partial application takes arguments, and nothing else does. A case
/// distinction of one fails.
fn expect_partials<R: Abort>(rt: &R, alloc: Global) {
    let program = partials(rt, alloc);
    expect(
        rt,
        alloc,
        &program,
        1,
        "",
        "apply 3 4 | part f0 | True | apply 1 2 | False",
    );
    expect(
        rt,
        alloc,
        &program,
        1,
        "0",
        "apply 3 4 | part f0 | True | part f0 2 | False",
    );
    expect(
        rt,
        alloc,
        &program,
        1,
        "00",
        "f0 2 4 | part f0 | True | part f0 2 | False",
    );
    expect(rt, alloc, &program, 2, "", "fcase8 1 | part f0");
    expect(rt, alloc, &program, 2, "0", "fail | part f0");
    expect(rt, alloc, &program, 3, "0", "fail | True | True");
}

/// Graphs are shown node by node.
#[test]
fn rewritten_nodes_have_their_successors(rt: HostRuntime) {
    let alloc = rt.alloc();
    expect_negation(&rt, alloc);
    expect_kept(&rt, alloc);
    expect_coin(&rt, alloc);
    expect_numbers(&rt, alloc);
    expect_lists(&rt, alloc);
    expect_partials(&rt, alloc);
}
