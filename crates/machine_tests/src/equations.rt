//! Comparisons, conjunctions and equations.

use crate::programs::{self, CONS, NIL, TRUE};
use crate::runs::expect;
use cu_flat::{ExprId, FlatProgram, FunId, Prim};
use std::alloc::Global;
use std::process::Abort;

/// `[1] == [1]`, `[] == [1]` and `(&&) == (&&)`.
fn comparisons<R: Abort>(rt: &R, alloc: Global) -> FlatProgram {
    let mut parts = programs::both(rt, alloc);
    parts.integer(rt, 1);
    parts.constructed(rt, NIL, &[]);
    parts.constructed(rt, CONS, &[ExprId(4), ExprId(5)]);
    parts.call(rt, FunId(1), &[ExprId(6), ExprId(6)]);
    parts.call(rt, FunId(1), &[ExprId(5), ExprId(6)]);
    parts.partial(rt, FunId(0), &[]);
    parts.call(rt, FunId(1), &[ExprId(9), ExprId(9)]);
    parts.external(rt, 2, Prim::Equal);
    parts.function(rt, 0, &[], ExprId(7));
    parts.function(rt, 0, &[], ExprId(8));
    parts.function(rt, 0, &[], ExprId(10));
    parts.program(rt)
}

/// Like constructors are compared in pairs, unlike ones differ, and partial
/// applications are not compared.
fn expect_comparisons<R: Abort>(rt: &R, alloc: Global) {
    let program = comparisons(rt, alloc);
    expect(
        rt,
        alloc,
        &program,
        2,
        "0",
        "f0 7 8 | 1 | [] | : 1 2 | 1 | [] | : 4 5 | == 1 4 | == 2 5",
    );
    expect(rt, alloc, &program, 3, "0", "False | [] | 1 | [] | : 2 3");
    expect(rt, alloc, &program, 4, "0", "fail | part f0 | part f0");
}

/// `True & True`, `True & False`, and `let x = True in x & x`.
fn conjunctions<R: Abort>(rt: &R, alloc: Global) -> FlatProgram {
    let mut parts = programs::both(rt, alloc);
    parts.constructed(rt, TRUE, &[]);
    parts.call(rt, FunId(1), &[ExprId(4), ExprId(4)]);
    parts.call(rt, FunId(1), &[ExprId(4), ExprId(2)]);
    parts.call(rt, FunId(1), &[ExprId(0), ExprId(0)]);
    parts.bind(rt, 0, ExprId(4), ExprId(7));
    parts.external(rt, 2, Prim::And);
    parts.function(rt, 0, &[], ExprId(5));
    parts.function(rt, 0, &[], ExprId(6));
    parts.function(rt, 0, &[], ExprId(8));
    parts.program(rt)
}

/// A conjunction is True or fails, and a local variable is shared.
fn expect_conjunctions<R: Abort>(rt: &R, alloc: Global) {
    let program = conjunctions(rt, alloc);
    expect(rt, alloc, &program, 2, "0", "True | True | True");
    expect(rt, alloc, &program, 3, "0", "fail | True | False");
    expect(rt, alloc, &program, 4, "", "& 1 1 | True");
}

/// `x =:= x` and `x =:= y`.
fn variables<R: Abort>(rt: &R, alloc: Global) -> FlatProgram {
    let mut parts = programs::both(rt, alloc);
    parts.call(rt, FunId(1), &[ExprId(0), ExprId(0)]);
    parts.free(rt, 0, ExprId(4));
    parts.call(rt, FunId(1), &[ExprId(0), ExprId(1)]);
    parts.free(rt, 1, ExprId(6));
    parts.free(rt, 0, ExprId(7));
    parts.external(rt, 2, Prim::Unify);
    parts.function(rt, 0, &[], ExprId(5));
    parts.function(rt, 0, &[], ExprId(8));
    parts.program(rt)
}

/// A variable equals itself, and is bound to another.
fn expect_variables<R: Abort>(rt: &R, alloc: Global) {
    let program = variables(rt, alloc);
    expect(rt, alloc, &program, 2, "0", "True | free");
    expect(rt, alloc, &program, 3, "0", "True | -> 2 | free");
}

/// `x =:= 7`.
fn binding<R: Abort>(rt: &R, alloc: Global) -> FlatProgram {
    let mut parts = programs::both(rt, alloc);
    parts.integer(rt, 7);
    parts.call(rt, FunId(1), &[ExprId(0), ExprId(4)]);
    parts.free(rt, 0, ExprId(5));
    parts.external(rt, 2, Prim::Unify);
    parts.function(rt, 0, &[], ExprId(6));
    parts.program(rt)
}

/// `7 =:= x`.
fn binding_on_the_left<R: Abort>(rt: &R, alloc: Global) -> FlatProgram {
    let mut parts = programs::both(rt, alloc);
    parts.integer(rt, 7);
    parts.call(rt, FunId(1), &[ExprId(4), ExprId(0)]);
    parts.free(rt, 0, ExprId(5));
    parts.external(rt, 2, Prim::Unify);
    parts.function(rt, 0, &[], ExprId(6));
    parts.program(rt)
}

/// A variable is bound to a literal on either side.
fn expect_bindings<R: Abort>(rt: &R, alloc: Global) {
    let program = binding(rt, alloc);
    expect(rt, alloc, &program, 2, "0", "True | -> 2 | 7");
    let program = binding_on_the_left(rt, alloc);
    expect(rt, alloc, &program, 2, "0", "True | -> 2 | 7");
}

/// `x =:= []`, `[1] =:= [2]`, `[] =:= [1]`, `1 =:= []` and `(&&) =:= (&&)`.
fn constructors<R: Abort>(rt: &R, alloc: Global) -> FlatProgram {
    let mut parts = programs::both(rt, alloc);
    parts.integer(rt, 1);
    parts.integer(rt, 2);
    parts.constructed(rt, NIL, &[]);
    parts.constructed(rt, CONS, &[ExprId(4), ExprId(6)]);
    parts.constructed(rt, CONS, &[ExprId(5), ExprId(6)]);
    parts.call(rt, FunId(1), &[ExprId(0), ExprId(6)]);
    parts.free(rt, 0, ExprId(9));
    parts.call(rt, FunId(1), &[ExprId(7), ExprId(8)]);
    parts.call(rt, FunId(1), &[ExprId(6), ExprId(7)]);
    parts.call(rt, FunId(1), &[ExprId(4), ExprId(6)]);
    parts.partial(rt, FunId(0), &[]);
    parts.call(rt, FunId(1), &[ExprId(14), ExprId(14)]);
    parts.external(rt, 2, Prim::Unify);
    parts.function(rt, 0, &[], ExprId(10));
    parts.function(rt, 0, &[], ExprId(11));
    parts.function(rt, 0, &[], ExprId(12));
    parts.function(rt, 0, &[], ExprId(13));
    parts.function(rt, 0, &[], ExprId(15));
    parts.program(rt)
}

/// A variable is bound to a constant. Like constructors are equated in pairs,
/// and what is unlike or partial is not.
fn expect_constructors<R: Abort>(rt: &R, alloc: Global) {
    let program = constructors(rt, alloc);
    expect(rt, alloc, &program, 2, "0", "True | -> 2 | []");
    expect(
        rt,
        alloc,
        &program,
        3,
        "0",
        "& 7 8 | 1 | [] | : 1 2 | 2 | [] | : 4 5 | =:= 1 4 | =:= 2 5",
    );
    expect(rt, alloc, &program, 4, "0", "fail | [] | 1 | [] | : 2 3");
    expect(rt, alloc, &program, 5, "0", "fail | 1 | []");
    expect(rt, alloc, &program, 6, "0", "fail | part f0 | part f0");
}

/// `x =:= [y]`.
fn imitation<R: Abort>(rt: &R, alloc: Global) -> FlatProgram {
    let mut parts = programs::both(rt, alloc);
    parts.constructed(rt, NIL, &[]);
    parts.constructed(rt, CONS, &[ExprId(1), ExprId(4)]);
    parts.call(rt, FunId(1), &[ExprId(0), ExprId(5)]);
    parts.free(rt, 1, ExprId(6));
    parts.free(rt, 0, ExprId(7));
    parts.external(rt, 2, Prim::Unify);
    parts.function(rt, 0, &[], ExprId(8));
    parts.program(rt)
}

/// `[y] =:= x`.
fn imitation_on_the_left<R: Abort>(rt: &R, alloc: Global) -> FlatProgram {
    let mut parts = programs::both(rt, alloc);
    parts.constructed(rt, NIL, &[]);
    parts.constructed(rt, CONS, &[ExprId(1), ExprId(4)]);
    parts.call(rt, FunId(1), &[ExprId(5), ExprId(0)]);
    parts.free(rt, 1, ExprId(6));
    parts.free(rt, 0, ExprId(7));
    parts.external(rt, 2, Prim::Unify);
    parts.function(rt, 0, &[], ExprId(8));
    parts.program(rt)
}

/// A variable becomes a constructor over new ones, on either side.
fn expect_imitations<R: Abort>(rt: &R, alloc: Global) {
    let expected = "& 7 8 | : 5 6 | free | [] | : 2 3 | free | free | =:= 5 2 | =:= 6 3";
    let program = imitation(rt, alloc);
    expect(rt, alloc, &program, 2, "0", expected);
    let program = imitation_on_the_left(rt, alloc);
    expect(rt, alloc, &program, 2, "0", expected);
}

/// `x =:= [x]`.
fn circle<R: Abort>(rt: &R, alloc: Global) -> FlatProgram {
    let mut parts = programs::both(rt, alloc);
    parts.constructed(rt, NIL, &[]);
    parts.constructed(rt, CONS, &[ExprId(0), ExprId(4)]);
    parts.call(rt, FunId(1), &[ExprId(0), ExprId(5)]);
    parts.free(rt, 0, ExprId(6));
    parts.external(rt, 2, Prim::Unify);
    parts.function(rt, 0, &[], ExprId(7));
    parts.program(rt)
}

/// A variable in its own value fails.
fn expect_circle<R: Abort>(rt: &R, alloc: Global) {
    let program = circle(rt, alloc);
    expect(rt, alloc, &program, 2, "0", "fail | free | [] | : 1 2");
}

/// Graphs are shown node by node.
#[test]
fn equations_have_their_successors(rt: HostRuntime) {
    let alloc = rt.alloc();
    expect_comparisons(&rt, alloc);
    expect_conjunctions(&rt, alloc);
    expect_variables(&rt, alloc);
    expect_bindings(&rt, alloc);
    expect_constructors(&rt, alloc);
    expect_imitations(&rt, alloc);
    expect_circle(&rt, alloc);
}
