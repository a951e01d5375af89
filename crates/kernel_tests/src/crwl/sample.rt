//! The sample program: `coin = 0`, `coin = 1`, `double x = x + x`,
//! `keep x y = x`, `loop = loop`, `&&`, and built-in operations, over the
//! types of truths, lists, sets' values and pairs.

use cu_kernel::{
    ConId, FunId, Function, Head, Int, Pattern, Prim, Program, ProgramParts, Rule, Special, Term,
};
use cu_names::Names;
use samples::{
    ENTITIES, and, both, external, marks, modules, number, of_rules, one, plain_types, program_of,
    rule, values_type,
};
use std::alloc::{AllocError, Global};
use std::process::Abort;

pub(crate) const VALUES: ConId = ConId(19);

pub(crate) const PAIR: ConId = ConId(3);

pub(crate) const BOTH: FunId = FunId(0);

pub(crate) const COIN: FunId = FunId(1);

pub(crate) const DOUBLE: FunId = FunId(2);

pub(crate) const KEEP: FunId = FunId(3);

pub(crate) const LOOP: FunId = FunId(4);

pub(crate) const PLUS: FunId = FunId(5);

pub(crate) const EQUAL: FunId = FunId(6);

pub(crate) const UNIFY: FunId = FunId(7);

pub(crate) const AND: FunId = FunId(8);

pub(crate) const DIV: FunId = FunId(9);

pub(crate) const MOD: FunId = FunId(10);

pub(crate) const LESS: FunId = FunId(11);

pub(crate) const CHR: FunId = FunId(12);

pub(crate) const FAILED: FunId = FunId(13);

pub(crate) const MINUS: FunId = FunId(14);

pub(crate) const TIMES: FunId = FunId(15);

pub(crate) const AT_MOST: FunId = FunId(16);

pub(crate) const GREATER: FunId = FunId(17);

pub(crate) const AT_LEAST: FunId = FunId(18);

pub(crate) const ORD: FunId = FunId(19);

/// `coin =` a number
fn coin_rule(alloc: Global, n: Int) -> Result<Rule, AllocError> {
    rule(Ok(Vec::new(alloc)), Ok(number(n)))
}

/// `coin = 0`, `coin = 1`
fn coin(alloc: Global) -> Result<Function, AllocError> {
    of_rules(0, and(one(alloc, coin_rule(alloc, 0)), coin_rule(alloc, 1)))
}

/// `double x = x + x`
fn double(alloc: Global) -> Result<Function, AllocError> {
    let params = one(alloc, Ok(Pattern::Var(0)));
    let uses = and(one(alloc, Ok(Term::Var(0))), Ok(Term::Var(0)))?;
    let body = Term::Whole(Head::Fun(PLUS), uses);
    of_rules(1, one(alloc, rule(params, Ok(body))))
}

/// `keep x y = x`
fn keep(alloc: Global) -> Result<Function, AllocError> {
    let params = and(one(alloc, Ok(Pattern::Var(0))), Ok(Pattern::Var(1)));
    of_rules(2, one(alloc, rule(params, Ok(Term::Var(0)))))
}

/// `loop = loop`
fn endless(alloc: Global) -> Result<Function, AllocError> {
    let body = Term::Whole(Head::Fun(LOOP), Vec::new(alloc));
    of_rules(0, one(alloc, rule(Ok(Vec::new(alloc)), Ok(body))))
}

/// The operations that are built in, and how many parameters they have.
const OPERATIONS: [(u32, Prim); 15] = [
    (2, Prim::Add),
    (2, Prim::Equal),
    (2, Prim::Unify),
    (2, Prim::And),
    (2, Prim::Div),
    (2, Prim::Mod),
    (2, Prim::Less),
    (1, Prim::Chr),
    (0, Prim::Failed),
    (2, Prim::Sub),
    (2, Prim::Mul),
    (2, Prim::AtMost),
    (2, Prim::Greater),
    (2, Prim::AtLeast),
    (1, Prim::Ord),
];

fn functions(alloc: Global) -> Result<Vec<Function>, AllocError> {
    let first = and(one(alloc, both(alloc)), coin(alloc));
    let second = and(and(first, double(alloc)), keep(alloc));
    let mut functions = and(second, endless(alloc))?;
    for (arity, operation) in &OPERATIONS {
        functions.push(external(*arity, *operation))?;
    }
    Ok(functions)
}

/// The parts of the sample program. What types its constructors have plays no
/// part in a proof.
fn parts(alloc: Global, values: Option<ConId>) -> Result<ProgramParts, AllocError> {
    let mut names = Names::new(alloc);
    let plain = plain_types(alloc, &mut names);
    let types = and(plain, values_type(alloc, &mut names))?;
    let functions = functions(alloc)?;
    let marks = marks(alloc, functions.len())?;
    Ok(ProgramParts {
        types,
        functions,
        synonyms: Vec::new(alloc),
        modules: modules(alloc)?,
        marks,
        goal: None,
        special: Special { values, ..ENTITIES },
    })
}

/// The sample program, with this constructor of sets' values, or without set
/// functions.
pub(crate) fn sample<R: Abort>(
    rt: &R,
    alloc: Global,
    values: Option<ConId>,
) -> Result<Program, AllocError> {
    let made = program_of(parts(alloc, values)?)?;
    Ok(made.expect(rt, "a valid program"))
}
