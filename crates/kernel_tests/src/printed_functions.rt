//! The functions of the modules that are printed.
use cu_kernel::{ConId, FunId, Function, Head, Lit, Mark, Mode, Pattern, Prim, Rule, Term};
use cu_names::NameId;
use samples::{CONS, NIL, and, boxed, external, mark, number, one, rule};
use std::alloc::{AllocError, Global};

const PAIR: ConId = ConId(3);

const C: ConId = ConId(19);

/// The numbers of the functions.
const BACKSLASHES: FunId = FunId(4);

const P: FunId = FunId(5);

const Q: FunId = FunId(6);

pub(crate) fn none<T: Drop>(alloc: Global) -> Result<Vec<T>, AllocError> {
    Ok(Vec::new(alloc))
}

fn variable(x: u32) -> Result<Term, AllocError> {
    Ok(Term::Var(x))
}

fn whole(head: Head, terms: Result<Vec<Term>, AllocError>) -> Result<Term, AllocError> {
    Ok(Term::Whole(head, terms?))
}

fn part(head: Head, terms: Result<Vec<Term>, AllocError>) -> Result<Term, AllocError> {
    Ok(Term::Part(head, terms?))
}

fn choice(
    alloc: Global,
    left: Result<Term, AllocError>,
    right: Result<Term, AllocError>,
) -> Result<Term, AllocError> {
    Ok(Term::Or(boxed(alloc, left)?, boxed(alloc, right)?))
}

fn application(alloc: Global, f: u32, x: u32) -> Result<Term, AllocError> {
    let f = boxed(alloc, variable(f))?;
    Ok(Term::Apply(f, boxed(alloc, variable(x))?))
}

fn pair(
    alloc: Global,
    left: Result<Term, AllocError>,
    right: Result<Term, AllocError>,
) -> Result<Term, AllocError> {
    whole(Head::Con(PAIR), and(one(alloc, left), right))
}

fn free(alloc: Global, x: u32, term: Result<Term, AllocError>) -> Result<Term, AllocError> {
    Ok(Term::Free(x, boxed(alloc, term)?))
}

fn binding(
    alloc: Global,
    x: u32,
    bound: Result<Term, AllocError>,
    term: Result<Term, AllocError>,
) -> Result<Term, AllocError> {
    let bound = boxed(alloc, bound)?;
    Ok(Term::Let(x, bound, boxed(alloc, term)?))
}

/// A list of so many variables.
fn variables(alloc: Global, count: u32) -> Result<Vec<Pattern>, AllocError> {
    let mut params = Vec::new(alloc);
    for x in 0..count {
        params.push(Pattern::Var(x))?;
    }
    Ok(params)
}

/// A function, with this name in place of its own.
fn named(name: usize, made: Result<Function, AllocError>) -> Result<Function, AllocError> {
    let mut function = made?;
    function.name = NameId(name);
    Ok(function)
}

fn of_rules(
    name: usize,
    arity: u32,
    rules: Result<Vec<Rule>, AllocError>,
) -> Result<Function, AllocError> {
    named(name, samples::of_rules(arity, rules))
}

/// A function of so many parameters with this body.
fn defined(
    alloc: Global,
    name: usize,
    arity: u32,
    body: Result<Term, AllocError>,
) -> Result<Function, AllocError> {
    let params = variables(alloc, arity);
    of_rules(name, arity, one(alloc, rule(params, body)))
}

/// `b = [1, 1 ..]`, of so many elements.
fn ones(alloc: Global, count: u32) -> Result<Function, AllocError> {
    let mut list = whole(Head::Con(NIL), none(alloc))?;
    for _ in 0..count {
        list = whole(Head::Con(CONS), and(one(alloc, Ok(number(1))), Ok(list)))?;
    }
    defined(alloc, 15, 0, Ok(list))
}

/// `x \\ y = x ? y`
fn backslashes(alloc: Global) -> Result<Function, AllocError> {
    defined(alloc, 16, 2, choice(alloc, variable(0), variable(1)))
}

/// `q x = case x of { 'a' -> [] }`
fn by_character(alloc: Global) -> Result<Function, AllocError> {
    let empty = whole(Head::Con(NIL), none(alloc))?;
    let alternatives = one(alloc, Ok((Pattern::Lit(Lit::Char('a')), empty)))?;
    let scrutinee = boxed(alloc, variable(0))?;
    let body = Term::Case(Mode::Rigid, scrutinee, alternatives);
    defined(alloc, 18, 1, Ok(body))
}

/// `r = let y = q in let z free in y z`
fn applied(alloc: Global) -> Result<Function, AllocError> {
    let inner = free(alloc, 8, application(alloc, 7, 8));
    let alone = part(Head::Fun(Q), none(alloc));
    defined(alloc, 19, 0, binding(alloc, 7, alone, inner))
}

/// `s (x : xs) = (x, (\\) xs)`
fn by_list(alloc: Global) -> Result<Function, AllocError> {
    let parts = and(one(alloc, Ok(Pattern::Var(0))), Ok(Pattern::Var(1)))?;
    let params = one(alloc, Ok(Pattern::Con(CONS, parts)));
    let partial = part(Head::Fun(BACKSLASHES), one(alloc, variable(1)));
    let body = pair(alloc, variable(0), partial);
    of_rules(20, 1, one(alloc, rule(params, body)))
}

/// `t x = set1 q x`
fn values(alloc: Global) -> Result<Function, AllocError> {
    defined(alloc, 21, 1, whole(Head::Set(Q), one(alloc, variable(0))))
}

/// `u = ((:), (set0 p ? (x where x free)) ? (y where y free))`
fn parts(alloc: Global) -> Result<Function, AllocError> {
    let cons = part(Head::Con(CONS), none(alloc));
    let set = whole(Head::Set(P), none(alloc));
    let left = choice(alloc, set, free(alloc, 3, variable(3)));
    let right = free(alloc, 3, variable(3));
    let body = pair(alloc, cons, choice(alloc, left, right));
    defined(alloc, 22, 0, body)
}

/// `v x y = x`
fn constant(alloc: Global) -> Result<Function, AllocError> {
    defined(alloc, 32, 2, variable(0))
}

/// `w x y = C x y`
fn built(alloc: Global) -> Result<Function, AllocError> {
    let body = whole(Head::Con(C), and(one(alloc, variable(0)), variable(1)));
    defined(alloc, 33, 2, body)
}

/// The functions of the Prelude, then `b` of `B` with so many elements, then
/// those of `A`.
pub(crate) fn functions(alloc: Global, count: u32) -> Result<Vec<Function>, AllocError> {
    let both = named(12, samples::both(alloc));
    let failed = named(13, Ok(external(0, Prim::Failed)));
    let equal = named(14, Ok(external(2, Prim::Equal)));
    let prelude = and(and(one(alloc, both), failed), equal);
    let first = and(and(prelude, ones(alloc, count)), backslashes(alloc));
    let second = and(
        and(first, defined(alloc, 17, 0, Ok(number(-5)))),
        by_character(alloc),
    );
    let third = and(and(second, applied(alloc)), by_list(alloc));
    let fourth = and(and(third, values(alloc)), parts(alloc));
    and(and(fourth, constant(alloc)), built(alloc))
}

/// The modules of the functions, and whether they are exported: `b` and `p`
/// aren't.
const MARKS: [(u32, bool); 13] = [
    (0, true),
    (0, true),
    (0, true),
    (1, false),
    (2, true),
    (2, false),
    (2, true),
    (2, true),
    (2, true),
    (2, true),
    (2, true),
    (2, true),
    (2, true),
];

pub(crate) fn marks(alloc: Global) -> Result<Vec<Mark>, AllocError> {
    let mut marks = Vec::new(alloc);
    for (module, public) in &MARKS {
        let mut mark = mark(*module, 0);
        mark.public = *public;
        marks.push(mark)?;
    }
    Ok(marks)
}
