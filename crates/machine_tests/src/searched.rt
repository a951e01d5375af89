//! The kernel program that is searched: the built-in types, `Bool`, and a few
//! functions.
use cu_kernel::{
    ConId, DataType, FunId, Function, Head, Int, Lit, Mode, Pattern, Prim, ProgramParts, Rule,
    Special, Term,
};
use cu_names::Names;
use samples::{
    ENTITIES, FALSE, TRUE, and, both, boxed, constant, constant_pattern, constructor, data_type,
    external, marks, modules, number, of_rules, one, plain_types, rule, values_type,
};
use std::alloc::{AllocError, Global};

/// The first of four constructors without arguments.
const NORTH: ConId = ConId(19);

const VALUES: ConId = ConId(23);

/// The first of many constructors without arguments.
const FIRST_OF_MANY: ConId = ConId(24);

/// How many there are.
const MANY: u8 = 200;

/// `data Side = North | East | South | West`
fn side_type(alloc: Global, names: &mut Names) -> Result<DataType, AllocError> {
    let mut constructors = Vec::new(alloc);
    for side in ["North", "East", "South", "West"] {
        constructors.push(constructor(names.intern(side), Ok(Vec::new(alloc)))?)?;
    }
    data_type(names.intern("Side"), 0, Ok(constructors))
}

/// `data Many = M | M | M` and so on
fn many_type(alloc: Global, names: &mut Names) -> Result<DataType, AllocError> {
    let mut constructors = Vec::new(alloc);
    for _ in 0..MANY {
        constructors.push(constructor(names.intern("M"), Ok(Vec::new(alloc)))?)?;
    }
    data_type(names.intern("Many"), 0, Ok(constructors))
}

fn types(alloc: Global, names: &mut Names) -> Result<Vec<DataType>, AllocError> {
    let mut types = plain_types(alloc, names)?;
    types.push(side_type(alloc, names)?)?;
    types.push(values_type(alloc, names)?)?;
    types.push(many_type(alloc, names)?)?;
    Ok(types)
}

/// A list of two.
fn two<T: Drop>(alloc: Global, first: T, second: T) -> Result<Vec<T>, AllocError> {
    and(one(alloc, Ok(first)), Ok(second))
}

/// A rule without parameters.
fn constant_rule(alloc: Global, body: Term) -> Result<Rule, AllocError> {
    rule(Ok(Vec::new(alloc)), Ok(body))
}

/// A function of no parameters with one rule.
fn constant_function(alloc: Global, body: Term) -> Result<Function, AllocError> {
    of_rules(0, one(alloc, constant_rule(alloc, body)))
}

/// `coin = 0` and `coin = 1`
fn coin(alloc: Global) -> Result<Function, AllocError> {
    let zero = one(alloc, constant_rule(alloc, number(0)));
    of_rules(0, and(zero, constant_rule(alloc, number(1))))
}

/// A call of a function of no parameters.
fn call(alloc: Global, function: usize) -> Term {
    Term::Whole(Head::Fun(FunId(function)), Vec::new(alloc))
}

/// A rule of one parameter.
fn rule_of_one(alloc: Global, param: Pattern, body: Term) -> Result<Rule, AllocError> {
    rule(one(alloc, Ok(param)), Ok(body))
}

/// A rule from one constructor to another.
fn turned(alloc: Global, from: ConId, to: ConId) -> Result<Rule, AllocError> {
    rule_of_one(alloc, constant_pattern(alloc, from), constant(alloc, to))
}

/// `not False = True` and `not True = False`
fn not(alloc: Global) -> Result<Function, AllocError> {
    let no = one(alloc, turned(alloc, FALSE, TRUE));
    of_rules(1, and(no, turned(alloc, TRUE, FALSE)))
}

/// `f x = case x of { 0 -> 1 }`
fn rigid(alloc: Global) -> Result<Function, AllocError> {
    let alternatives = one(alloc, Ok((Pattern::Lit(Lit::Int(0)), number(1))))?;
    let scrutinee = boxed(alloc, Ok(Term::Var(0)))?;
    let body = Term::Case(Mode::Rigid, scrutinee, alternatives);
    of_rules(1, one(alloc, rule_of_one(alloc, Pattern::Var(0), body)))
}

/// The numbers of so many constructors, from the first on: `number North = 0`,
/// `number East = 1` and so on.
fn numbers(alloc: Global, first: ConId, count: u8) -> Result<Function, AllocError> {
    let mut rules = Vec::new(alloc);
    for n in 0..count {
        let constructor = ConId(first.0.wrapping_add(usize::from(n)));
        let param = constant_pattern(alloc, constructor);
        rules.push(rule_of_one(alloc, param, number(Int::from(n)))?)?;
    }
    of_rules(1, Ok(rules))
}

/// The variable 0 and a number, summed.
fn sum(alloc: Global, n: Int) -> Result<Term, AllocError> {
    let arguments = two(alloc, Term::Var(0), number(n))?;
    Ok(Term::Whole(Head::Fun(FunId(SUM)), arguments))
}

/// `f x = x` and `f x = x + 10`
fn raised(alloc: Global) -> Result<Function, AllocError> {
    let same = one(alloc, rule_of_one(alloc, Pattern::Var(0), Term::Var(0)));
    let more = rule_of_one(alloc, Pattern::Var(0), sum(alloc, 10)?);
    of_rules(1, and(same, more))
}

/// `sortValues (Values xs) = xs`
fn sort_values(alloc: Global) -> Result<Function, AllocError> {
    let values = Pattern::Con(VALUES, one(alloc, Ok(Pattern::Var(0)))?);
    of_rules(1, one(alloc, rule_of_one(alloc, values, Term::Var(0))))
}

/// The sorted values of a function on these arguments.
fn sorted(
    alloc: Global,
    f: usize,
    arguments: Result<Vec<Term>, AllocError>,
) -> Result<Function, AllocError> {
    let values = Term::Whole(Head::Set(FunId(f)), arguments?);
    let list = Term::Whole(Head::Fun(FunId(SORT_VALUES)), one(alloc, Ok(values))?);
    constant_function(alloc, list)
}

/// `f coin`
fn raised_coin(alloc: Global) -> Result<Function, AllocError> {
    let arguments = one(alloc, Ok(call(alloc, COIN)))?;
    constant_function(alloc, Term::Whole(Head::Fun(FunId(RAISED)), arguments))
}

/// `y + 1 where y free`
fn open_sum(alloc: Global) -> Result<Function, AllocError> {
    let body = boxed(alloc, sum(alloc, 1))?;
    constant_function(alloc, Term::Free(0, body))
}

/// What lowering asks for, and the functions that the tests search.
pub(crate) const COIN: usize = 3;

pub(crate) const PICK: usize = 4;

pub(crate) const NOT: usize = 5;

pub(crate) const WAIT: usize = 6;

pub(crate) const LOOP: usize = 7;

const SUM: usize = 8;

pub(crate) const NUMBER: usize = 9;

const RAISED: usize = 10;

const SORT_VALUES: usize = 11;

/// `sortValues (set1 f coin)`
pub(crate) const SORTED: usize = 12;

/// `g = f coin`
pub(crate) const RAISED_COIN: usize = 13;

/// `sortValues (set0 g)`, where `g = f coin`
pub(crate) const ALL_SORTED: usize = 14;

const OPEN_SUM: usize = 15;

/// `sortValues (set0 p)`, where `p = y + 1 where y free`
pub(crate) const OPEN_SORTED: usize = 16;

/// The numbers 0 to 199 of constructors.
pub(crate) const MANY_NUMBER: usize = 17;

fn functions(alloc: Global) -> Result<Vec<Function>, AllocError> {
    let mut functions = one(alloc, both(alloc))?;
    functions.push(external(0, Prim::Failed))?;
    functions.push(external(2, Prim::Equal))?;
    functions.push(coin(alloc)?)?;
    functions.push(constant_function(alloc, call(alloc, COIN))?)?;
    functions.push(not(alloc)?)?;
    functions.push(rigid(alloc)?)?;
    functions.push(constant_function(alloc, call(alloc, LOOP))?)?;
    functions.push(external(2, Prim::Add))?;
    functions.push(numbers(alloc, NORTH, 4)?)?;
    functions.push(raised(alloc)?)?;
    functions.push(sort_values(alloc)?)?;
    functions.push(sorted(alloc, RAISED, one(alloc, Ok(call(alloc, COIN))))?)?;
    functions.push(raised_coin(alloc)?)?;
    functions.push(sorted(alloc, RAISED_COIN, Ok(Vec::new(alloc)))?)?;
    functions.push(open_sum(alloc)?)?;
    functions.push(sorted(alloc, OPEN_SUM, Ok(Vec::new(alloc)))?)?;
    functions.push(numbers(alloc, FIRST_OF_MANY, MANY)?)?;
    Ok(functions)
}

/// The parts of the program, whose names are in the table.
pub(crate) fn parts(alloc: Global, names: &mut Names) -> Result<ProgramParts, AllocError> {
    let functions = functions(alloc)?;
    let marks = marks(alloc, functions.len())?;
    Ok(ProgramParts {
        types: types(alloc, names)?,
        functions,
        synonyms: Vec::new(alloc),
        modules: modules(alloc)?,
        marks,
        goal: None,
        special: Special {
            values: Some(VALUES),
            ..ENTITIES
        },
    })
}
