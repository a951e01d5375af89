//! Programs before lifting: one that is right, and that program with one fault.

use crate::chooser_programs::{ENTITIES, types};
use cu_kernel::{
    ConId, Counts, FunId, Head, Int, Lit, LocalBody, LocalFunction, LocalHead, LocalParts,
    LocalRule, LocalTerm, Mark, Pattern, Prim, Special, Synonym, TopFunction, TypeTerm,
};
use cu_names::Place;
use samples::{FALSE, NAME, TRUE, mark, modules};
use std::alloc::{AllocError, Global};

/// What isn't right in a program.
#[derive(Clone, Copy, PartialEq, Eq)]
pub(crate) enum Fault {
    /// The program is right.
    Nothing,
    /// z and w have one number.
    BoundTwice,
    /// w is bound nowhere.
    BoundNowhere,
    /// z is g 3, and g uses z.
    LetOfItself,
    /// g 3 3
    ArgumentTooMany,
    /// g without arguments, as a whole call.
    ArgumentTooFew,
    /// `f` uses y, which g binds.
    UseOfAnInnerVariable,
    /// A function has no mark.
    MarkTooFew,
    /// A mark counts a captured variable.
    CountedCapture,
    /// A synonym without parameters has a variable.
    VariableOfASynonym,
    /// A rule has no pattern for its parameter.
    RuleWithoutPattern,
}

/// What isn't right among the joined parts of a program.
#[derive(Clone, Copy, PartialEq, Eq)]
pub(crate) enum JoinFault {
    /// The program's parts fit together.
    Nothing,
    /// Types come before.
    TypesBefore,
    /// `True` is declared before `False`.
    FalseAfterTrue,
    /// Both rules of `&&` are for `True`.
    OtherRules,
    /// A mark names the second of one module.
    NoSuchModule,
    /// A rule names a function that isn't there.
    NoSuchFunction,
    /// The list's constructors aren't the first ones.
    OtherList,
}

const PLACE: Place = Place {
    module: NAME,
    line: 1,
    column: 1,
};

/// The variables y, z and w, in the order of their declaration.
const Y: u32 = 0;

const Z: u32 = 1;

const W: u32 = 2;

fn number(value: i8) -> LocalTerm {
    LocalTerm::Lit(Lit::Int(Int::from(value)))
}

fn pair(
    alloc: Global,
    head: LocalHead,
    first: LocalTerm,
    second: LocalTerm,
) -> Result<LocalTerm, AllocError> {
    let mut arguments = Vec::new(alloc);
    arguments.push(first)?;
    arguments.push(second)?;
    Ok(LocalTerm::Whole(head, arguments))
}

/// The number of `+` among the functions.
fn plus(fault: JoinFault) -> LocalHead {
    match fault {
        JoinFault::NoSuchFunction => LocalHead::Global(Head::Fun(FunId(7))),
        _ => LocalHead::Global(Head::Fun(FunId(2))),
    }
}

/// g y = (w + y) + z
fn inner(alloc: Global, fault: Fault, join: JoinFault) -> Result<LocalFunction, AllocError> {
    let sum = pair(alloc, plus(join), LocalTerm::Var(W), LocalTerm::Var(Y))?;
    let body = pair(alloc, plus(join), sum, LocalTerm::Var(Z))?;
    let mut params = Vec::new(alloc);
    if fault != Fault::RuleWithoutPattern {
        params.push(Pattern::Var(Y))?;
    }
    let mut rules = Vec::new(alloc);
    rules.push(LocalRule { params, body })?;
    Ok(LocalFunction {
        place: PLACE,
        declared: None,
        arity: 1,
        rules,
    })
}

/// g 3
fn call(alloc: Global, fault: Fault) -> Result<LocalTerm, AllocError> {
    let mut arguments = Vec::new(alloc);
    if fault != Fault::ArgumentTooFew {
        arguments.push(number(3))?;
    }
    if fault == Fault::ArgumentTooMany {
        arguments.push(number(3))?;
    }
    Ok(LocalTerm::Whole(LocalHead::Local(0), arguments))
}

/// What z is.
fn value(alloc: Global, fault: Fault) -> Result<LocalTerm, AllocError> {
    match fault {
        Fault::LetOfItself => call(alloc, fault),
        Fault::UseOfAnInnerVariable => Ok(LocalTerm::Var(Y)),
        _ => Ok(number(1)),
    }
}

/// The number of w, or another one.
fn second_variable(fault: Fault) -> u32 {
    match fault {
        Fault::BoundTwice => Z,
        Fault::BoundNowhere => 7,
        _ => W,
    }
}

/// f = let { g y = (w + y) + z; z = 1; w = 2 } in g 3
fn outer(alloc: Global, fault: Fault, join: JoinFault) -> Result<TopFunction, AllocError> {
    let inside = LocalTerm::Let(
        second_variable(fault),
        Box::new(alloc, number(2))?,
        Box::new(alloc, call(alloc, fault)?)?,
    );
    let body = LocalTerm::Let(
        Z,
        Box::new(alloc, value(alloc, fault)?)?,
        Box::new(alloc, inside)?,
    );
    let mut rules = Vec::new(alloc);
    rules.push(LocalRule {
        params: Vec::new(alloc),
        body,
    })?;
    let mut locals = Vec::new(alloc);
    locals.push(inner(alloc, fault, join)?)?;
    Ok(TopFunction {
        name: NAME,
        arity: 0,
        body: LocalBody::Rules(rules),
        locals,
    })
}

/// A rule of `&&` with this constructor as its first pattern, and a variable as
/// its second.
fn both_rule(
    alloc: Global,
    first: ConId,
    second: u32,
    body: LocalTerm,
) -> Result<LocalRule, AllocError> {
    let mut params = Vec::new(alloc);
    params.push(Pattern::Con(first, Vec::new(alloc)))?;
    params.push(Pattern::Var(second))?;
    Ok(LocalRule { params, body })
}

fn no(alloc: Global) -> LocalTerm {
    LocalTerm::Whole(LocalHead::Global(Head::Con(FALSE)), Vec::new(alloc))
}

/// True && x = x, and False && _ = False
fn both(alloc: Global, join: JoinFault) -> Result<TopFunction, AllocError> {
    let second = match join {
        JoinFault::OtherRules => TRUE,
        _ => FALSE,
    };
    let mut rules = Vec::new(alloc);
    rules.push(both_rule(alloc, TRUE, 0, LocalTerm::Var(0))?)?;
    rules.push(both_rule(alloc, second, 1, no(alloc))?)?;
    Ok(TopFunction {
        name: NAME,
        arity: 2,
        body: LocalBody::Rules(rules),
        locals: Vec::new(alloc),
    })
}

/// `&&`, the function `f` with its local functions, and `+`.
fn functions(alloc: Global, fault: Fault, join: JoinFault) -> Result<Vec<TopFunction>, AllocError> {
    let mut functions = Vec::new(alloc);
    functions.push(both(alloc, join)?)?;
    functions.push(outer(alloc, fault, join)?)?;
    functions.push(TopFunction {
        name: NAME,
        arity: 2,
        body: LocalBody::External(Prim::Add),
        locals: Vec::new(alloc),
    })?;
    Ok(functions)
}

fn marks(alloc: Global, fault: Fault, join: JoinFault) -> Result<Vec<Mark>, AllocError> {
    let captured = if fault == Fault::CountedCapture { 1 } else { 0 };
    let module = if join == JoinFault::NoSuchModule {
        1
    } else {
        0
    };
    let mut marks = Vec::new(alloc);
    marks.push(mark(0, 0))?;
    marks.push(mark(module, captured))?;
    if fault != Fault::MarkTooFew {
        marks.push(mark(0, 0))?;
    }
    Ok(marks)
}

fn synonyms(alloc: Global, fault: Fault) -> Result<Vec<Synonym>, AllocError> {
    let mut synonyms = Vec::new(alloc);
    if fault == Fault::VariableOfASynonym {
        synonyms.push(Synonym {
            name: NAME,
            module: 0,
            public: false,
            arity: 0,
            body: TypeTerm::Var(0),
        })?;
    }
    Ok(synonyms)
}

fn entities(join: JoinFault) -> Special {
    match join {
        JoinFault::FalseAfterTrue => Special {
            falsity: TRUE,
            truth: FALSE,
            ..ENTITIES
        },
        JoinFault::OtherList => Special {
            nil: ConId(2),
            ..ENTITIES
        },
        _ => ENTITIES,
    }
}

/// The parts of the sample program, with these faults.
pub(crate) fn parts(
    alloc: Global,
    fault: Fault,
    join: JoinFault,
) -> Result<LocalParts, AllocError> {
    let before = if join == JoinFault::TypesBefore { 1 } else { 0 };
    Ok(LocalParts {
        start: Counts {
            types: before,
            constructors: 0,
            functions: 0,
            synonyms: 0,
            modules: 0,
        },
        types: types(alloc)?,
        functions: functions(alloc, fault, join)?,
        synonyms: synonyms(alloc, fault)?,
        modules: modules(alloc)?,
        marks: marks(alloc, fault, join)?,
        goal: None,
        special: entities(join),
    })
}
