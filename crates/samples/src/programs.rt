//! Functions of kernel programs, and what a program has beside them.
use crate::lists::{and, one, pair_of};
use cu_deftree::{LowerFault, has_operations, lower};
use cu_flat::FlatProgram;
use cu_kernel::{
    Body, ConId, FunId, Function, Head, Int, Lit, Mark, ModuleInfo, Pattern, Prim, Program,
    ProgramParts, Rule, Special, Term,
};
use cu_names::{NameId, Place};
use std::alloc::{AllocError, Global};

/// The name of everything.
pub const NAME: NameId = NameId(0);

pub const NIL: ConId = ConId(0);

pub const CONS: ConId = ConId(1);

pub const FALSE: ConId = ConId(17);

pub const TRUE: ConId = ConId(18);

/// The built-in entities of programs whose first function is `&&`, without set
/// functions.
pub const ENTITIES: Special = Special {
    falsity: FALSE,
    truth: TRUE,
    nil: NIL,
    cons: CONS,
    both: FunId(0),
    values: None,
};

pub fn number(n: Int) -> Term {
    Term::Lit(Lit::Int(n))
}

pub fn constant(alloc: Global, constructor: ConId) -> Term {
    Term::Whole(Head::Con(constructor), Vec::new(alloc))
}

pub fn constant_pattern(alloc: Global, constructor: ConId) -> Pattern {
    Pattern::Con(constructor, Vec::new(alloc))
}

pub fn rule(
    params: Result<Vec<Pattern>, AllocError>,
    body: Result<Term, AllocError>,
) -> Result<Rule, AllocError> {
    let (params, body) = pair_of(params, body)?;
    Ok(Rule { params, body })
}

/// A function of that name for everything.
pub fn of_rules(arity: u32, rules: Result<Vec<Rule>, AllocError>) -> Result<Function, AllocError> {
    Ok(Function {
        name: NAME,
        arity,
        body: Body::Rules(rules?),
    })
}

/// An operation that is built in.
pub fn external(arity: u32, operation: Prim) -> Function {
    Function {
        name: NAME,
        arity,
        body: Body::External(operation),
    }
}

/// A rule of `&&` on this constructor and any second argument, the variable 0.
fn both_rule(alloc: Global, first: ConId, body: Term) -> Result<Rule, AllocError> {
    let params = one(alloc, Ok(constant_pattern(alloc, first)));
    rule(and(params, Ok(Pattern::Var(0))), Ok(body))
}

/// `True && x = x`
pub fn true_rule(alloc: Global) -> Result<Rule, AllocError> {
    both_rule(alloc, TRUE, Term::Var(0))
}

/// `False && _ = False`
pub fn false_rule(alloc: Global) -> Result<Rule, AllocError> {
    both_rule(alloc, FALSE, constant(alloc, FALSE))
}

/// `&&`
pub fn both(alloc: Global) -> Result<Function, AllocError> {
    of_rules(2, and(one(alloc, true_rule(alloc)), false_rule(alloc)))
}

/// The mark of a function of that module, which is exported, has no declared
/// type and captured so many parameters.
pub fn mark(module: u32, captured: u32) -> Mark {
    Mark {
        module,
        public: true,
        declared: None,
        captured,
        place: Place {
            module: NAME,
            line: 1,
            column: 1,
        },
    }
}

/// Marks of so many functions of the first module, which captured nothing.
pub fn marks(alloc: Global, count: usize) -> Result<Vec<Mark>, AllocError> {
    let mut marks = Vec::new(alloc);
    for _ in 0..count {
        marks.push(mark(0, 0))?;
    }
    Ok(marks)
}

/// One module, which imports nothing.
pub fn modules(alloc: Global) -> Result<Vec<ModuleInfo>, AllocError> {
    one(
        alloc,
        Ok(ModuleInfo {
            name: NAME,
            imports: Vec::new(alloc),
            operators: Vec::new(alloc),
        }),
    )
}

/// The program of these parts, if they are valid.
pub fn program_of(parts: ProgramParts) -> Result<Option<Program>, AllocError> {
    if parts.valid()? {
        return Ok(Some(Program::new(parts)));
    }
    Ok(None)
}

/// The flat program of a program, or which function is too big; None for one
/// without `failed` or `==`.
pub fn lowered(alloc: Global, program: &Program) -> Option<Result<FlatProgram, LowerFault>> {
    if has_operations(program) {
        return Some(lower(alloc, program));
    }
    None
}
