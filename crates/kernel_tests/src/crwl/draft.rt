//! Terms, values and steps, written one by one.

use super::sample::{PAIR, VALUES, sample};
use cu_crwl::{Claim, Claims, Proof, Statement, Step, checks};
use cu_kernel::{ConId, FunId, Head, Int, Lit, Mode, Pattern, Term};
use cu_values::Value;
use samples::{CONS, FALSE, NIL, TRUE};
use std::alloc::{AllocError, Global};
use std::process::Abort;

/// A term, if there was memory for it.
pub(crate) type Made = Result<Term, AllocError>;

/// A value, if there was memory for it.
pub(crate) type Worth = Result<Value, AllocError>;

pub(crate) fn int(number: Int) -> Made {
    Ok(Term::Lit(Lit::Int(number)))
}

pub(crate) fn letter(character: char) -> Made {
    Ok(Term::Lit(Lit::Char(character)))
}

pub(crate) fn variable(x: u32) -> Made {
    Ok(Term::Var(x))
}

pub(crate) fn constant(alloc: Global, head: Head) -> Made {
    Ok(Term::Whole(head, Vec::new(alloc)))
}

/// Two terms in order.
fn two_terms(alloc: Global, first: Made, second: Made) -> Result<Vec<Term>, AllocError> {
    let mut terms = Vec::new(alloc);
    push_term(&mut terms, first)?;
    push_term(&mut terms, second)?;
    Ok(terms)
}

fn push_term(terms: &mut Vec<Term>, term: Made) -> Result<(), AllocError> {
    terms.push(term?)?;
    Ok(())
}

pub(crate) fn on_one(alloc: Global, head: Head, argument: Made) -> Made {
    Ok(Term::Whole(head, vec![in alloc; argument?]?))
}

pub(crate) fn on_two(alloc: Global, head: Head, first: Made, second: Made) -> Made {
    Ok(Term::Whole(head, two_terms(alloc, first, second)?))
}

pub(crate) fn part(alloc: Global, head: Head) -> Made {
    Ok(Term::Part(head, Vec::new(alloc)))
}

pub(crate) fn part_on_one(alloc: Global, head: Head, argument: Made) -> Made {
    Ok(Term::Part(head, vec![in alloc; argument?]?))
}

fn boxed(alloc: Global, term: Made) -> Result<Box<Term>, AllocError> {
    Ok(Box::new(alloc, term?)?)
}

fn both_boxed(
    alloc: Global,
    first: Made,
    second: Made,
) -> Result<(Box<Term>, Box<Term>), AllocError> {
    let first = boxed(alloc, first)?;
    Ok((first, boxed(alloc, second)?))
}

/// A function applied to an argument.
pub(crate) fn apply(alloc: Global, function: Made, argument: Made) -> Made {
    let (function, argument) = both_boxed(alloc, function, argument)?;
    Ok(Term::Apply(function, argument))
}

/// `let x = a in b`
pub(crate) fn let_in(alloc: Global, x: u32, definition: Made, body: Made) -> Made {
    let (definition, body) = both_boxed(alloc, definition, body)?;
    Ok(Term::Let(x, definition, body))
}

/// `let x free in b`
pub(crate) fn free_in(alloc: Global, x: u32, body: Made) -> Made {
    Ok(Term::Free(x, boxed(alloc, body)?))
}

/// `a ? b`
pub(crate) fn or(alloc: Global, left: Made, right: Made) -> Made {
    let (left, right) = both_boxed(alloc, left, right)?;
    Ok(Term::Or(left, right))
}

/// Alternatives of a case distinction.
pub(crate) type Rows = Result<Vec<(Pattern, Term)>, AllocError>;

/// `case a of` these alternatives.
pub(crate) fn case(alloc: Global, scrutinee: Made, rows: Rows) -> Made {
    let scrutinee = boxed(alloc, scrutinee)?;
    Ok(Term::Case(Mode::Flex, scrutinee, rows?))
}

/// The pair of two numbers, as a term.
pub(crate) fn pair(alloc: Global, first: Int, second: Int) -> Made {
    on_two(alloc, Head::Con(PAIR), int(first), int(second))
}

/// The value of which nothing is known.
pub(crate) fn unknown(alloc: Global) -> Worth {
    Value::bottom(alloc)
}

pub(crate) fn number(alloc: Global, number: Int) -> Worth {
    Value::literal(alloc, Lit::Int(number))
}

pub(crate) fn character(alloc: Global, character: char) -> Worth {
    Value::literal(alloc, Lit::Char(character))
}

pub(crate) fn constructed(alloc: Global, constructor: ConId) -> Worth {
    Value::constructed(alloc, constructor, &[])
}

pub(crate) fn truth(alloc: Global, holds: bool) -> Worth {
    constructed(alloc, if holds { TRUE } else { FALSE })
}

pub(crate) fn one_value(alloc: Global, constructor: ConId, argument: Worth) -> Worth {
    Value::constructed(alloc, constructor, &[argument?])
}

pub(crate) fn two_values(alloc: Global, constructor: ConId, first: Worth, second: Worth) -> Worth {
    Value::constructed(alloc, constructor, &[first?, second?])
}

pub(crate) fn partial(alloc: Global, head: Head) -> Worth {
    Value::partial(alloc, head, &[])
}

pub(crate) fn partial_on_one(alloc: Global, head: Head, argument: Worth) -> Worth {
    Value::partial(alloc, head, &[argument?])
}

pub(crate) fn partial_on_two(alloc: Global, head: Head, first: Worth, second: Worth) -> Worth {
    Value::partial(alloc, head, &[first?, second?])
}

/// The pair of two values.
pub(crate) fn pair_of(alloc: Global, first: Worth, second: Worth) -> Worth {
    two_values(alloc, PAIR, first, second)
}

/// The list of these numbers and then the elements of another list.
pub(crate) fn list_before(alloc: Global, numbers: &[Int], rest: Worth) -> Worth {
    let mut list = rest;
    for n in numbers.iter().rev() {
        list = two_values(alloc, CONS, number(alloc, *n), list);
    }
    list
}

/// The list of these numbers.
pub(crate) fn list(alloc: Global, numbers: &[Int]) -> Worth {
    list_before(alloc, numbers, constructed(alloc, NIL))
}

/// Variables and their values.
pub(crate) type Bindings = Result<Vec<(u32, Value)>, AllocError>;

pub(crate) fn one_binding(alloc: Global, x: u32, value: Worth) -> Bindings {
    let mut bindings = Vec::new(alloc);
    push_binding(&mut bindings, x, value)?;
    Ok(bindings)
}

pub(crate) fn two_bindings(alloc: Global, x: u32, first: Worth, y: u32, second: Worth) -> Bindings {
    let mut bindings = one_binding(alloc, x, first)?;
    push_binding(&mut bindings, y, second)?;
    Ok(bindings)
}

fn push_binding(bindings: &mut Vec<(u32, Value)>, x: u32, value: Worth) -> Result<(), AllocError> {
    bindings.push((x, value?))?;
    Ok(())
}

/// A proof and its claims, while they are written. An allocation failure is
/// kept for the end.
#[derive(Drop)]
pub(crate) struct Draft {
    alloc: Global,
    claims: Vec<Claim>,
    steps: Vec<Step>,
    fault: Option<AllocError>,
}

fn statement(env: Bindings, term: Made, value: Worth) -> Result<Statement, AllocError> {
    Ok(Statement {
        env: env?,
        term: term?,
        value: value?,
    })
}

fn push_step(
    alloc: Global,
    steps: &mut Vec<Step>,
    cites: &[usize],
    statement: Result<Statement, AllocError>,
) -> Result<(), AllocError> {
    let statement = statement?;
    let cites = Vec::from_slice(alloc, cites)?;
    steps.push(Step { cites, statement })?;
    Ok(())
}

fn push_claim(
    claims: &mut Vec<Claim>,
    function: FunId,
    arguments: Result<Vec<Value>, AllocError>,
    values: Result<Vec<Value>, AllocError>,
) -> Result<(), AllocError> {
    claims.push(Claim {
        function,
        arguments: arguments?,
        values: values?,
    })?;
    Ok(())
}

impl Draft {
    pub(crate) fn new(alloc: Global) -> Draft {
        Draft {
            alloc,
            claims: Vec::new(alloc),
            steps: Vec::new(alloc),
            fault: None,
        }
    }

    fn keep(&mut self, written: Result<(), AllocError>) {
        if let Err(fault) = written {
            self.fault = Some(fault);
        }
    }

    /// Adds a step in which variables stand for something, and answers its
    /// index, by which later steps cite it.
    pub(crate) fn step_with(
        &mut self,
        env: Bindings,
        cites: &[usize],
        term: Made,
        value: Worth,
    ) -> usize {
        let alloc = self.alloc;
        let index = self.steps.len();
        let written = push_step(alloc, &mut self.steps, cites, statement(env, term, value));
        self.keep(written);
        index
    }

    /// Adds a step without variables, and answers its index.
    pub(crate) fn step(&mut self, cites: &[usize], term: Made, value: Worth) -> usize {
        let alloc = self.alloc;
        self.step_with(Ok(Vec::new(alloc)), cites, term, value)
    }

    /// Adds the step that a number is worth itself, and answers its index.
    pub(crate) fn int(&mut self, n: Int) -> usize {
        let alloc = self.alloc;
        self.step(&[], int(n), number(alloc, n))
    }

    /// Adds the step that the variable 0, which stands for a number, is worth
    /// it, and answers its index.
    pub(crate) fn use_of_zero(&mut self, n: Int) -> usize {
        let alloc = self.alloc;
        self.step_with(
            one_binding(alloc, 0, number(alloc, n)),
            &[],
            variable(0),
            number(alloc, n),
        )
    }

    /// Adds the step that a pair of numbers is worth itself, and answers its
    /// index.
    pub(crate) fn pair(&mut self, cites: &[usize], numbers: (Int, Int)) -> usize {
        let alloc = self.alloc;
        let value = pair_of(alloc, number(alloc, numbers.0), number(alloc, numbers.1));
        self.step(cites, pair(alloc, numbers.0, numbers.1), value)
    }

    /// Adds the step that a list of one number is worth itself, and answers its
    /// index.
    pub(crate) fn short_list(&mut self, cites: &[usize], n: Int) -> usize {
        let alloc = self.alloc;
        let nil = constant(alloc, Head::Con(NIL));
        let term = on_two(alloc, Head::Con(CONS), int(n), nil);
        self.step(cites, term, list(alloc, &[n]))
    }

    /// The claim that a function on arguments has these values and no others.
    pub(crate) fn claim(
        &mut self,
        function: FunId,
        arguments: Result<Vec<Value>, AllocError>,
        values: Result<Vec<Value>, AllocError>,
    ) {
        let written = push_claim(&mut self.claims, function, arguments, values);
        self.keep(written);
    }

    /// The proof and its claims.
    pub(crate) fn finish<R: Abort>(self, rt: &R) -> Result<(Claims, Proof), AllocError> {
        if let Some(fault) = self.fault {
            return Err(fault);
        }
        assert!(rt; !self.steps.is_empty());
        Ok((Claims { rows: self.claims }, Proof::new(self.steps)))
    }
}

/// What the checker says of a proof over the sample program, which has set
/// functions where it has a constructor of their values.
fn verdict<R: Abort>(rt: &R, values: Option<ConId>, draft: Draft) -> Result<bool, AllocError> {
    let alloc = draft.alloc;
    let (claims, proof) = draft.finish(rt)?;
    let program = sample(rt, alloc, values)?;
    checks(alloc, &program, &claims, &proof)
}

/// Expects that a proof is accepted, or that it is refused.
pub(crate) fn expect<R: Abort>(rt: &R, accepted: bool, draft: Draft) {
    assert_eq!(rt; verdict(rt, Some(VALUES), draft).ok(), Some(accepted));
}

/// Expects that a proof is accepted, or that it is refused, where the program
/// has no set functions.
pub(crate) fn expect_without_sets<R: Abort>(rt: &R, accepted: bool, draft: Draft) {
    assert_eq!(rt; verdict(rt, None, draft).ok(), Some(accepted));
}
