//! Kernel programs that are written as lines of words, in Polish notation. A
//! line is read from its right end: each word takes what its operands to the
//! right gave.
//!
//! - Terms are `x0` for a variable, `1` and `'a` for literals, `f` or `True`
//!   for a head without arguments, `f/2 .. ..` for one with all its
//!   arguments, `f~1 ..` for a partial application and `$f/1 ..` for a set
//!   function, `apply a b`, `let/0 a b` for `let x0 = a in b`, `free/0 a`,
//!   `or a b`, and `case/2 a .. b .. c` for the rigid case distinction on `a`
//!   with two alternatives, `fcase/2` for the flexible one.
//! - Patterns begin with a dot: `.x0`, `.1`, `.'a`, `.True`, `.Cons/2 .. ..`,
//!   and `.as/0 ..` for `x0@..`.
//! - Types begin with a colon: `:0` for a variable, `:-> a b`, `:Int`,
//!   `:List/1 ..`.
//! - `rule/1 p a` is a rule of one parameter. `fun/1` is a function of one
//!   parameter with the rules after it; a type in between is its declared
//!   one, `local/1` says that it captured one of its parameters, and `goal`
//!   that it is the goal.

use crate::sample_types::{
    BEFORE, CONSTRUCTORS, ENTITIES, FUNCTIONS, SYNONYMS, TYPES, synonyms, types,
};
use cu_kernel::{
    Body, ConId, FunId, Function, Goal, Head, Int, Lit, Mark, Mode, Pattern, Prim, Program,
    ProgramParts, Rule, SynonymId, Term, TypeId, TypeName, TypeTerm,
};
use samples::{NAME, both, external, modules, program_of};
use std::alloc::Global;

/// The operations that are built in, and how many parameters they have.
const OPERATIONS: [(Prim, u32); 15] = [
    (Prim::Add, 2),
    (Prim::Sub, 2),
    (Prim::Mul, 2),
    (Prim::Div, 2),
    (Prim::Mod, 2),
    (Prim::Less, 2),
    (Prim::AtMost, 2),
    (Prim::Greater, 2),
    (Prim::AtLeast, 2),
    (Prim::Equal, 2),
    (Prim::Unify, 2),
    (Prim::And, 2),
    (Prim::Ord, 1),
    (Prim::Chr, 1),
    (Prim::Failed, 0),
];

/// What was read and not taken yet.
#[derive(Drop)]
struct Draft {
    alloc: Global,
    terms: Vec<Term>,
    patterns: Vec<Pattern>,
    types: Vec<TypeTerm>,
    rules: Vec<Rule>,
    captured: u32,
    is_goal: bool,
    functions: Vec<Function>,
    marks: Vec<Mark>,
    /// How many parameters the goal has, and how many functions stand from
    /// there on.
    goal: Option<(u32, usize)>,
}

/// The index of a name in a list.
fn place_in(names: &[&str], name: &str) -> Option<usize> {
    for (place, own) in names.iter().enumerate() {
        if *own == name {
            return Some(place);
        }
    }
    None
}

/// A constructor or a function, by its name.
fn plain_head(name: &str) -> Option<Head> {
    match place_in(&CONSTRUCTORS, name) {
        Some(place) => Some(Head::Con(ConId(place))),
        None => Some(Head::Fun(FunId(place_in(&FUNCTIONS, name)?))),
    }
}

/// What stands at the top of a term, by its name.
fn head_of(name: &str) -> Option<Head> {
    match name.strip_prefix('$') {
        Some(rest) => Some(Head::Set(FunId(place_in(&FUNCTIONS, rest)?))),
        None => plain_head(name),
    }
}

/// What a type's name stands for.
fn type_of(name: &str) -> Option<TypeName> {
    match place_in(&TYPES, name) {
        Some(place) => Some(TypeName::Data(TypeId(place))),
        None => Some(TypeName::Synonym(SynonymId(place_in(&SYNONYMS, name)?))),
    }
}

fn literal(word: &str) -> Option<Lit> {
    match word.strip_prefix('\'') {
        Some(rest) => Some(Lit::Char(rest.chars().next()?)),
        None => Some(Lit::Int(word.parse::<Int>().ok()?)),
    }
}

/// The number of a variable.
fn variable(word: &str) -> Option<u32> {
    word.strip_prefix('x')?.parse::<u32>().ok()
}

/// A name, and how many operands it has.
fn counted(word: &str) -> Option<(&str, u32)> {
    let (name, count) = word.split_once('/')?;
    Some((name, count.parse::<u32>().ok()?))
}

/// So many of what was read last, the last one first.
fn take<T: Drop>(alloc: Global, found: &mut Vec<T>, count: u32) -> Option<Vec<T>> {
    let mut taken = Vec::new(alloc);
    for _ in 0..count {
        taken.push(found.pop()?).ok()?;
    }
    Some(taken)
}

/// A mark of a function.
pub(crate) fn mark(declared: Option<TypeTerm>, captured: u32) -> Mark {
    let mut mark = samples::mark(0, captured);
    mark.declared = declared;
    mark
}

impl Draft {
    fn new(alloc: Global) -> Draft {
        Draft {
            alloc,
            terms: Vec::new(alloc),
            patterns: Vec::new(alloc),
            types: Vec::new(alloc),
            rules: Vec::new(alloc),
            captured: 0,
            is_goal: false,
            functions: Vec::new(alloc),
            marks: Vec::new(alloc),
            goal: None,
        }
    }

    fn boxed_term(&mut self) -> Option<Box<Term>> {
        let term = self.terms.pop()?;
        Box::new(self.alloc, term).ok()
    }

    fn boxed_type(&mut self) -> Option<Box<TypeTerm>> {
        let term = self.types.pop()?;
        Box::new(self.alloc, term).ok()
    }

    fn apply(&mut self) -> Option<Term> {
        let function = self.boxed_term()?;
        Some(Term::Apply(function, self.boxed_term()?))
    }

    fn or(&mut self) -> Option<Term> {
        let left = self.boxed_term()?;
        Some(Term::Or(left, self.boxed_term()?))
    }

    fn bind(&mut self, x: u32) -> Option<Term> {
        let bound = self.boxed_term()?;
        Some(Term::Let(x, bound, self.boxed_term()?))
    }

    fn row(&mut self) -> Option<(Pattern, Term)> {
        let pattern = self.patterns.pop()?;
        Some((pattern, self.terms.pop()?))
    }

    fn cases(&mut self, mode: Mode, count: u32) -> Option<Term> {
        let scrutinee = self.boxed_term()?;
        let mut rows = Vec::new(self.alloc);
        for _ in 0..count {
            rows.push(self.row()?).ok()?;
        }
        Some(Term::Case(mode, scrutinee, rows))
    }

    fn part(&mut self, name: &str, count: &str) -> Option<Term> {
        let head = head_of(name)?;
        let count = count.parse::<u32>().ok()?;
        Some(Term::Part(head, take(self.alloc, &mut self.terms, count)?))
    }

    /// A head with all its arguments, or a form that has a number.
    fn form(&mut self, name: &str, number: u32) -> Option<Term> {
        match name {
            "let" => self.bind(number),
            "free" => Some(Term::Free(number, self.boxed_term()?)),
            "case" => self.cases(Mode::Rigid, number),
            "fcase" => self.cases(Mode::Flex, number),
            _ => {
                let head = head_of(name)?;
                Some(Term::Whole(head, take(self.alloc, &mut self.terms, number)?))
            }
        }
    }

    /// A variable, a literal, or a head without arguments.
    fn leaf(&self, word: &str) -> Option<Term> {
        if let Some(x) = variable(word) {
            return Some(Term::Var(x));
        }
        match literal(word) {
            Some(literal) => Some(Term::Lit(literal)),
            None => Some(Term::Whole(head_of(word)?, Vec::new(self.alloc))),
        }
    }

    fn term(&mut self, word: &str) -> Option<Term> {
        if let Some((name, number)) = counted(word) {
            return self.form(name, number);
        }
        if let Some((name, count)) = word.split_once('~') {
            return self.part(name, count);
        }
        match word {
            "apply" => self.apply(),
            "or" => self.or(),
            _ => self.leaf(word),
        }
    }

    fn alias(&mut self, x: u32) -> Option<Pattern> {
        let pattern = self.patterns.pop()?;
        Some(Pattern::Alias(x, Box::new(self.alloc, pattern).ok()?))
    }

    fn built(&mut self, name: &str, count: u32) -> Option<Pattern> {
        let constructor = ConId(place_in(&CONSTRUCTORS, name)?);
        let parts = take(self.alloc, &mut self.patterns, count)?;
        Some(Pattern::Con(constructor, parts))
    }

    fn pattern(&mut self, word: &str) -> Option<Pattern> {
        if let Some(x) = variable(word) {
            return Some(Pattern::Var(x));
        }
        if let Some(literal) = literal(word) {
            return Some(Pattern::Lit(literal));
        }
        match counted(word) {
            Some(("as", x)) => self.alias(x),
            Some((name, count)) => self.built(name, count),
            None => self.built(word, 0),
        }
    }

    fn arrow(&mut self) -> Option<TypeTerm> {
        let argument = self.boxed_type()?;
        Some(TypeTerm::Arrow(argument, self.boxed_type()?))
    }

    fn named(&mut self, name: &str, count: u32) -> Option<TypeTerm> {
        let name = type_of(name)?;
        Some(TypeTerm::Named(name, take(self.alloc, &mut self.types, count)?))
    }

    fn declared(&mut self, word: &str) -> Option<TypeTerm> {
        if word == "->" {
            return self.arrow();
        }
        if let Ok(x) = word.parse::<u32>() {
            return Some(TypeTerm::Var(x));
        }
        match counted(word) {
            Some((name, count)) => self.named(name, count),
            None => self.named(word, 0),
        }
    }

    fn rule(&mut self, count: u32) -> Option<Rule> {
        let params = take(self.alloc, &mut self.patterns, count)?;
        let body = self.terms.pop()?;
        Some(Rule { params, body })
    }

    /// The rules that were read, in order.
    fn body(&mut self) -> Option<Body> {
        let mut rules = Vec::new(self.alloc);
        for _ in 0..self.rules.len() {
            rules.push(self.rules.pop()?).ok()?;
        }
        Some(Body::Rules(rules))
    }

    fn function(&mut self, arity: u32) -> Option<()> {
        let body = self.body()?;
        let declared = self.types.pop();
        self.marks.push(mark(declared, self.captured)).ok()?;
        let function = Function {
            name: NAME,
            arity,
            body,
        };
        self.functions.push(function).ok()?;
        if self.is_goal {
            self.goal = Some((arity, self.functions.len()));
        }
        self.captured = 0;
        self.is_goal = false;
        Some(())
    }

    fn word(&mut self, word: &str) -> Option<()> {
        if let Some(rest) = word.strip_prefix('.') {
            let pattern = self.pattern(rest)?;
            return self.patterns.push(pattern).ok();
        }
        if let Some(rest) = word.strip_prefix(':') {
            let declared = self.declared(rest)?;
            return self.types.push(declared).ok();
        }
        match counted(word) {
            Some(("fun", arity)) => self.function(arity),
            Some(("rule", count)) => {
                let rule = self.rule(count)?;
                self.rules.push(rule).ok()
            }
            Some(("local", count)) => {
                self.captured = count;
                Some(())
            }
            _ => self.other_word(word),
        }
    }

    fn other_word(&mut self, word: &str) -> Option<()> {
        if word == "goal" {
            self.is_goal = true;
            return Some(());
        }
        let term = self.term(word)?;
        self.terms.push(term).ok()
    }

    fn read(&mut self, line: &str) -> Option<()> {
        for word in line.rsplit(' ') {
            self.word(word)?;
        }
        Some(())
    }
}

/// What was read of a line.
fn read_line(alloc: Global, line: &str) -> Option<Draft> {
    let mut read = Draft::new(alloc);
    read.read(line)?;
    Some(read)
}

/// `&&`, and the operations that are built in.
fn first_functions(alloc: Global) -> Option<Vec<Function>> {
    let mut functions = Vec::new(alloc);
    functions.push(both(alloc).ok()?).ok()?;
    for (operation, arity) in &OPERATIONS {
        functions.push(external(*arity, *operation)).ok()?;
    }
    Some(functions)
}

/// `&&`, the operations that are built in, and the functions that were read.
fn functions(alloc: Global, read: &mut Draft) -> Option<Vec<Function>> {
    let mut functions = first_functions(alloc)?;
    for _ in 0..read.functions.len() {
        functions.push(read.functions.pop()?).ok()?;
    }
    Some(functions)
}

/// The marks of all functions.
fn marks(alloc: Global, read: &mut Draft) -> Option<Vec<Mark>> {
    let mut marks = Vec::new(alloc);
    for _ in 0..BEFORE {
        marks.push(mark(None, 0)).ok()?;
    }
    for _ in 0..read.marks.len() {
        marks.push(read.marks.pop()?).ok()?;
    }
    Some(marks)
}

/// The goal, where there is one, of so many functions.
fn goal(alloc: Global, found: Option<(u32, usize)>, count: usize) -> Option<Option<Goal>> {
    let Some((arity, from)) = found else {
        return Some(None);
    };
    let mut names = Vec::new(alloc);
    for _ in 0..arity {
        names.push(NAME).ok()?;
    }
    let function = FunId(count.checked_sub(from)?);
    Some(Some(Goal { function, names }))
}

/// The parts of the program of a line, after `&&` and the operations that are
/// built in.
pub(crate) fn parts(alloc: Global, line: &str) -> Option<ProgramParts> {
    let mut read = read_line(alloc, line)?;
    let functions = functions(alloc, &mut read)?;
    let goal = goal(alloc, read.goal, functions.len())?;
    Some(ProgramParts {
        types: types(alloc).ok()?,
        functions,
        synonyms: synonyms(alloc).ok()?,
        modules: modules(alloc).ok()?,
        marks: marks(alloc, &mut read)?,
        goal,
        special: ENTITIES,
    })
}

/// The program of a line after `&&` and the operations that are built in,
/// where the line can be read and the program is valid.
pub(crate) fn program(alloc: Global, line: &str) -> Option<Program> {
    program_of(parts(alloc, line)?).ok()?
}
