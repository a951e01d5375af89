//! Kernel programs as lines. A head with all its arguments is `f(a,b)`, one that
//! lacks some is `f[a]`, a set function is `set f(a)`, and `(f @ a)` applies one
//! term to another.
use cu_kernel::{Body, ConId, FunId, Head, Lit, Mode, Pattern, Program, Rule, Term};
use cu_names::{NameId, Names};
use std::alloc::{AllocError, Global};

/// The most parts of a line.
const MAX_PARTS: usize = 10_000;

/// A part of a line that is still to be written.
#[derive(Clone, Copy)]
enum Part<'a> {
    Text(&'static str),
    Name(NameId),
    Variable(u32),
    Literal(Lit),
    Head(Head),
    Pattern(&'a Pattern),
    Term(&'a Term),
}

/// A line that is being written. The parts that are left are a stack, the next
/// one last.
#[derive(Drop)]
struct Writer<'a> {
    program: &'a Program,
    names: &'a Names,
    parts: Vec<Part<'a>>,
    line: String,
}

impl<'a> Writer<'a> {
    fn named(&mut self, name: NameId) -> Result<(), AllocError> {
        if name.0 < self.names.count() {
            self.line.push_str(self.names.text(name))?;
        }
        Ok(())
    }

    fn function(&mut self, id: FunId) -> Result<(), AllocError> {
        match self.program.functions().get(id.0) {
            Some(function) => self.named(function.name),
            None => Ok(()),
        }
    }

    fn constructor(&mut self, id: ConId) -> Result<(), AllocError> {
        match self.program.constructor(id) {
            Some(found) => self.named(found.constructor.name),
            None => Ok(()),
        }
    }

    fn head(&mut self, head: Head) -> Result<(), AllocError> {
        match head {
            Head::Fun(id) => self.function(id),
            Head::Con(id) => self.constructor(id),
            Head::Set(id) => {
                self.line.push_str("set ")?;
                self.function(id)
            }
        }
    }

    fn literal(&mut self, literal: Lit) -> Result<(), AllocError> {
        let alloc = *self.parts.allocator();
        let text = match literal {
            Lit::Int(n) => format!(in alloc; "{n}")?,
            Lit::Char(c) => format!(in alloc; "'{c}'")?,
        };
        self.line.push_str(text.as_str())
    }

    fn variable(&mut self, number: u32) -> Result<(), AllocError> {
        let text = format!(in *self.parts.allocator(); "x{number}")?;
        self.line.push_str(text.as_str())
    }

    /// Adds parts, of which the first is to be written first.
    fn add(&mut self, parts: &[Part<'a>]) -> Result<(), AllocError> {
        for part in parts.iter().rev() {
            self.parts.push(*part)?;
        }
        Ok(())
    }

    /// Terms between brackets.
    fn add_terms(
        &mut self,
        open: &'static str,
        terms: &'a [Term],
        close: &'static str,
    ) -> Result<(), AllocError> {
        self.parts.push(Part::Text(close))?;
        for (place, term) in terms.iter().enumerate().rev() {
            self.parts.push(Part::Term(term))?;
            self.parts
                .push(Part::Text(if place == 0 { open } else { "," }))?;
        }
        Ok(())
    }

    /// Alternatives between braces.
    fn add_alternatives(&mut self, alternatives: &'a [(Pattern, Term)]) -> Result<(), AllocError> {
        self.parts.push(Part::Text("}"))?;
        for (place, alternative) in alternatives.iter().enumerate().rev() {
            let before = Part::Text(if place == 0 { " of {" } else { "; " });
            let arrow = Part::Text(" -> ");
            self.add(&[
                before,
                Part::Pattern(&alternative.0),
                arrow,
                Part::Term(&alternative.1),
            ])?;
        }
        Ok(())
    }

    fn pattern(&mut self, pattern: &'a Pattern) -> Result<(), AllocError> {
        match pattern {
            Pattern::Var(x) => self.variable(*x),
            Pattern::Lit(literal) => self.literal(*literal),
            Pattern::Alias(x, whole) => {
                self.add(&[Part::Variable(*x), Part::Text("@"), Part::Pattern(whole)])
            }
            Pattern::Con(constructor, parts) => {
                if parts.is_empty() {
                    return self.constructor(*constructor);
                }
                self.parts.push(Part::Text(")"))?;
                for (place, part) in parts.iter().enumerate().rev() {
                    self.parts.push(Part::Pattern(part))?;
                    self.parts
                        .push(Part::Text(if place == 0 { "(" } else { "," }))?;
                }
                self.parts.push(Part::Head(Head::Con(*constructor)))?;
                Ok(())
            }
        }
    }

    fn term(&mut self, term: &'a Term) -> Result<(), AllocError> {
        match term {
            Term::Var(x) => self.variable(*x),
            Term::Lit(literal) => self.literal(*literal),
            Term::Whole(head, terms) => {
                if terms.is_empty() {
                    return self.head(*head);
                }
                self.add_terms("(", terms.as_slice(), ")")?;
                self.parts.push(Part::Head(*head))?;
                Ok(())
            }
            Term::Part(head, terms) => {
                if terms.is_empty() {
                    return self.add(&[Part::Head(*head), Part::Text("[]")]);
                }
                self.add_terms("[", terms.as_slice(), "]")?;
                self.parts.push(Part::Head(*head))?;
                Ok(())
            }
            Term::Apply(function, argument) => self.add(&[
                Part::Text("("),
                Part::Term(function),
                Part::Text(" @ "),
                Part::Term(argument),
                Part::Text(")"),
            ]),
            Term::Let(x, bound, body) => self.add(&[
                Part::Text("let "),
                Part::Variable(*x),
                Part::Text(" = "),
                Part::Term(bound),
                Part::Text(" in "),
                Part::Term(body),
            ]),
            Term::Free(x, body) => self.add(&[
                Part::Text("free "),
                Part::Variable(*x),
                Part::Text(" in "),
                Part::Term(body),
            ]),
            Term::Or(left, right) => self.add(&[
                Part::Text("("),
                Part::Term(left),
                Part::Text(" or "),
                Part::Term(right),
                Part::Text(")"),
            ]),
            Term::Case(mode, scrutinee, alternatives) => {
                self.add_alternatives(alternatives.as_slice())?;
                self.parts.push(Part::Term(scrutinee))?;
                self.parts.push(Part::Text(match mode {
                    Mode::Rigid => "case ",
                    Mode::Flex => "fcase ",
                }))?;
                Ok(())
            }
        }
    }

    /// Writes the next part, or adds what it is made of.
    fn write(&mut self, part: Part<'a>) -> Result<(), AllocError> {
        match part {
            Part::Text(text) => self.line.push_str(text),
            Part::Name(name) => self.named(name),
            Part::Variable(x) => self.variable(x),
            Part::Literal(literal) => self.literal(literal),
            Part::Head(head) => self.head(head),
            Part::Pattern(pattern) => self.pattern(pattern),
            Part::Term(term) => self.term(term),
        }
    }

    /// Writes all parts.
    fn finish(mut self) -> Result<String, AllocError> {
        for _ in 0..MAX_PARTS {
            match self.parts.pop() {
                Some(part) => self.write(part)?,
                None => return Ok(self.line),
            }
        }
        Err(AllocError)
    }

    /// A rule of a function of this name.
    fn rule(mut self, name: NameId, rule: &'a Rule) -> Result<String, AllocError> {
        self.add(&[Part::Text(" = "), Part::Term(&rule.body)])?;
        for pattern in rule.params.iter().rev() {
            self.add(&[Part::Text(" "), Part::Pattern(pattern)])?;
        }
        self.parts.push(Part::Name(name))?;
        self.finish()
    }
}

/// A line for each rule of the functions of the last module, and of the goal.
pub(crate) fn lines(alloc: Global, program: &Program, names: &Names) -> Result<String, AllocError> {
    let mut text = String::new(alloc);
    let count = program.modules().len();
    for (function, mark) in program.functions().iter().zip(program.marks()) {
        let Body::Rules(rules) = &function.body else {
            continue;
        };
        if (mark.module as usize).checked_add(1) != Some(count) {
            continue;
        }
        for rule in rules {
            let writer = Writer {
                program,
                names,
                parts: Vec::new(alloc),
                line: String::new(alloc),
            };
            let line = writer.rule(function.name, rule)?;
            text.push_str(line.as_str())?;
            text.push('\n')?;
        }
    }
    Ok(text)
}
