//! Flat programs: the code that the machine runs. A function has one rule, and
//! all expressions stand in one list, where each names its parts by their
//! indices.
#![tactic(auto)]

ghost use Rattle.std.specs.Prelude.{◌≡◌, ◌<◌, option_map, length, IsSome, IsTrue, Some};
ghost use Rattle.cu_calculus.specs.Code.{arity_of, body_of, expr_of, kept_by};
ghost use Rattle.cu_calculus.specs.WellFormed.{is_well_formed};
ghost use Rattle.cu_flat.specs.Meaning.{body_meaning, code_of, expr_meaning};

mod arena;
mod expr;
mod laws;
mod of;
mod scope;

pub use cu_calculus::{ConId, FunId, Head, Int, Lit, Mode, Prim, Special};
pub use expr::{Expr, ExprId, FlatBody, FlatConstructor, FlatFunction, Pattern};
pub use laws::flat_programs_have_code;
use std::marker::Model;

/// An expression, and the variables that it keeps where it is a case
/// distinction: those that its branches use beside their patterns' own, in the
/// order of their binding. An expression of another form keeps none.
#[derive(Drop)]
pub struct Entry {
    pub expr: Expr,
    pub kept: Vec<u32>,
}

/// A flat program. Contracts see its code, which is well-formed: numbers are in
/// range, heads have as many arguments as they take, variables are in scope,
/// case distinctions keep what their branches use, and the built-in entities
/// are there, with the rule of `&&`. So it is the code of a valid program.
#[derive(Drop)]
pub struct FlatProgram {
    functions: Vec<FlatFunction>,
    constructors: Vec<FlatConstructor>,
    special: Special,
    entries: Vec<Entry>,
}

impl Model for FlatProgram {
    ghost use Rattle.std.specs.Prelude.{IsTrue};
    ghost use Rattle.cu_calculus.specs.Code.{Code};
    ghost use Rattle.cu_calculus.specs.WellFormed.{is_well_formed};
    ghost use Rattle.cu_flat.specs.Meaning.{code_of};

    ghost Value = { Code };

    ghost view = { λ p. code_of p.functions.items p.constructors.items p.special p.entries.items };

    ghost invariant = { λ p. IsTrue
        (is_well_formed
        (code_of p.functions.items p.constructors.items p.special p.entries.items)) };
}

impl FlatProgram {
    /// The program of these functions and constructors over these expressions.
    pub fn new(
        functions: Vec<FlatFunction>,
        constructors: Vec<FlatConstructor>,
        special: Special,
        entries: Vec<Entry>,
    ) -> FlatProgram
        requires { IsTrue
            (is_well_formed (code_of functions.items constructors.items special entries.items)) }
        ensures { result ≡ code_of functions.items constructors.items special entries.items }
    {
        FlatProgram {
            functions,
            constructors,
            special,
            entries,
        }
    }

    /// How many functions the program has.
    pub fn function_count(&self) -> usize
        ensures { result ≡ length self.now.functions }
    {
        self.functions.len()
    }

    /// How many expressions the program has.
    pub fn expr_count(&self) -> usize
        ensures { result ≡ length self.now.expressions }
    {
        self.entries.len()
    }

    /// The body of a function, where there is such a function.
    pub fn body(&self, f: FunId) -> Option<&FlatBody>
        ensures { option_map (λ body. body_meaning body.now) result ≡ body_of self.now f }
    {
        let function = self.functions.get(f.0)?;
        Some(&function.body)
    }

    /// The number of arguments that a head of the program takes.
    pub fn arity(&self, head: Head) -> u32
        requires { IsSome (arity_of self.now head) }
        ensures arity { Some result ≡ arity_of self.now head }
        ensures well_formed { IsTrue (is_well_formed self.now) }
    {
        match head {
            Head::Fun(f) => self.functions[f.0].arity,
            Head::Con(c) => self.constructors[c.0].arity,
            Head::Set(f) => self.functions[f.0].arity,
        }
    }

    /// The number of arguments that a head takes, where it is one of the
    /// program's.
    pub fn arity_if_known(&self, head: Head) -> Option<u32>
        ensures { result ≡ arity_of self.now head }
    {
        match head {
            Head::Fun(f) => Some(self.functions.get(f.0)?.arity),
            Head::Con(c) => Some(self.constructors.get(c.0)?.arity),
            Head::Set(f) => Some(self.functions.get(f.0)?.arity),
        }
    }

    /// The built-in entities of the program.
    pub fn special(&self) -> &Special
        ensures special { result.now ≡ self.now.special }
        ensures well_formed { IsTrue (is_well_formed self.now) }
    {
        &self.special
    }

    /// The expression of a number, where there is such an expression.
    pub fn find(&self, e: ExprId) -> Option<&Expr>
        ensures { option_map (λ expr. expr_meaning (kept_by self.now e) expr.now) result
            ≡ expr_of self.now e }
    {
        let entry = self.entries.get(e.0)?;
        Some(&entry.expr)
    }

    /// An expression of the program.
    pub fn expr(&self, e: ExprId) -> &Expr
        requires { e.0 < length self.now.expressions }
        ensures { Some (expr_meaning (kept_by self.now e) result.now) ≡ expr_of self.now e }
    {
        &self.entries[e.0].expr
    }

    /// The variables that a case distinction keeps, in the order of their
    /// binding. An expression of another form keeps none, and so does a number
    /// that names no expression.
    pub fn kept(&self, e: ExprId) -> &[u32]
        ensures { result.now ≡ kept_by self.now e }
    {
        match self.entries.get(e.0) {
            Some(entry) => match &entry.expr {
                Expr::Case(_, _, _) => entry.kept.as_slice(),
                _ => &[],
            },
            None => &[],
        }
    }
}
