//! Programs before lifting, and their joining.
ghost use Rattle.std.specs.Prelude.{◌≡◌, ◌+◌, ◌≤◌, ◌++◌, OnErr, OnOk, vec_capacity, vec_len};
ghost use Rattle.cu_kernel.specs.LocalKernel.{Follows, joined, last_special};
ghost use Rattle.cu_kernel.specs.LocalKernelOf.{local_kernel_of};
ghost use Rattle.cu_kernel.specs.LocalValid.{IsPart};

use crate::{DataType, Goal, Mark, ModuleInfo, Special, Synonym, TopFunction};
use std::alloc::AllocError;
use std::marker::Model;

/// How many data types, constructors, top-level functions, synonyms and modules
/// there are.
#[derive(Clone, Copy, Debug, PartialEq, Eq)]
pub struct Counts {
    /// The number of data types.
    pub types: usize,
    /// The number of constructors of the data types.
    pub constructors: usize,
    /// The number of top-level functions.
    pub functions: usize,
    /// The number of type synonyms.
    pub synonyms: usize,
    /// The number of modules.
    pub modules: usize,
}

/// What a program is made of before lifting.
#[derive(Drop)]
pub struct LocalParts {
    /// How many of each kind come before these parts: the first type here
    /// has the number `start.types`, and so on.
    pub start: Counts,
    /// The data types.
    pub types: Vec<DataType>,
    /// The top-level functions.
    pub functions: Vec<TopFunction>,
    /// The type synonyms.
    pub synonyms: Vec<Synonym>,
    /// The modules.
    pub modules: Vec<ModuleInfo>,
    /// A mark for each top-level function, which captures nothing.
    pub marks: Vec<Mark>,
    /// The goal, if there is one.
    pub goal: Option<Goal>,
    /// The built-in entities.
    pub special: Special,
}

/// A program whose local functions aren't lifted yet, or the modules of one
/// from some module on. All is right that can be told of these parts alone:
///
/// - Each rule has a pattern for each parameter, and the numbers of parameters
///   and of fields are below 2^32 - 1. A built-in operation has the number of
///   parameters that it takes.
/// - Local functions that are called are there. One with all its arguments has
///   as many as it has parameters, and a partial application has fewer;
///   captured variables don't count.
/// - Each variable of a top-level function is bound once in it. What a local
///   function captures is bound outside of it, and the top-level function's
///   own rules use no variable that they don't bind, by way of local functions
///   neither.
/// - No variable of a `Let` is free in its own definition, by way of local
///   functions neither.
/// - The variables of declared types and synonyms are their parameters, and
///   each top-level function has a mark, which counts no captured variables.
#[derive(Drop)]
pub struct LocalProgram {
    parts: LocalParts,
}

impl Model for LocalProgram {
    ghost use Rattle.cu_kernel.specs.LocalKernel.{LocalKernel};
    ghost use Rattle.cu_kernel.specs.LocalStored.{local_kernel_code};

    ghost Value = { LocalKernel };

    ghost coded = { local_kernel_code };

    ghost use Rattle.cu_kernel.specs.LocalKernelOf.{local_kernel_of};
    ghost use Rattle.cu_kernel.specs.LocalValid.{IsPart};

    ghost view = { λ p. local_kernel_of p.parts };

    ghost invariant = { λ p. IsPart (local_kernel_of p.parts) };
}

/// Moves all elements of the second list after those of the first, where
/// there is room for them.
fn move_after<T: Drop>(first: &mut Vec<T>, second: Vec<T>)
    requires { vec_len first.old + vec_len second ≤ vec_capacity first.old }
    ensures { first.new.items ≡ first.old.items ++ second.items }
{
    let mut rest = second;
    match first.append(&mut rest) {
        Ok(()) => {}
        Err(_) => unreachable!(),
    }
}

/// The built-in entities of the second part, with the constructor of the
/// values of set functions that the first part has where the second has none.
fn last_special(first: Special, second: Special) -> Special
    ensures { result ≡ last_special first second }
{
    match second.values {
        Some(_) => second,
        None => Special {
            values: first.values,
            ..second
        },
    }
}

impl LocalParts {
    ghost use Rattle.std.specs.Prelude.{◌≡◌, OnErr, OnOk};
    ghost use Rattle.cu_kernel.specs.LocalKernel.{joined};
    ghost use Rattle.cu_kernel.specs.LocalKernelOf.{local_kernel_of};

    /// Appends the parts of the next module. Where memory fails, these parts
    /// stay as they were.
    fn append(&mut self, next: LocalParts) -> Result<(), AllocError>
        ensures whole { OnOk result (local_kernel_of self.new
            ≡ joined (local_kernel_of self.old) (local_kernel_of next)) }
        ensures unchanged { OnErr result (local_kernel_of self.new ≡ local_kernel_of self.old) }
    {
        let LocalParts {
            start: _,
            types,
            functions,
            synonyms,
            modules,
            marks,
            goal,
            special,
        } = next;
        self.types.reserve(types.len())?;
        self.functions.reserve(functions.len())?;
        self.synonyms.reserve(synonyms.len())?;
        self.modules.reserve(modules.len())?;
        self.marks.reserve(marks.len())?;
        move_after(&mut self.types, types);
        move_after(&mut self.functions, functions);
        move_after(&mut self.synonyms, synonyms);
        move_after(&mut self.modules, modules);
        move_after(&mut self.marks, marks);
        if goal.is_some() {
            self.goal = goal;
        }
        self.special = last_special(self.special, special);
        Ok(())
    }
}

impl LocalProgram {
    /// The program of these parts, which are right as far as can be told of
    /// them alone.
    pub fn new(parts: LocalParts) -> LocalProgram
        requires { IsPart (local_kernel_of parts) }
        ensures { result ≡ local_kernel_of parts }
    {
        LocalProgram { parts }
    }

    /// The program's parts, to be read.
    pub fn parts(&self) -> &LocalParts
        ensures parts { local_kernel_of result.now ≡ self.now }
        ensures right { IsPart self.now }
    {
        &self.parts
    }

    /// The program's parts, to be taken.
    pub fn into_parts(self) -> LocalParts
        ensures parts { local_kernel_of result ≡ self }
        ensures right { IsPart self }
    {
        self.parts
    }

    /// Appends the parts of the next module, whose numbers follow these. The
    /// whole has the next part's goal, where that has one, and its built-in
    /// entities; but the constructor of the values of set functions stays once
    /// a part has it. The one error is an allocation failure, and the program
    /// is then as it was.
    pub fn join(&mut self, next: LocalProgram) -> Result<(), AllocError>
        requires { Follows self.old next }
        ensures whole { OnOk result (self.new ≡ joined self.old next) }
        ensures unchanged { OnErr result (self.new ≡ self.old) }
    {
        self.parts.append(next.parts)
    }
}
