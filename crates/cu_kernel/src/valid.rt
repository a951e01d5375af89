//! Whether parts make a valid program.
ghost use Rattle.std.specs.Prelude.{◌≡◌, ◌↔◌, IfOk, IsTrue, map};
ghost use Rattle.std.specs.List.{list_all};
ghost use Rattle.cu_calculus.specs.Valid.{external_arity, fits_function, is_arity};
ghost use Rattle.cu_kernel.specs.Heads.{heads_program};
ghost use Rattle.cu_kernel.specs.Kernel.{plain_function};
ghost use Rattle.cu_kernel.specs.KernelOf.{function_meaning, kernel_of};
ghost use Rattle.cu_kernel.specs.Tests.{has_arities};
ghost use Rattle.cu_kernel.specs.Valid.{IsValid};

use crate::declared::declarations_fit;
use crate::first_types::has_first_types;
use crate::heads::Heads;
use crate::special::has_special;
use crate::terms::rules_fit;
use crate::{Body, Function, Prim, ProgramParts};
use std::alloc::{AllocError, Global};

/// The bound below which arities are.
const ARITY_END: u32 = u32::MAX;

/// How many arguments a built-in operation takes.
pub fn external_arity(operation: Prim) -> u32
    ensures { result ≡ external_arity operation }
{
    match operation {
        Prim::Failed => 0,
        Prim::Ord => 1,
        Prim::Chr => 1,
        _ => 2,
    }
}

/// Whether a function's arity is below the bound, and its body has this arity.
fn function_fits(alloc: Global, heads: &Heads, function: &Function) -> Result<bool, AllocError>
    ensures { IfOk result (λ fits. fits
        ≡ fits_function (heads_program heads.now)
        (plain_function (function_meaning function.now))) }
{
    if function.arity >= ARITY_END {
        return Ok(false);
    }
    match &function.body {
        Body::Rules(rules) => rules_fit(alloc, heads, function.arity, rules),
        Body::External(operation) => Ok(function.arity == external_arity(*operation)),
    }
}

/// Whether all of these functions have arities below the bound, and bodies of
/// these arities.
fn functions_fit(alloc: Global, heads: &Heads, functions: &[Function]) -> Result<bool, AllocError>
    ensures { IfOk result (λ fit. fit
        ≡ list_all (fits_function (heads_program heads.now))
        (map plain_function (map function_meaning functions.now))) }
{
    for function in functions {
        if !function_fits(alloc, heads, function)? {
            return Ok(false);
        }
    }
    Ok(true)
}

/// Whether the arities of all constructors are below the bound.
#[tactic(auto, unfolding(crate::specs::Heads::heads_program))]
fn has_arities(heads: &Heads) -> bool
    ensures { result ≡ has_arities (heads_program heads.now) }
{
    for shape in &heads.constructors {
        if shape.arity >= ARITY_END as usize {
            return false;
        }
    }
    true
}

impl ProgramParts {
    /// Whether these parts make a program, which is so where all of this
    /// holds:
    ///
    /// - Functions, constructors, types, synonyms and modules that are named
    ///   are there, and the numbers of parameters and of fields are below
    ///   2^32 - 1.
    /// - A head with all its arguments has as many as it takes, in terms and
    ///   in patterns; a partial application has fewer. A built-in operation
    ///   has the number of parameters that it takes.
    /// - Each rule has a pattern for each parameter. No variable stands twice
    ///   in the patterns of one rule or of one alternative.
    /// - Each variable of a term is bound around it. A `Let` doesn't bind its
    ///   variable in its own definition, where an outer variable of the same
    ///   number may not stand either.
    /// - The types begin with the list, unit, the tuples of 2 to 15
    ///   components, `Int` and `Char`, all of the first module, which is the
    ///   Prelude. These have as many parameters, and constructors of as many
    ///   fields, as the language gives them, and `[]` and `:` are those of
    ///   the built-in entities.
    /// - The other built-in entities are there: `False`, declared before
    ///   `True`, both without fields; `&&` with its two rules or with the
    ///   case distinction that is made of them; and a constructor for the
    ///   values of set functions, of one field where one is named, which is so
    ///   wherever a set function stands.
    /// - The variables in a declared type's fields and in a synonym's body
    ///   are its parameters.
    /// - Each function has one mark, in the order of the functions, which
    ///   counts at most as many captured variables as there are parameters.
    /// - The goal's function has rules and a parameter for each of its names.
    ///
    /// Takes memory for the variables of one rule at a time, and a list of
    /// the constructors. Terms are walked by recursion. The one error is want
    /// of memory.
    pub fn valid(&self) -> Result<bool, AllocError>
        ensures { IfOk result (λ valid. IsTrue valid ↔ IsValid (kernel_of self.now)) }
    {
        let alloc = *self.types.allocator();
        let heads = Heads::new(alloc, self)?;
        if !has_first_types(&self.special, self.types.as_slice()) {
            return Ok(false);
        }
        if !has_arities(&heads) || !has_special(&heads) || !declarations_fit(self) {
            return Ok(false);
        }
        functions_fit(alloc, &heads, self.functions.as_slice())
    }
}
