//! Programs before lifting whose parts are all joined: whether all that they
//! name is there.
ghost use Rattle.std.specs.Prelude.{◌≡◌, ◌&&◌, ◌↔◌, IfOk, IsTrue, map, slice_get};
ghost use Rattle.std.specs.List.{list_all};
ghost use Rattle.cu_kernel.specs.FirstTypes.{has_first_types};
ghost use Rattle.cu_kernel.specs.Heads as table;
ghost use Rattle.cu_kernel.specs.LocalKernelOf.{local_kernel_of, top_function_meaning};
ghost use Rattle.cu_kernel.specs.LocalValid.{IsJoined, function_fits, heads_program};
ghost use Rattle.cu_parts.specs.Inside.Joining.{begins, heads_fit, names_fit};
ghost use Rattle.cu_parts.specs.Inside.LocalConjunction.{has_entities, has_values, is_local_both};

use crate::conjunction::is_conjunction;
use crate::heads::{Known, builds};
use crate::program_heads::heads_of;
use crate::scoped::all_rules_pass;
use crate::type_names::{
    goal_fits, local_signatures_fit, marks_are_placed, synonyms_are_placed, types_are_placed,
};
use cu_kernel::{
    ConId, Counts, Heads, LocalParts, LocalProgram, Special, TopFunction, has_first_types, shapes,
};
use std::alloc::{AllocError, Global};

/// Whether the numbers of a part begin with 0, since nothing comes before it.
fn begins(start: &Counts) -> bool
    ensures { result ≡ begins start.now }
{
    start.types == 0
        && start.constructors == 0
        && start.functions == 0
        && start.synonyms == 0
        && start.modules == 0
}

/// Whether what stands beside the functions names what is there.
fn names_fit(parts: &LocalParts) -> bool
    ensures { result ≡ names_fit (local_kernel_of parts.now) }
{
    types_are_placed(parts, parts.types.as_slice())
        && synonyms_are_placed(parts, parts.synonyms.as_slice())
        && marks_are_placed(parts, parts.marks.as_slice())
        && goal_fits(parts, &parts.goal)
}

/// Whether the heads in a function's rules are there and have the arguments
/// that they take, and whether the types are there that its local functions
/// declare.
fn function_fits(parts: &LocalParts, heads: &Heads, function: &TopFunction) -> bool
    requires { table.heads_program heads.now ≡ heads_program (local_kernel_of parts.now) }
    ensures { result ≡ function_fits (local_kernel_of parts.now)
        (top_function_meaning function.now) }
{
    all_rules_pass(Known::Program(heads), function)
        && local_signatures_fit(parts, function.locals.as_slice())
}

/// Whether the heads and declared types of all these functions are there as
/// they are used.
fn functions_fit(parts: &LocalParts, heads: &Heads, functions: &[TopFunction]) -> bool
    requires { table.heads_program heads.now ≡ heads_program (local_kernel_of parts.now) }
    ensures { result ≡ list_all (function_fits (local_kernel_of parts.now))
        (map top_function_meaning functions.now) }
{
    for function in functions {
        if !function_fits(parts, heads, function) {
            return false;
        }
    }
    true
}

/// Whether the constructor of a set function's values takes one argument,
/// where there is one.
fn has_values(heads: &Heads, values: Option<ConId>) -> bool
    ensures { result ≡ has_values (table.heads_program heads.now) values }
{
    match values {
        Some(constructor) => builds(heads, constructor, 1),
        None => true,
    }
}

/// Whether `&&` is there, with two parameters and its rules.
fn has_both(special: &Special, functions: &[TopFunction]) -> bool
    ensures { result ≡ is_local_both special.now
        (slice_get (map top_function_meaning functions.now) special.now.both.0) }
{
    match functions.get(special.both.0) {
        Some(function) => function.arity == 2 && is_conjunction(special, &function.body),
        None => false,
    }
}

/// Whether the built-in entities are there as they have to be.
fn has_entities(parts: &LocalParts, heads: &Heads) -> bool
    ensures { result ≡ has_entities (local_kernel_of parts.now) (table.heads_program heads.now) }
{
    let special = &parts.special;
    builds(heads, special.falsity, 0)
        && builds(heads, special.truth, 0)
        && special.falsity.0 < special.truth.0
        && has_values(heads, special.values)
        && has_both(special, parts.functions.as_slice())
}

/// Whether functions and built-in entities use what is there as it is used,
/// where these are the heads of the program.
fn all_fit(parts: &LocalParts, heads: &Heads) -> bool
    requires { table.heads_program heads.now ≡ heads_program (local_kernel_of parts.now) }
    ensures { result ≡ heads_fit (local_kernel_of parts.now) }
{
    has_entities(parts, heads) && functions_fit(parts, heads, parts.functions.as_slice())
}

/// Whether functions and built-in entities use what is there as it is used.
fn heads_fit(alloc: Global, parts: &LocalParts) -> Result<bool, AllocError>
    ensures { IfOk result (λ fit. fit ≡ heads_fit (local_kernel_of parts.now)) }
{
    let functions = heads_of(alloc, parts.functions.as_slice())?;
    let constructors = shapes(alloc, parts.types.as_slice())?;
    let heads = Heads {
        functions: functions.as_slice(),
        constructors,
        special: &parts.special,
    };
    Ok(all_fit(parts, &heads))
}

/// Whether the parts of a whole program fit together, so that it can be lifted:
///
/// - Nothing comes before it: all numbers begin with 0.
/// - Its types begin with the list, unit, the tuples of 2 to 15 components,
///   `Int` and `Char`, all of the first module, which is the Prelude; `[]`
///   and `:` are those of the built-in entities.
/// - Functions, constructors, types, synonyms and modules that are named are
///   there. A head with all its arguments has as many as it takes, in terms
///   and in patterns; a partial application has fewer.
/// - The other built-in entities are there: `False`, declared before `True`,
///   both without fields; `&&` with its two rules or with the case distinction
///   that is made of them; and a constructor of one field for the values of
///   set functions wherever a set function stands.
/// - The goal's function has rules and a parameter for each of its names.
///
/// Takes time in proportion to the size of the program, and memory for a list
/// of the functions and one of the constructors. Terms are walked by recursion.
/// The one error is an allocation failure.
pub fn is_joined(alloc: Global, program: &LocalProgram) -> Result<bool, AllocError>
    ensures decides { IfOk result (λ joined. IsTrue joined ↔ IsJoined program.now) }
{
    let parts = program.parts();
    if !begins(&parts.start) || !has_first_types(&parts.special, parts.types.as_slice()) {
        return Ok(false);
    }
    if !names_fit(parts) {
        return Ok(false);
    }
    heads_fit(alloc, parts)
}
