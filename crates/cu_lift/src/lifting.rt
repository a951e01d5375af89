//! Lambda lifting: local functions become functions of the program.
ghost use Rattle.std.specs.Prelude.{◌≡◌, IfOk, map, option_map, slice_index_or};
ghost use Rattle.std.specs.List.{list_all};
ghost use Rattle.cu_calculus.specs.Valid.{is_arity};
ghost use Rattle.cu_kernel.specs.KernelOf.{function_meaning, goal_meaning, kernel_of};
ghost use Rattle.cu_kernel.specs.LocalKernelOf.{local_kernel_of};
ghost use Rattle.cu_kernel.specs.LocalValid.{IsJoined, IsPart};
ghost use Rattle.cu_lift.specs.Lifting.{AreNamed, Lifts, lifted_goal, lifted_special};
ghost use Rattle.cu_names.specs.Texts.{Extends};

use crate::laws::lifted_programs_are_valid;
use crate::lifted_functions::lift_functions;
use crate::lifted_marks::lift_marks;
use crate::placing::{lifted_tops, placements};
use crate::renaming::number_at;
use cu_kernel::{FunId, Function, Goal, LocalParts, LocalProgram, Program, ProgramParts, Special};
use cu_names::Names;
use std::alloc::{AllocError, Global};

/// Whether a graph can hold the numbers of parameters of all functions.
fn have_arities(functions: &[Function]) -> bool
    ensures { result ≡ list_all (λ f. is_arity f.arity) (map function_meaning functions.now) }
{
    for function in functions {
        if function.arity == u32::MAX {
            return false;
        }
    }
    true
}

/// A function's new number.
fn lifted_function(tops: &[usize], function: FunId) -> FunId
    ensures { result ≡ record { 0 = slice_index_or tops.now function.0 0 } }
{
    FunId(number_at(tops, function.0, 0))
}

/// The goal, if there is one, of the lifted program.
fn lift_goal(tops: &[usize], goal: Option<Goal>) -> Option<Goal>
    ensures { option_map goal_meaning result
        ≡ option_map (lifted_goal (λ i. slice_index_or tops.now i 0))
        (option_map goal_meaning goal) }
{
    match goal {
        Some(goal) => Some(Goal {
            function: lifted_function(tops, goal.function),
            names: goal.names,
        }),
        None => None,
    }
}

/// The built-in entities of the lifted program.
fn lift_special(tops: &[usize], special: Special) -> Special
    ensures { result ≡ lifted_special (λ i. slice_index_or tops.now i 0) special }
{
    Special {
        both: lifted_function(tops, special.both),
        ..special
    }
}

/// What the lifted program of these parts is made of.
fn lift_parts(
    alloc: Global,
    names: &mut Names,
    parts: LocalParts,
) -> Result<ProgramParts, AllocError>
    requires part { IsPart (local_kernel_of parts) }
    requires named { AreNamed names.old (local_kernel_of parts) }
    ensures table { Extends names.old names.new }
    ensures lifted { IfOk result (λ lifted.
        Lifts names.new (local_kernel_of parts) (kernel_of lifted)) }
{
    let functions = parts.functions.as_slice();
    let tops = lifted_tops(alloc, functions)?;
    let tops = tops.as_slice();
    let placed = placements(alloc, names, tops, functions)?;
    let placed = placed.as_slice();
    let lifted = lift_functions(alloc, tops, placed, functions)?;
    let marks = lift_marks(alloc, placed, parts.marks.as_slice(), functions)?;
    let special = lift_special(tops, parts.special);
    let goal = lift_goal(tops, parts.goal);
    Ok(ProgramParts {
        types: parts.types,
        functions: lifted,
        synonyms: parts.synonyms,
        modules: parts.modules,
        marks,
        goal,
        special,
    })
}

/// The program whose local functions are lifted: each takes the variables
/// that it captures before its own parameters, and is named by its top-level
/// function and its place among that one's local functions, as `f#1`. The
/// names are interned. The entities that the parts use have to be joined. An
/// arity or a number of functions that would be too large counts as want of
/// memory; names that were interned by then stay.
pub fn lift(alloc: Global, names: &mut Names, local: LocalProgram) -> Result<Program, AllocError>
    requires joined { IsJoined local }
    requires named { AreNamed names.old local }
    ensures table { Extends names.old names.new }
    ensures lifted { IfOk result (λ program. Lifts names.new local program) }
{
    let parts = local.into_parts();
    let lifted = lift_parts(alloc, names, parts)?;
    if !have_arities(lifted.functions.as_slice()) {
        return Err(AllocError);
    }
    lifted_programs_are_valid();
    Ok(Program::new(lifted))
}
