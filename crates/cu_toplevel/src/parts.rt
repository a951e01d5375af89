//! The parts of programs that modules and goals are translated to.
ghost use Rattle.std.specs.Prelude.{◌≡◌, List, ℕ, IfOk, map};
ghost use Rattle.cu_kernel.specs.LocalKernelOf.{local_kernel_of, top_function_meaning};
ghost use Rattle.cu_modules.specs.BuiltInEntities.{HasBuiltIn};
ghost use Rattle.cu_modules.specs.Scopes.{Named};
ghost use Rattle.cu_names.specs.declared.names.NameId.{NameId};
ghost use Rattle.cu_syntax.specs.Answer.{goal_meaning};
ghost use Rattle.cu_syntax.specs.Owners.{GoalIsOf};
ghost use Rattle.cu_toplevel.specs.EntityTables.{AreEntities};
ghost use Rattle.cu_toplevel.specs.Readings.{IsReading};
ghost use Rattle.cu_toplevel.specs.Surrounding.{TellsNames};
ghost use Rattle.cu_translation.specs.Functions.{goal_function, top_function};
ghost use Rattle.cu_translation.specs.ModuleTypes as meant;
ghost use Rattle.cu_translation.specs.Numbered.{groups_in};
ghost use Rattle.cu_translation.specs.Parts.{goal_names, goal_part, part_of};

use crate::externals::external_functions;
use crate::function_marks::marks;
use crate::goals::{goal_in, goal_mark};
use crate::module_types::{synonyms_in, types_in};
use crate::modules::module_info;
use crate::{Reading, TopNames};
use cu_kernel::{LocalParts, TopFunction};
use cu_syntax::GoalText;
use std::alloc::{AllocError, Global};

/// The part of a program that a module is translated to. `functions` are those
/// of its functions that have rules, in the order of their numbers.
///
/// # Errors
///
/// An allocation failure.
pub fn module_part(
    alloc: Global,
    reading: &Reading<'_>,
    functions: Vec<TopFunction>,
) -> Result<LocalParts, AllocError>
    requires built_in { HasBuiltIn reading.now.top.names.now }
    ensures { (names : List (List ℕ)) (modules : List Named) (r : meant.Reading)
        → IsReading names r reading.now → AreEntities names modules reading.now.top.entities.now
        → map top_function_meaning functions.items
        ≡ map (top_function r.table r.names) (groups_in r.m)
        → IfOk result (λ made. local_kernel_of made ≡ part_of modules r) }
{
    let entities = reading.top.entities;
    let mut all = external_functions(alloc, reading)?;
    let mut others = functions;
    all.append(&mut others)?;
    let types = types_in(alloc, reading)?;
    let synonyms = synonyms_in(alloc, reading)?;
    let info = module_info(alloc, reading)?;
    let modules = vec![in alloc; info]?;
    let marks = marks(alloc, reading)?;
    Ok(LocalParts {
        start: entities.counts_before(reading.number),
        types,
        functions: all,
        synonyms,
        modules,
        marks,
        goal: None,
        special: entities.special(reading.top.names),
    })
}

/// The part of a program that a goal in the module of a number is translated
/// to, of its function and its variables. Names are those of the goal.
///
/// # Errors
///
/// An allocation failure.
pub fn goal_part(
    alloc: Global,
    top: &TopNames<'_>,
    root: u32,
    goal: &GoalText,
    function: TopFunction,
) -> Result<LocalParts, AllocError>
    requires built_in { HasBuiltIn top.now.names.now }
    ensures { (owner : NameId) (names : List (List ℕ)) (modules : List Named)
        → TellsNames names (goal_names names modules root) top.now
        → AreEntities names modules top.now.entities.now → GoalIsOf owner names goal.now
        → top_function_meaning function
        ≡ goal_function names (goal_names names modules root) (goal_meaning names goal.now)
        → IfOk result (λ made. local_kernel_of made
        ≡ goal_part names modules root (goal_meaning names goal.now)) }
{
    let entities = top.entities;
    let functions = vec![in alloc; function]?;
    let marks = vec![in alloc; goal_mark(top, root, goal)]?;
    let goal = goal_in(alloc, entities, goal)?;
    Ok(LocalParts {
        start: entities.counts(),
        types: Vec::new(alloc),
        functions,
        synonyms: Vec::new(alloc),
        modules: Vec::new(alloc),
        marks,
        goal: Some(goal),
        special: entities.special(top.names),
    })
}
