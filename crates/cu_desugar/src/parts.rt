//! The parts of programs that modules and goals are translated to.
ghost use Rattle.std.specs.Prelude.{◌≡◌, ◌<◌, IfErr, IfOk, List, length};
ghost use Rattle.cu_desugar.specs.Inside.Goals.{IsGoal};
ghost use Rattle.cu_desugar.specs.Modules.{AreKnown, goal_owner, named, owner_of};
ghost use Rattle.cu_desugar.specs.Inside.Outcomes.{IsOutcome, reading_translated};
ghost use Rattle.cu_desugar.specs.Inside.Texts.{AreTexts};
ghost use Rattle.cu_desugar.specs.Translated.{goal_translated, translated};
ghost use Rattle.cu_locals.specs.Text.{Text};
ghost use Rattle.cu_modules.specs.BuiltInEntities.{HasBuiltIn};
ghost use Rattle.cu_modules.specs.Ordering.{module_of};
ghost use Rattle.cu_modules.specs.Scopes.{Named};
ghost use Rattle.cu_syntax.specs.Answer.{goal_meaning};
ghost use Rattle.cu_syntax.specs.Owners.{GoalIsOf, ModuleIsOf};
ghost use Rattle.cu_toplevel.specs.EntityTables.{AreEntities};
ghost use Rattle.cu_toplevel.specs.Readings.{IsReading};
ghost use Rattle.cu_toplevel.specs.Surrounding.{TellsNames};
ghost use Rattle.cu_translation.specs.Answer.{Gives, Tells};
ghost use Rattle.cu_translation.specs.Functions.{goal_name};
ghost use Rattle.cu_translation.specs.ModuleNames.{id_of};
ghost use Rattle.cu_translation.specs.ModuleTypes as meant;
ghost use Rattle.cu_translation.specs.Numbered.{groups_in};
ghost use Rattle.cu_translation.specs.Parts.{goal_names};

use crate::faults::refusal;
use crate::functions::top_functions;
use crate::goals::GoalParts;
use crate::modules::Modules;
use crate::outcomes::{Outcome, answer};
use crate::texts::{FunctionText, function_texts};
use cu_kernel::LocalProgram;
use cu_modules::Module;
use cu_syntax::GoalText;
use cu_toplevel::{Reading, TopNames, goal_part, module_part};
use cu_translation::DesugarFault;
use std::alloc::{AllocError, Global};

/// What a module is translated to, or why it is refused. `texts` are its
/// functions that have rules.
fn reading_outcome(
    alloc: Global,
    reading: &Reading<'_>,
    texts: &[FunctionText<'_>],
) -> Result<Outcome, AllocError>
    requires built_in { HasBuiltIn reading.now.top.names.now }
    ensures { (t : Text) (modules : List Named) (r : meant.Reading)
        → IsReading t.names r reading.now
        → AreEntities t.names modules reading.now.top.entities.now
        → AreTexts t (groups_in r.m) texts.now
        → IfOk result (IsOutcome t.owner (reading_translated modules r)) }
{
    let top = reading.names();
    let refused = refusal(alloc, top, texts)?;
    match refused {
        Some(fault) => Ok(Outcome::Refused(fault)),
        None => {
            let functions = top_functions(alloc, top, texts)?;
            let parts = module_part(alloc, reading, functions)?;
            Ok(Outcome::Translated(parts))
        }
    }
}

/// What a module is translated to, or why it is refused, by its reading.
fn outcome_by_reading(
    alloc: Global,
    reading: &Reading<'_>,
    module: &Module,
) -> Result<Outcome, AllocError>
    requires built_in { HasBuiltIn reading.now.top.names.now }
    ensures { (t : Text) (modules : List Named) (r : meant.Reading)
        → IsReading t.names r reading.now
        → AreEntities t.names modules reading.now.top.entities.now
        → r.m ≡ module_of t.names «module».now
        → ModuleIsOf t.owner t.names «module».now.syntax
        → IfOk result (IsOutcome t.owner (reading_translated modules r)) }
{
    let mut written = function_texts(alloc, module)?;
    // A shared loan of the vector would be too large to be compared in a proof.
    let texts = written.as_mut_slice();
    reading_outcome(alloc, reading, texts)
}

/// What the module of a number is translated to, or why it is refused.
fn module_outcome(alloc: Global, modules: Modules<'_>, number: u32) -> Result<Outcome, AllocError>
    requires known { AreKnown modules }
    requires number { number < length modules.modules.now }
    ensures { IfOk result (IsOutcome (owner_of modules.entry number)
        (translated modules.entry.names.now (named modules.entry) number)) }
{
    let reading = modules.reading(number);
    let module = modules.module(number);
    outcome_by_reading(alloc, &reading, module)
}

/// What a goal in the module of a number is translated to, or why it is
/// refused, by what is known of its text.
fn text_outcome(
    alloc: Global,
    top: TopNames<'_>,
    root: u32,
    goal: &GoalText,
    text: &GoalParts<'_>,
) -> Result<Outcome, AllocError>
    requires built_in { HasBuiltIn top.names.now }
    ensures { (t : Text) (modules : List Named)
        → TellsNames t.names (goal_names t.names modules root) top.entry
        → AreEntities t.names modules top.entry.entities.now
        → t.owner ≡ id_of t.names goal_name → GoalIsOf t.owner t.names goal.now
        → IsGoal t (goal_meaning t.names goal.now) text.now
        → IfOk result (IsOutcome t.owner
        (goal_translated t.names modules root (goal_meaning t.names goal.now))) }
{
    let refused = text.refusal(alloc, top)?;
    match refused {
        Some(fault) => Ok(Outcome::Refused(fault)),
        None => {
            let function = text.function(alloc, top, goal)?;
            let parts = goal_part(alloc, &top, root, goal, function)?;
            Ok(Outcome::Translated(parts))
        }
    }
}

/// What a goal in the module of a number is translated to, or why it is refused.
fn goal_outcome(
    alloc: Global,
    modules: Modules<'_>,
    root: u32,
    goal: &GoalText,
) -> Result<Outcome, AllocError>
    requires known { AreKnown modules }
    requires root { root < length modules.modules.now }
    requires goal { GoalIsOf (goal_owner modules) modules.names.now goal.now }
    ensures { IfOk result (IsOutcome (goal_owner modules.entry)
        (goal_translated modules.entry.names.now (named modules.entry) root
        (goal_meaning modules.entry.names.now goal.now))) }
{
    let top = modules.goal_names(root);
    let text = GoalParts::of(alloc, goal)?;
    text_outcome(alloc, top, root, goal, &text)
}

/// The part of a program that the module of a number is translated to.
///
/// # Errors
///
/// The first clash of operators in the module's text, or else the first of the
/// other faults; `NoMemory`.
pub fn desugar(
    alloc: Global,
    modules: Modules<'_>,
    number: u32,
) -> Result<LocalProgram, DesugarFault>
    requires known { AreKnown modules }
    requires number { number < length modules.modules.now }
    ensures program { IfOk result (λ program. Gives program
        (translated modules.entry.names.now (named modules.entry) number)) }
    ensures fault { IfErr result (λ fault. Tells (owner_of modules.entry number) fault
        (translated modules.entry.names.now (named modules.entry) number)) }
{
    let outcome = module_outcome(alloc, modules, number)?;
    answer(alloc, outcome)
}

/// The part of a program that a goal in the module of a number is translated
/// to: a function after all others, which takes the goal's variables.
///
/// # Errors
///
/// The first clash of operators in the goal's text, or else the first of the
/// other faults; `NoMemory`.
pub fn desugar_goal(
    alloc: Global,
    modules: Modules<'_>,
    root: u32,
    goal: &GoalText,
) -> Result<LocalProgram, DesugarFault>
    requires known { AreKnown modules }
    requires root { root < length modules.modules.now }
    requires goal { GoalIsOf (goal_owner modules) modules.names.now goal.now }
    ensures program { IfOk result (λ program. Gives program
        (goal_translated modules.entry.names.now (named modules.entry) root
        (goal_meaning modules.entry.names.now goal.now))) }
    ensures fault { IfErr result (λ fault. Tells (goal_owner modules.entry) fault
        (goal_translated modules.entry.names.now (named modules.entry) root
        (goal_meaning modules.entry.names.now goal.now))) }
{
    let outcome = goal_outcome(alloc, modules, root, goal)?;
    answer(alloc, outcome)
}
