//! The first fault among the types of modules, and among those of a goal.
ghost use Rattle.std.specs.Prelude.{◌≡◌, ◌<◌, Contains, IfErr, IfOk, OnOk, Some, length, slice_get};
ghost use Rattle.std.specs.List.{All};
ghost use Rattle.cu_modules.specs.BuiltInEntities.{HasBuiltIn};
ghost use Rattle.cu_modules.specs.Ordering.{modules_of};
ghost use Rattle.cu_modules.specs.Reading.{HasModule};
ghost use Rattle.cu_modules.specs.ScopeAnswers.{AreScopes};
ghost use Rattle.cu_names.specs.Texts.{IsKnown, text_of};
ghost use Rattle.cu_names.specs.declared.names.NameId.{NameId};
ghost use Rattle.cu_syntax.specs.Answer.{goal_meaning};
ghost use Rattle.cu_syntax.specs.Owners.{GoalIsOf};
ghost use Rattle.cu_declared.specs.Inside.Numbers.{Gains, Have};
ghost use Rattle.cu_declared.specs.Inside.Told.{IsModule, IsModuleFirst, World};
ghost use Rattle.cu_declared.specs.Inside.Answers.{answer_of};
ghost use Rattle.cu_declared.specs.Parameters.{all_parameters, built_in_parameters};
ghost use Rattle.cu_declared.specs.Telling.{FaultIsKnown, GoalFaultIsKnown, TellsFault, TellsGoalFault};
ghost use Rattle.cu_declared.specs.TypeFaults.{AreRight, IsGoalRight, IsGoalWrong, IsWrong};

use crate::arities::{ModuleScope, tell_arities};
use crate::expressions::expression;
use crate::first_fault::FirstFault;
use crate::found::{Fault, Wrong};
use crate::items::{add_parameters, items_uses};
use crate::numbers::Numbers;
use crate::synonyms::{synonyms, tell_cycles};
use crate::{TypeArity, TypeNameFault};
use cu_modules::{Module, Scopes};
use cu_names::{NameId, Names};
use cu_syntax::GoalText;
use std::alloc::{AllocError, Global};

/// Adds how many parameters the types have that are built in.
fn add_built_in(names: &Names, numbers: &mut Numbers) -> Result<(), AllocError>
    requires { HasBuiltIn names.now }
    ensures { OnOk result (Gains names.now numbers.old built_in_parameters numbers.new) }
{
    // Called for its clause that the texts of the table differ.
    let _count = names.count();
    let prelude = found(names, "Prelude");
    let int = found(names, "Int");
    let char = found(names, "Char");
    numbers.add(prelude, int, 0)?;
    numbers.add(prelude, char, 0)
}

/// The number of a text that the table has.
fn found(names: &Names, text: &str) -> NameId
    requires { Contains names.now text.now }
    ensures { slice_get names.now result.0 ≡ Some text.now }
{
    let Some(id) = names.find(text) else {
        unreachable!()
    };
    id
}

/// How many parameters the types of modules have.
fn parameters(alloc: Global, names: &Names, modules: &[Module]) -> Result<Numbers, AllocError>
    requires built_in { HasBuiltIn names.now }
    requires known { All (HasModule names.now) modules.now }
    ensures { IfOk result (Have names.now (all_parameters (modules_of names.now modules.now))) }
{
    // Called for its clause that the texts of the table differ.
    let _count = names.count();
    let mut numbers = Numbers::new(alloc);
    add_built_in(names, &mut numbers)?;
    for m in modules {
        let text = m.syntax().items();
        add_parameters(alloc, m.name(), text, &mut numbers)?;
    }
    Ok(numbers)
}

/// The first fault of the module of a number, if it has one.
fn module_fault(
    alloc: Global,
    number: u32,
    module: &Module,
    scopes: &Scopes,
    types: &Numbers,
) -> Result<Option<Fault>, AllocError>
    requires { (w : World) × IsModule w number «module».now scopes.now }
    ensures { (w : World) → IsModule w number «module».now scopes.now
        → Have w.names (all_parameters w.modules) types.now → IfOk result (IsModuleFirst w) }
{
    let text = module.syntax().items();
    let mut uses = Vec::new(alloc);
    items_uses(alloc, text, &mut uses)?;
    let synonyms = synonyms(alloc, text)?;
    let scope = ModuleScope { scopes, number };
    let mut first = FirstFault::new();
    tell_arities(scope, types, uses.as_slice(), &mut first);
    tell_cycles(alloc, scope, module.name(), synonyms.as_slice(), &mut first)?;
    Ok(first.fault())
}

/// The answer for a fault.
fn of_fault(fault: Fault) -> TypeNameFault
    ensures { result ≡ answer_of fault }
{
    match fault.wrong {
        Wrong::TypeArity => TypeNameFault::TypeArity(fault.place),
        Wrong::SynonymCycle(name) => TypeNameFault::SynonymCycle(name),
    }
}

/// Whether in modules, each of which stands after those that it imports, each
/// name of a type has as many arguments as the type that it means has
/// parameters, and no synonym leads to itself. Scopes tell what names mean.
///
/// # Errors
///
/// The first fault of the first module that has one, by its place in the text;
/// the place of a synonym's fault is that of its declaration. `NoMemory`.
pub fn declared_types(
    alloc: Global,
    names: &Names,
    modules: &[Module],
    scopes: &Scopes,
) -> Result<(), TypeNameFault>
    requires built_in { HasBuiltIn names.now }
    requires known { All (HasModule names.now) modules.now }
    requires scopes { AreScopes names.now (modules_of names.now modules.now) scopes.now }
    ensures right { OnOk result (AreRight (modules_of names.now modules.now)) }
    ensures wrong { IfErr result
        (TellsFault names.now (IsWrong (modules_of names.now modules.now))) }
    ensures known { IfErr result (FaultIsKnown names.now) }
{
    // Called for its clause that the texts of the table differ.
    let _count = names.count();
    let Ok(count) = u32::try_from(modules.len()) else {
        return Err(TypeNameFault::NoMemory);
    };
    let types = parameters(alloc, names, modules)?;
    for number in 0..count {
        let m = &modules[number as usize];
        let Some(fault) = module_fault(alloc, number, m, scopes, &types)? else {
            continue;
        };
        return Err(of_fault(fault));
    }
    Ok(())
}

/// Whether in a goal in the module of a number each name of a type has as many
/// arguments as the type that it means has parameters.
///
/// # Errors
///
/// The first name for which that is wrong, and `NoMemory`.
pub fn declared_types_goal(
    alloc: Global,
    names: &Names,
    modules: &[Module],
    root: u32,
    scopes: &Scopes,
    goal: &GoalText,
) -> Result<(), TypeArity>
    requires built_in { HasBuiltIn names.now }
    requires known { All (HasModule names.now) modules.now }
    requires scopes { AreScopes names.now (modules_of names.now modules.now) scopes.now }
    requires root { root < length modules.now }
    ensures right { (owner : NameId) → GoalIsOf owner names.now goal.now
        → OnOk result (IsGoalRight (modules_of names.now modules.now) root
        (goal_meaning names.now goal.now)) }
    ensures wrong { (owner : NameId) → GoalIsOf owner names.now goal.now
        → IfErr result (TellsGoalFault names.now (λ name fault. (name ≡ text_of names.now owner)
        × IsGoalWrong (modules_of names.now modules.now) root
        (goal_meaning names.now goal.now) fault)) }
    ensures known { (owner : NameId) → IsKnown names.now owner → GoalIsOf owner names.now goal.now
        → IfErr result (GoalFaultIsKnown names.now) }
{
    // Called for its clause that the texts of the table differ.
    let _count = names.count();
    let types = parameters(alloc, names, modules)?;
    let mut uses = Vec::new(alloc);
    expression(alloc, goal.expression(), &mut uses)?;
    let scope = ModuleScope {
        scopes,
        number: root,
    };
    let mut first = FirstFault::new();
    tell_arities(scope, &types, uses.as_slice(), &mut first);
    match first.fault() {
        Some(fault) => Err(TypeArity::At(fault.place)),
        None => Ok(()),
    }
}
