//! The programs before lifting of modules, and of these and a goal.
ghost use Rattle.std.specs.Prelude.{◌≡◌, ◌<◌, IfErr, IfOk, List, Ok, OnOk, Some, [], length, slice_get, ℕ};
ghost use Rattle.std.specs.List.{All, Contains};
ghost use Rattle.cu_declared.specs.TypeFaults as type_faults;
ghost use Rattle.cu_declared.specs.TypeFaults.{AreRight};
ghost use Rattle.cu_desugar.specs.Modules.{AreKnown, goal_owner, named};
ghost use Rattle.cu_front.specs.Compiling.{whole_program};
ghost use Rattle.cu_front.specs.GoalTexts.{GoalIsRead};
ghost use Rattle.cu_front.specs.Inside.Outcomes.{IsOutcome};
ghost use Rattle.cu_front.specs.Inside.Stages.{
  ArePrograms,
  IsGoalRead,
  IsInNames,
  IsInTypes,
  IsWhole,
  RefusesModules,
  fault_of_goal_types,
  fault_of_scope,
  fault_of_types,
  goal_told,
  part_of_goal,
};
ghost use Rattle.cu_front.specs.Inside.StageFaults.{Tells};
ghost use Rattle.cu_front.specs.Translated.{translation_refusal};
ghost use Rattle.cu_front.specs.declared.fault.StageFault.TheVariants.{NoMemory};
ghost use Rattle.cu_modules.specs.BuiltInEntities.{HasBuiltIn};
ghost use Rattle.cu_modules.specs.Means.{AreScoped, IsWrong};
ghost use Rattle.cu_modules.specs.Ordering.{AreOrdered, modules_of};
ghost use Rattle.cu_modules.specs.Reading.{HasModule};
ghost use Rattle.cu_modules.specs.ScopeAnswers.{AreScopes};
ghost use Rattle.cu_names.specs.declared.names.NameId.{NameId};
ghost use Rattle.cu_syntax.specs.Answer.{goal_meaning};
ghost use Rattle.cu_syntax.specs.Owners.{GoalIsOf};
ghost use Rattle.cu_toplevel.specs.EntityTables.{AreEntities};
ghost use Rattle.cu_translation.specs.ModuleNames.{id_of};
ghost use Rattle.cu_translation.specs.Functions.{goal_name};
ghost use Rattle.cu_uses.specs.Binders.{texts};

use crate::fault::StageFault;
use crate::outcome::{Outcome, followed_by, kept};
use crate::refusal::Refusal;
use crate::translated::{modules_program, of_functions};
use cu_declared::{TypeArity, TypeNameFault, declared_types, declared_types_goal};
use cu_desugar::{Modules, desugar_goal};
use cu_kernel::LocalProgram;
use cu_modules::{Module, ScopeFault, Scopes, scope, scope_goal};
use cu_names::Names;
use cu_syntax::GoalText;
use cu_toplevel::Entities;
use cu_translation::parts_follow;
use std::alloc::{AllocError, Global};

/// Modules, with the number of the one in which a goal stands.
#[derive(Clone, Copy)]
pub(crate) struct Rooted<'a> {
    pub(crate) names: &'a Names,
    pub(crate) modules: &'a [Module],
    pub(crate) root: u32,
}

/// The programs before lifting of modules, and of these and a goal.
#[derive(Drop)]
pub(crate) struct Programs {
    /// The program of the modules.
    pub(crate) modules: LocalProgram,
    /// The program of the modules and the goal, or why the goal is refused.
    pub(crate) whole: Outcome,
}

/// The programs of modules, each of which stands after those that it imports,
/// and of these and a goal in one of them.
///
/// # Errors
///
/// The first fault of the names in the modules, or else of their types, or else
/// of their functions; an allocation failure.
pub(crate) fn programs_of(
    alloc: Global,
    rooted: Rooted<'_>,
    goal: Result<GoalText, StageFault>,
) -> Result<Programs, StageFault>
    requires built_in { HasBuiltIn rooted.names.now }
    requires known { All (HasModule rooted.names.now) rooted.modules.now }
    requires ordered { AreOrdered (modules_of rooted.names.now rooted.modules.now) }
    requires root { rooted.root < length rooted.modules.now }
    requires owned { IfOk goal (GoalIsOf (id_of rooted.names.now goal_name) rooted.names.now) }
    requires named { slice_get rooted.names.now (id_of rooted.names.now goal_name).0
        ≡ Some goal_name }
    ensures programs { (text : List ℕ) → IsGoalRead rooted.entry.names.now text goal
        → IfOk result (ArePrograms rooted.entry.names.now
        (modules_of rooted.entry.names.now rooted.entry.modules.now) rooted.entry.root text) }
    ensures fault { (root : List ℕ) → IfErr result (Tells rooted.entry.names.now
        (RefusesModules (modules_of rooted.entry.names.now rooted.entry.modules.now) root)) }
{
    let Rooted {
        names,
        modules,
        root: _,
    } = rooted;
    let scopes = with_types(alloc, names, modules)?;
    let entities = Entities::of(alloc, names, modules)?;
    let known = Modules {
        names,
        modules,
        scopes: &scopes,
        entities: &entities,
    };
    let alone = modules_program(alloc, known)?;
    let whole = read_outcome(alloc, rooted, scopes, &entities, goal)?;
    Ok(Programs {
        modules: alone,
        whole,
    })
}

/// What names mean in modules whose types are right.
///
/// # Errors
///
/// The first fault of the names in the modules, or else of their types; an
/// allocation failure.
pub(crate) fn with_types(
    alloc: Global,
    names: &Names,
    modules: &[Module],
) -> Result<Scopes, StageFault>
    requires built_in { HasBuiltIn names.now }
    requires known { All (HasModule names.now) modules.now }
    requires ordered { AreOrdered (modules_of names.now modules.now) }
    ensures right { OnOk result (AreScoped [] (modules_of names.now modules.now)) }
    ensures types { OnOk result (AreRight (modules_of names.now modules.now)) }
    ensures scopes { IfOk result (AreScopes names.now (modules_of names.now modules.now)) }
    ensures fault { (root : List ℕ) → IfErr result (Tells names.now
        (RefusesModules (modules_of names.now modules.now) root)) }
{
    let scopes = scoped(alloc, names, modules)?;
    test_types(alloc, names, modules, &scopes)?;
    Ok(scopes)
}

/// What names mean in modules.
///
/// # Errors
///
/// The first fault of the names of the first module that has one; an allocation
/// failure.
fn scoped(alloc: Global, names: &Names, modules: &[Module]) -> Result<Scopes, StageFault>
    requires built_in { HasBuiltIn names.now }
    requires known { All (HasModule names.now) modules.now }
    requires ordered { AreOrdered (modules_of names.now modules.now) }
    ensures right { OnOk result (AreScoped [] (modules_of names.now modules.now)) }
    ensures scopes { IfOk result (AreScopes names.now (modules_of names.now modules.now)) }
    ensures fault { IfErr result (Tells names.now
        (IsInNames (IsWrong (modules_of names.now modules.now)))) }
{
    match scope(alloc, names, modules) {
        Ok(scopes) => Ok(scopes),
        Err(fault) => Err(of_scope(fault)),
    }
}

/// Tests the types of modules.
///
/// # Errors
///
/// The first fault of the types of the first module that has one; an allocation
/// failure.
fn test_types(
    alloc: Global,
    names: &Names,
    modules: &[Module],
    scopes: &Scopes,
) -> Result<(), StageFault>
    requires built_in { HasBuiltIn names.now }
    requires known { All (HasModule names.now) modules.now }
    requires scopes { AreScopes names.now (modules_of names.now modules.now) scopes.now }
    ensures right { OnOk result (AreRight (modules_of names.now modules.now)) }
    ensures fault { IfErr result (Tells names.now
        (IsInTypes (type_faults.IsWrong (modules_of names.now modules.now)))) }
{
    match declared_types(alloc, names, modules, scopes) {
        Ok(()) => Ok(()),
        Err(fault) => Err(of_types(fault)),
    }
}

/// The program of modules and of a goal in one of them, or why the goal is
/// refused, also where its text can't be read.
///
/// # Errors
///
/// The first fault of the functions of the modules; an allocation failure.
pub(crate) fn read_outcome(
    alloc: Global,
    rooted: Rooted<'_>,
    scopes: Scopes,
    entities: &Entities,
    goal: Result<GoalText, StageFault>,
) -> Result<Outcome, StageFault>
    requires built_in { HasBuiltIn rooted.names.now }
    requires known { All (HasModule rooted.names.now) rooted.modules.now }
    requires scopes { AreScopes rooted.names.now
        (modules_of rooted.names.now rooted.modules.now) scopes }
    requires entities { AreEntities rooted.names.now
        (modules_of rooted.names.now rooted.modules.now) entities.now }
    requires root { rooted.root < length rooted.modules.now }
    requires owned { IfOk goal (GoalIsOf (id_of rooted.names.now goal_name) rooted.names.now) }
    requires named { slice_get rooted.names.now (id_of rooted.names.now goal_name).0
        ≡ Some goal_name }
    ensures whole { (text : List ℕ) → IsGoalRead rooted.entry.names.now text goal
        → IfOk result (IsWhole rooted.entry.names.now
        (modules_of rooted.entry.names.now rooted.entry.modules.now) rooted.entry.root text) }
    ensures fault { IfErr result (Tells rooted.entry.names.now (λ refusal.
        translation_refusal rooted.entry.names.now
        (modules_of rooted.entry.names.now rooted.entry.modules.now) ≡ Some refusal)) }
{
    match goal {
        Ok(goal) => goal_outcome(alloc, rooted, scopes, entities, &goal),
        Err(fault) => kept(fault),
    }
}

/// The program of modules and of a goal in one of them, or why the goal is
/// refused: the first fault of its names, or else of its types, or else of its
/// functions.
///
/// # Errors
///
/// The first fault of the functions of the modules; an allocation failure.
fn goal_outcome(
    alloc: Global,
    rooted: Rooted<'_>,
    scopes: Scopes,
    entities: &Entities,
    goal: &GoalText,
) -> Result<Outcome, StageFault>
    requires built_in { HasBuiltIn rooted.names.now }
    requires known { All (HasModule rooted.names.now) rooted.modules.now }
    requires scopes { AreScopes rooted.names.now
        (modules_of rooted.names.now rooted.modules.now) scopes }
    requires entities { AreEntities rooted.names.now
        (modules_of rooted.names.now rooted.modules.now) entities.now }
    requires root { rooted.root < length rooted.modules.now }
    requires owned { GoalIsOf (id_of rooted.names.now goal_name) rooted.names.now goal.now }
    requires named { slice_get rooted.names.now (id_of rooted.names.now goal_name).0
        ≡ Some goal_name }
    ensures whole { (text : List ℕ)
        → GoalIsRead text (Ok (goal_meaning rooted.entry.names.now goal.now))
        → IfOk result (IsWhole rooted.entry.names.now
        (modules_of rooted.entry.names.now rooted.entry.modules.now) rooted.entry.root text) }
    ensures fault { IfErr result (Tells rooted.entry.names.now (λ refusal.
        translation_refusal rooted.entry.names.now
        (modules_of rooted.entry.names.now rooted.entry.modules.now) ≡ Some refusal)) }
{
    let Rooted {
        names,
        modules,
        root,
    } = rooted;
    know_variables(alloc, goal)?;
    match scope_goal(alloc, names, modules, root, scopes, goal) {
        Ok(scopes) => match declared_types_goal(alloc, names, modules, root, &scopes, goal) {
            Ok(()) => {
                let known = Modules {
                    names,
                    modules,
                    scopes: &scopes,
                    entities,
                };
                with_goal(alloc, known, root, goal)
            }
            Err(fault) => kept(of_goal_types(fault)),
        },
        Err(fault) => kept(of_scope(fault)),
    }
}

/// Reads the variables of a goal, and tells that a table that has the names of
/// the goal's tokens has the names of these too.
fn know_variables(alloc: Global, goal: &GoalText) -> Result<(), AllocError>
    ensures { (owner : NameId) (names : List (List ℕ)) → GoalIsOf owner names goal.now
        → OnOk result (All (Contains names) (texts (goal_meaning names goal.now).free)) }
{
    goal.free_variables(alloc)?;
    Ok(())
}

/// The program of modules and of a goal in one of them, or why the goal isn't
/// translated.
///
/// # Errors
///
/// The first fault of the functions of the modules; an allocation failure.
fn with_goal(
    alloc: Global,
    modules: Modules<'_>,
    root: u32,
    goal: &GoalText,
) -> Result<Outcome, StageFault>
    requires known { AreKnown modules }
    requires root { root < length modules.modules.now }
    requires goal { GoalIsOf (goal_owner modules) modules.names.now goal.now }
    ensures whole { IfOk result (IsOutcome modules.entry.names.now
        (goal_told modules.entry.names.now (named modules.entry) root
        (goal_meaning modules.entry.names.now goal.now))
        (whole_program modules.entry.names.now (named modules.entry) root
        (goal_meaning modules.entry.names.now goal.now))) }
    ensures fault { IfErr result (Tells modules.entry.names.now (λ refusal.
        translation_refusal modules.entry.names.now (named modules.entry) ≡ Some refusal)) }
{
    parts_follow();
    let program = modules_program(alloc, modules)?;
    let part = goal_part(alloc, modules, root, goal)?;
    followed_by(Outcome::Program(program), part)
}

/// The part that a goal is translated to, or its first fault.
///
/// # Errors
///
/// An allocation failure.
fn goal_part(
    alloc: Global,
    modules: Modules<'_>,
    root: u32,
    goal: &GoalText,
) -> Result<Outcome, StageFault>
    requires known { AreKnown modules }
    requires root { root < length modules.modules.now }
    requires goal { GoalIsOf (goal_owner modules) modules.names.now goal.now }
    ensures part { IfOk result (IsOutcome modules.entry.names.now
        (goal_told modules.entry.names.now (named modules.entry) root
        (goal_meaning modules.entry.names.now goal.now))
        (part_of_goal modules.entry.names.now (named modules.entry) root
        (goal_meaning modules.entry.names.now goal.now))) }
    ensures fault { IfErr result (λ fault. fault ≡ NoMemory) }
{
    match desugar_goal(alloc, modules, root, goal) {
        Ok(part) => Ok(Outcome::Program(part)),
        Err(fault) => match modules.names.find("goal") {
            Some(owner) => kept(of_functions(owner, fault)),
            None => Err(StageFault::NoMemory),
        },
    }
}

/// The answer for a fault of names.
fn of_scope(fault: ScopeFault) -> StageFault
    ensures { result ≡ fault_of_scope fault }
{
    match fault {
        ScopeFault::NotExported(place, id) => StageFault::Refused(Refusal::NotExported(place, id)),
        ScopeFault::UnknownName(place, id) => StageFault::Refused(Refusal::UnknownName(place, id)),
        ScopeFault::Ambiguous(place, id) => StageFault::Refused(Refusal::Ambiguous(place, id)),
        ScopeFault::Duplicate(place, id) => StageFault::Refused(Refusal::Duplicate(place, id)),
        ScopeFault::NoMemory => StageFault::NoMemory,
    }
}

/// The answer for a fault of the types of modules.
fn of_types(fault: TypeNameFault) -> StageFault
    ensures { result ≡ fault_of_types fault }
{
    match fault {
        TypeNameFault::TypeArity(place) => StageFault::Refused(Refusal::TypeArity(place)),
        TypeNameFault::SynonymCycle(name) => StageFault::Refused(Refusal::SynonymCycle(name)),
        TypeNameFault::NoMemory => StageFault::NoMemory,
    }
}

/// The answer for a fault of the types of a goal.
fn of_goal_types(fault: TypeArity) -> StageFault
    ensures { result ≡ fault_of_goal_types fault }
{
    match fault {
        TypeArity::At(place) => StageFault::Refused(Refusal::TypeArity(place)),
        TypeArity::NoMemory => StageFault::NoMemory,
    }
}
