//! Scopes of modules, and what names mean there.
ghost use Rattle.std.specs.Prelude.{◌≡◌, ◌<◌, ◌↔◌, [], List, ℕ, IfErr, IfOk, IfSome, OnOk, Some, length, slice_get};
ghost use Rattle.std.specs.List.{All};
ghost use Rattle.std.specs.Option.{option_map};
ghost use Rattle.cu_entities.specs.Entities as meant;
ghost use Rattle.cu_entities.specs.EntityMeaning.{EntityIsKnown, entity_meaning, space_meaning};
ghost use Rattle.cu_entities.specs.NameTables.{KeyIsKnown};
ghost use Rattle.cu_modules.specs.BuiltInEntities.{HasBuiltIn};
ghost use Rattle.cu_modules.specs.Exports.{AreInterfaces};
ghost use Rattle.cu_modules.specs.Inside.Outcome.{IsRight, IsWrongIn};
ghost use Rattle.cu_modules.specs.Inside.Scoping.{only_one, wrong_at};
ghost use Rattle.cu_modules.specs.Known.{AreEntities};
ghost use Rattle.cu_modules.specs.Means.{AreScoped, IsGoalScoped, IsGoalWrong, IsWrong, Means, interfaces_before};
ghost use Rattle.cu_modules.specs.Ordering.{AreOrdered, module_of, modules_of};
ghost use Rattle.cu_modules.specs.Reading.{HasModule};
ghost use Rattle.cu_modules.specs.ScopeAnswers.{AreScopes, FaultIsKnown, IsNamed, TellsFault};
ghost use Rattle.cu_modules.specs.Scopes.{Interface, Named, exported, exports_of};
ghost use Rattle.cu_names.specs.Texts.{AllDiffer, IsKnown, text_of};
ghost use Rattle.cu_names.specs.declared.names.NameId.{NameId};
ghost use Rattle.cu_syntax.specs.Answer.{goal_meaning};
ghost use Rattle.cu_syntax.specs.Owners.{GoalIsOf};
ghost use Rattle.cu_syntax.specs.Syntax.{Name};

use crate::checking::{exports, first_fault, scoped};
use crate::interfaces::Interfaces;
use crate::module_scope::ModuleScope;
use crate::scoped::Scoped;
use crate::scopes::Scopes;
use crate::{Module, ScopeFault};
use cu_entities::{Entity, Key, Meant, NameTable, Space};
use cu_names::{NameId, Names};
use cu_syntax::GoalText;
use cu_uses::{Fault, FirstFault, Wrong, goal_faults};
use std::alloc::Global;

/// What names mean in modules, each of which stands after those that it
/// imports.
///
/// # Errors
///
/// The first fault of the names of the first module that has one, by its place
/// in the text, and `NoMemory`.
pub fn scope(alloc: Global, names: &Names, modules: &[Module]) -> Result<Scopes, ScopeFault>
    requires built_in { HasBuiltIn names.now }
    requires known { All (HasModule names.now) modules.now }
    requires ordered { AreOrdered (modules_of names.now modules.now) }
    ensures right { OnOk result (AreScoped [] (modules_of names.now modules.now)) }
    ensures scopes { IfOk result (AreScopes names.now (modules_of names.now modules.now)) }
    ensures wrong { IfErr result
        (TellsFault names.now (IsWrong (modules_of names.now modules.now))) }
    ensures known { IfErr result (FaultIsKnown names.now) }
{
    let mut interfaces = Interfaces::new(alloc);
    let mut tables = Vec::new(alloc);
    'modules: for module in modules {
        let table = scope_module(alloc, names, module, &mut interfaces)?;
        tables.push(table)?;
    }
    Ok(Scopes { tables, interfaces })
}

/// What names mean in one module. Its exports are added to the interfaces.
fn scope_module(
    alloc: Global,
    names: &Names,
    module: &Module,
    interfaces: &mut Interfaces,
) -> Result<NameTable, ScopeFault>
    requires built_in { HasBuiltIn names.now }
    requires has { HasModule names.now «module».now }
    ensures right { (before : List Interface)
        → exports_of before (text_of names.now «module».now.name) ≡ []
        → AreInterfaces names.now before interfaces.old
        → IfOk result (λ table. IsRight names.now before
        (module_of names.now «module».now) table interfaces.new) }
    ensures wrong { (before : List Interface) → AreInterfaces names.now before interfaces.old
        → IfErr result
        (TellsFault names.now (IsWrongIn before (module_of names.now «module».now))) }
    ensures known { (before : List Interface) → AreInterfaces names.now before interfaces.old
        → IfErr result (FaultIsKnown names.now) }
{
    // Called for its clause that the texts of the table differ.
    let _count = names.count();
    let scoped = scoped(alloc, names, module, interfaces)?;
    let found = first_fault(alloc, module, interfaces, &scoped)?;
    if let Some(fault) = found {
        return Err(of_fault(fault));
    }
    let exports = exports(alloc, module, interfaces, &scoped)?;
    interfaces.add(module.name, exports)?;
    Ok(table_of(scoped))
}

fn table_of(scoped: Scoped) -> NameTable
    ensures { result ≡ scoped.scope.table }
{
    let Scoped {
        own: _,
        imports: _,
        scope,
    } = scoped;
    let ModuleScope { table, bound: _ } = scope;
    table
}

/// The scopes of modules, after a check of the names of a goal in the module of
/// a number. A goal's names mean there what they mean in that module.
///
/// # Errors
///
/// The first fault of the goal's names, and `NoMemory`.
pub fn scope_goal(
    alloc: Global,
    names: &Names,
    modules: &[Module],
    root: u32,
    scopes: Scopes,
    goal: &GoalText,
) -> Result<Scopes, ScopeFault>
    requires scopes { AreScopes names.now (modules_of names.now modules.now) scopes }
    requires root { root < length modules.now }
    ensures right { (owner : NameId) → GoalIsOf owner names.now goal.now
        → OnOk result (IsGoalScoped (modules_of names.now modules.now) root
        (goal_meaning names.now goal.now)) }
    ensures wrong { (owner : NameId) → GoalIsOf owner names.now goal.now
        → IfErr result (TellsFault names.now (λ name fault. (name ≡ text_of names.now owner)
        × IsGoalWrong (modules_of names.now modules.now) root
        (goal_meaning names.now goal.now) fault)) }
    ensures same { IfOk result (λ found. found ≡ scopes) }
    ensures known { (owner : NameId) → IsKnown names.now owner → GoalIsOf owner names.now goal.now
        → IfErr result (FaultIsKnown names.now) }
{
    // Called for its clause that the texts of the table differ.
    let _count = names.count();
    let mut first = FirstFault::new();
    goal_faults(alloc, &scopes.tables[root as usize], goal, &mut first)?;
    match first.fault() {
        Some(fault) => Err(of_fault(fault)),
        None => Ok(scopes),
    }
}

/// The answer for a fault.
fn of_fault(fault: Fault) -> ScopeFault
    ensures { result ≡ wrong_at fault }
{
    match fault.wrong {
        Wrong::NotExported => ScopeFault::NotExported(fault.place, fault.name),
        Wrong::UnknownName => ScopeFault::UnknownName(fault.place, fault.name),
        Wrong::Ambiguous => ScopeFault::Ambiguous(fault.place, fault.name),
        Wrong::Duplicate => ScopeFault::Duplicate(fault.place, fault.name),
    }
}

impl Scopes {
    /// The entity that a name means in the module of a number, where it means
    /// one alone. The name has a qualifier, or none.
    pub fn meaning(
        &self,
        module: u32,
        space: Space,
        qualifier: Option<NameId>,
        base: NameId,
    ) -> Option<Entity>
        ensures meaning { (names : List (List ℕ)) (modules : List Named) (name : Name)
            (entity : meant.Entity)
            → AreScopes names modules self.now → IsNamed names qualifier base name
            → ((option_map (entity_meaning names) result ≡ Some entity) ↔ Means modules «module»
            (space_meaning space) name entity) }
        ensures known { (names : List (List ℕ)) (modules : List Named)
            → AreScopes names modules self.now → IfSome result (EntityIsKnown names) }
    {
        let table = self.tables.get(module as usize)?;
        let key = Key {
            qualifier,
            base,
            space,
        };
        alone(table.find(key))
    }

    /// What the module of a name exports, each entity once.
    pub fn exports(&self, module: NameId) -> &[Entity]
        ensures { (names : List (List ℕ)) (modules : List Named) (number : ℕ) (m : Named)
            → AreScopes names modules self.now → IsKnown names «module»
            → slice_get modules number ≡ Some m → m.name ≡ text_of names «module»
            → AreEntities names (exported (interfaces_before modules number) m) result.now }
    {
        self.interfaces.of(module)
    }
}

/// The entity that a name means, where it means one alone.
fn alone(meant: Option<Meant>) -> Option<Entity>
    ensures { result ≡ only_one «meant» }
{
    match meant {
        Some(Meant::One(entity)) => Some(entity),
        _ => None,
    }
}
