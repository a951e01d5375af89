//! The first fault among the names of the items of a module, and of a goal.
ghost use Rattle.std.specs.Prelude.{◌++◌, List, ℕ, OnOk};
ghost use Rattle.std.specs.List.{All};
ghost use Rattle.cu_names.specs.Texts.{AllDiffer};
ghost use Rattle.cu_names.specs.declared.names.NameId.{NameId};
ghost use Rattle.cu_entities.specs.Bindings.{Binding};
ghost use Rattle.cu_entities.specs.NameTables.{Tells};
ghost use Rattle.cu_syntax.specs.Answer.{goal_meaning, items_meaning};
ghost use Rattle.cu_syntax.specs.Owners.{GoalIsOf, ItemIsOf};
ghost use Rattle.cu_uses.specs.Demands.{goal_demands, items_demands};
ghost use Rattle.cu_uses.specs.Faults as meant;
ghost use Rattle.cu_uses.specs.Faults.{demand_faults};
ghost use Rattle.cu_uses.specs.Telling.{AreTold, HasTexts};

use crate::expressions::expression;
use crate::first_fault::FirstFault;
use crate::item_uses::items_uses;
use crate::lists::tell_repeated;
use crate::scope::Scope;
use crate::text_set::TextSet;
use crate::top_level::TopLevel;
use cu_entities::NameTable;
use cu_syntax::{GoalText, Item};
use std::alloc::{AllocError, Global};

/// Tells what is wrong with the names in the items of a module, where names
/// mean what a table tells. `known` has the texts of the functions and
/// constructors of the module.
///
/// # Errors
///
/// An allocation failure.
pub fn items_faults(
    alloc: Global,
    table: &NameTable,
    known: &TextSet,
    items: &[Item],
    first: &mut FirstFault,
) -> Result<(), AllocError>
    ensures { (owner : NameId) (names texts : List (List ℕ)) (bindings : List Binding)
        (faults : List meant.Fault)
        → AllDiffer names → Tells names bindings table.now → HasTexts names texts known.now
        → All (ItemIsOf owner names) items.now → AreTold owner names faults first.old
        → OnOk result (AreTold owner names
        (faults ++ demand_faults bindings (items_demands texts (items_meaning names items.now)))
        first.new) }
{
    let declared = TopLevel::of(alloc, items)?;
    declared.tell_second(alloc, first)?;
    declared.tell_lacking(known, first);
    let top = Scope::top(table);
    items_uses(alloc, &top, items, first)
}

/// Tells what is wrong with the names in a goal, where names mean what a table
/// tells.
///
/// # Errors
///
/// An allocation failure.
pub fn goal_faults(
    alloc: Global,
    table: &NameTable,
    goal: &GoalText,
    first: &mut FirstFault,
) -> Result<(), AllocError>
    ensures { (owner : NameId) (names : List (List ℕ)) (bindings : List Binding)
        (faults : List meant.Fault)
        → AllDiffer names → Tells names bindings table.now → GoalIsOf owner names goal.now
        → AreTold owner names faults first.old
        → OnOk result (AreTold owner names
        (faults ++ demand_faults bindings (goal_demands (goal_meaning names goal.now)))
        first.new) }
{
    let free = goal.free_variables(alloc)?;
    tell_repeated(alloc, free.as_slice(), first)?;
    let top = Scope::top(table);
    let scope = Scope::inside(free.as_slice(), &top);
    expression(alloc, &scope, goal.expression(), first)
}
