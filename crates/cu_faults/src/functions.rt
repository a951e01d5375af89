//! What is wrong with functions and goals.
ghost use Rattle.std.specs.Prelude.{◌≡◌, IfOk, List, OnOk};
ghost use Rattle.std.specs.List.{flat_map};
ghost use Rattle.cu_locals.specs.Text.{Text};
ghost use Rattle.cu_sites.specs.Depending.{AreDependencies};
ghost use Rattle.cu_sites.specs.Meaning.{GroupIsOf, Stands, group_meaning};
ghost use Rattle.cu_syntax.specs.Syntax.{Goal};
ghost use Rattle.cu_translation.specs.Around.{Around, Names};
ghost use Rattle.cu_translation.specs.Dependencies.{definitions};
ghost use Rattle.cu_translation.specs.Faults.{clashes_of, goal_faults, group_faults, node_faults, recursive_at, recursive_fault};
ghost use Rattle.cu_translation.specs.Functions.{around_goal, around_group, goal_nodes, group_nodes};
ghost use Rattle.cu_translation.specs.Meaning.{binder_meaning};
ghost use Rattle.cu_translation.specs.Sites as text;
ghost use Rattle.cu_faults.specs.Telling.{IsFirst, Told, setting};

use crate::first::First;
use crate::nodes::{tell_clashes, tell_nodes};
use crate::rules::{tell_length, tell_rules};
use cu_names::{NameId, Place};
use cu_sites::{Dependencies, Group, Sites};
use cu_translation::{Binder, Fault, Surroundings, Wrong};
use std::alloc::{AllocError, Global};

/// The sites of a text, and which of its definitions depend on which.
#[derive(Clone, Copy)]
pub struct TextSites<'s, 't> {
    pub sites: &'s Sites<'t>,
    pub dependencies: &'s Dependencies,
}

/// The first of the operators in a text that have no grouped tree.
///
/// # Errors
///
/// An allocation failure.
pub fn first_clash<A: Surroundings>(
    alloc: Global,
    around: &A,
    sites: &Sites<'_>,
) -> Result<Option<Fault>, AllocError>
    ensures { (t : Text) (a : Around) (nodes : List text.Node) → A.tells around.now (setting t a)
        → Stands t nodes sites.now
        → IfOk result (IsFirst t.owner (flat_map (clashes_of a.names) nodes)) }
{
    let mut first = First::new();
    tell_clashes(alloc, around, sites, &mut first)?;
    Ok(first.fault())
}

/// The first fault of a goal of this module, clashes of operators apart.
///
/// # Errors
///
/// An allocation failure.
pub fn first_goal_fault<A: Surroundings>(
    alloc: Global,
    around: &A,
    owner: NameId,
    found: TextSites<'_, '_>,
) -> Result<Option<Fault>, AllocError>
    ensures { (t : Text) (names : Names) (goal : Goal) → t.owner ≡ owner
        → A.tells around.now (setting t (around_goal names goal))
        → Stands t (goal_nodes goal) found.entry.sites.now
        → AreDependencies (goal_nodes goal) found.entry.dependencies.now
        → IfOk result (IsFirst t.owner (goal_faults names goal)) }
{
    let mut first = First::new();
    tell_text(alloc, around, owner, found, &mut first)?;
    Ok(first.fault())
}

/// Tells the faults of a function of top level, clashes of operators apart.
///
/// # Errors
///
/// An allocation failure. What was told is of no use then.
pub fn tell_function<A: Surroundings>(
    alloc: Global,
    around: &A,
    group: &Group<'_>,
    found: TextSites<'_, '_>,
    first: &mut First,
) -> Result<(), AllocError>
    ensures { (t : Text) (names : Names)
        → A.tells around.now (setting t (around_group names (group_meaning t.names group.now)))
        → GroupIsOf t.owner t.names group.now
        → Stands t (group_nodes (group_meaning t.names group.now)) found.entry.sites.now
        → AreDependencies (group_nodes (group_meaning t.names group.now))
        found.entry.dependencies.now
        → OnOk result (Told t.owner first.old
        (group_faults names (group_meaning t.names group.now)) first.new) }
{
    tell_rules(group, first);
    tell_length(group, first);
    let owner = group.first.place.module;
    tell_text(alloc, around, owner, found, first)
}

/// Tells the faults of what stands in a text of a module, clashes of operators
/// apart.
fn tell_text<A: Surroundings>(
    alloc: Global,
    around: &A,
    owner: NameId,
    found: TextSites<'_, '_>,
    first: &mut First,
) -> Result<(), AllocError>
    ensures { (t : Text) (a : Around) (nodes : List text.Node) → t.owner ≡ owner
        → A.tells around.now (setting t a) → Stands t nodes found.entry.sites.now
        → AreDependencies nodes found.entry.dependencies.now
        → OnOk result (Told t.owner first.old (node_faults a nodes) first.new) }
{
    tell_nodes(alloc, around, found.sites, first)?;
    tell_recursive(alloc, owner, found.dependencies, first)
}

/// Tells the variables of a text that depend on themselves.
fn tell_recursive(
    alloc: Global,
    owner: NameId,
    dependencies: &Dependencies,
    first: &mut First,
) -> Result<(), AllocError>
    ensures { (nodes : List text.Node) → AreDependencies nodes dependencies.now
        → OnOk result (Told owner first.old
        (flat_map (recursive_fault nodes) (definitions nodes)) first.new) }
{
    for variable in dependencies.variables() {
        recursive(alloc, owner, dependencies, *variable, first)?;
    }
    Ok(())
}

/// Tells a variable that depends on itself. The whole value of a pattern is
/// never told.
fn recursive(
    alloc: Global,
    owner: NameId,
    dependencies: &Dependencies,
    variable: Binder,
    first: &mut First,
) -> Result<(), AllocError>
    ensures { (nodes : List text.Node) → AreDependencies nodes dependencies.now
        → OnOk result (Told owner first.old
        (recursive_at nodes (binder_meaning variable)) first.new) }
{
    let Binder::At(at) = variable else {
        return Ok(());
    };
    if dependencies.is_recursive(alloc, Binder::At(at))? {
        let place = Place {
            module: owner,
            line: at.line,
            column: at.column,
        };
        first.tell(Fault {
            wrong: Wrong::RecursiveLocal,
            place,
        });
    }
    Ok(())
}
